//! Whether what follows each other in a craft rises by its numbers, if all of its names are declared.
ghost use Rattle.std.specs.Prelude.{◌≡◌, ◌&&◌, option_copied};
ghost use Rattle.std.specs.List.{list_all};
ghost use Rattle.sg_sched.specs.Format.Faults.{rise, rises, variables, tag_roles};
ghost use Rattle.sg_sched.specs.Format.Items.{roles_of, variables_of};

use crate::craft::{role, variable};
use sg_graph::Graph;
use sg_sched::line::{Committed, CraftLine, ItemLine, TagLine};

/// Whether the variables of each list rise, and the roles of each item's tags.
pub(crate) fn rises(graph: Option<&Graph>, craft: &CraftLine<'_>) -> bool
    ensures { result ≡ rises (option_copied graph.entry) craft.now }
{
    variables_rise(graph, craft.know.as_slice())
        && items_rise(graph, craft.items.as_slice())
        && variables_rise(graph, craft.openings.as_slice())
}

fn items_rise(graph: Option<&Graph>, items: &[ItemLine<'_>]) -> bool
    ensures { result ≡ list_all (λ i. rise (variables i.delta) (variables_of (option_copied graph.entry)) && rise (tag_roles i.tags) (roles_of (option_copied graph.entry))) items.now }
{
    for item in items {
        if !item_rises(graph, item) {
            return false;
        }
    }
    true
}

fn item_rises(graph: Option<&Graph>, item: &ItemLine<'_>) -> bool
    ensures { result ≡ (rise (variables item.now.delta) (variables_of (option_copied graph.entry)) && rise (tag_roles item.now.tags) (roles_of (option_copied graph.entry))) }
{
    variables_rise(graph, item.delta.as_slice()) && roles_rise(graph, item.tags.as_slice())
}

fn variables_rise(graph: Option<&Graph>, list: &[Committed<'_>]) -> bool
    ensures { result ≡ rise (variables list.now) (variables_of (option_copied graph.entry)) }
{
    let mut rose = true;
    let mut least = 0u16;
    for committed in list {
        let Some(var) = variable(graph, &committed.variable) else {
            return true;
        };
        let number = u16::from(var.0);
        rose = rose && number >= least;
        least = number + 1;
    }
    rose
}

fn roles_rise(graph: Option<&Graph>, list: &[TagLine]) -> bool
    ensures { result ≡ rise (tag_roles list.now) (roles_of (option_copied graph.entry)) }
{
    let mut rose = true;
    let mut least = 0u16;
    for tag in list {
        let Some(role) = role(graph, &tag.role) else {
            return true;
        };
        let number = u16::from(role.0);
        rose = rose && number >= least;
        least = number + 1;
    }
    rose
}
