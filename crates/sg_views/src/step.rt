//! What a role sees once a walk goes on by one edge.
ghost use Rattle.std.specs.Prelude.{◌≡◌, ◌<◌, [], length, All, IfOk};
ghost use Rattle.sg_views.specs.Steps.{HasLabels, next_view, items_after, joined};

use sg_base::{Label, OutOfMemory, Role, Seq, VarSet};
use sg_graph::Graph;
use sg_vis::{Origin, Seen, View};
use std::alloc::Global;

/// What a role sees after one more edge. A step of its own leaves nothing but its label.
pub(crate) fn next_view(
    alloc: Global,
    graph: &Graph,
    role: Role,
    view: &View,
    label: Label,
) -> Result<View, OutOfMemory>
    requires label { label < length graph.now.edges }
    requires items { HasLabels graph.now view.now }
    ensures { IfOk result (λ v. v ≡ next_view graph.now role view.now label) }
{
    if graph.sender(label) == role {
        return Ok(View {
            from: Origin::After(label),
            items: Seq::new(alloc),
        });
    }
    let items = items_after(alloc, graph, view.items.as_slice(), label)?;
    Ok(View {
        from: view.from,
        items,
    })
}

// The items after one more edge: the item of the edge's sender goes, and what it brought is joined to the item after it.
fn items_after(
    alloc: Global,
    graph: &Graph,
    items: &[Seen],
    label: Label,
) -> Result<Seq<Seen>, OutOfMemory>
    requires label { label < length graph.now.edges }
    requires items { All (λ s. s.label < length graph.now.edges) items.now }
    ensures { IfOk result (λ seen. seen ≡ items_after graph.now label [] items.now) }
{
    let sender = graph.sender(label);
    let mut next = Vec::new(alloc);
    let mut carried = VarSet::empty();
    for item in items {
        let delta = joined(carried, item.delta);
        if graph.sender(item.label) == sender {
            carried = delta;
        } else {
            next.push(Seen {
                label: item.label,
                delta,
            })?;
            carried = VarSet::empty();
        }
    }
    next.push(Seen {
        label,
        delta: joined(carried, graph.edge(label).writes),
    })?;
    Ok(Seq::from_vec(next))
}

fn joined(one: VarSet, two: VarSet) -> VarSet
    ensures { result ≡ joined one two }
{
    VarSet(one.0 | two.0)
}
