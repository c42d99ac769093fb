//! Crafts: what is made of their words, if all names are declared.
ghost use Rattle.std.specs.Prelude.{◌≡◌, map, position, bytes_eq, option_map, option_copied, IfOk, IsTrue};
ghost use Rattle.std.specs.List.{list_all};
ghost use Rattle.sg_protocol.specs.Schedule.{confounder};
ghost use Rattle.sg_sched.specs.Format.Crafts.{source_of, tag_of};
ghost use Rattle.sg_sched.specs.Format.Forms.{is_committed, is_item};
ghost use Rattle.sg_sched.specs.Format.Items.{roles_of, variables_of, labels_of};
ghost use Rattle.sg_sched.specs.Format.Sources.{from_of};
ghost use Rattle.sg_sched_text.specs.Crafting.{known_opening, known_source, known_tag, known_item};
ghost use Rattle.sg_sched_text.specs.Numbers.{all_made};

use crate::declarations::Declared;
use crate::values::spelled_value;
use byteorder::{BigEndian, ByteOrder};
use sg_base::{Label, Name, Opening, OutOfMemory, Role, Seq, Time, Var};
use sg_graph::Graph;
use sg_sched::index::{label_index, role_index, var_index};
use sg_sched::line::{Committed, ItemLine, TagLine, TagSource};
use sg_sched::{CraftItem, Source};
use std::alloc::Global;

/// The variable of this name, if there is a graph that has it.
pub(crate) fn variable(graph: Option<&Graph>, name: &Name) -> Option<Var>
    ensures { result ≡ position (bytes_eq name.now) (variables_of (option_copied graph.entry)) }
{
    match graph {
        Some(graph) => var_index(graph, name),
        None => None,
    }
}

/// The role of this name, if there is a graph that has it.
pub(crate) fn role(graph: Option<&Graph>, name: &Name) -> Option<Role>
    ensures { result ≡ position (bytes_eq name.now) (roles_of (option_copied graph.entry)) }
{
    match graph {
        Some(graph) => role_index(graph, name),
        None => None,
    }
}

// The label of this name, if there is a graph that has it.
fn label(graph: Option<&Graph>, name: &Name) -> Option<Label>
    ensures { result ≡ position (bytes_eq name.now) (labels_of (option_copied graph.entry)) }
{
    match graph {
        Some(graph) => label_index(graph, name),
        None => None,
    }
}

// The number of a step and that of a variable, each in eight bytes, the greatest first.
fn confounder(step: u64, var: Var) -> [u8; 16]
    ensures { result ≡ confounder step var }
{
    let mut bytes = [0u8; 16];
    BigEndian::write_u64(&mut bytes[..8], step);
    BigEndian::write_u64(&mut bytes[8..], u64::from(var.0));
    bytes
}

// The opening, if its variable is declared.
#[tactic(auto, using(crate::proofs::FormParts::committed_value))]
fn opening(
    alloc: Global,
    graph: Option<&Graph>,
    committed: &Committed<'_>,
) -> Result<Option<Opening>, OutOfMemory>
    requires { IsTrue (is_committed committed.now) }
    ensures { IfOk result (λ o. o ≡ known_opening (option_copied graph.entry) committed.now) }
{
    let Some(var) = variable(graph, &committed.variable) else {
        return Ok(None);
    };
    let value = spelled_value(alloc, committed.value)?;
    Ok(Some(Opening {
        var,
        confounder: confounder(committed.step, var),
        value,
    }))
}

/// The openings, if their variables are declared.
#[tactic(auto, using(crate::proofs::FormParts::each))]
pub(crate) fn openings(
    alloc: Global,
    graph: Option<&Graph>,
    list: &[Committed<'_>],
) -> Result<Option<Seq<Opening>>, OutOfMemory>
    requires { IsTrue (list_all is_committed list.now) }
    ensures { IfOk result (λ o. o ≡ all_made (known_opening (option_copied graph.entry)) list.now) }
{
    let mut found = Seq::new(alloc);
    for committed in list {
        match opening(alloc, graph, committed)? {
            Some(opening) => found.push(opening)?,
            None => return Ok(None),
        }
    }
    Ok(Some(found))
}

/// The source, if its pair or its role is declared.
pub(crate) fn source(past: &Declared, graph: Option<&Graph>, from: &TagSource) -> Option<Source>
    ensures { option_map source_of result ≡ known_source past.now (option_copied graph.entry) (from_of from.now) }
{
    match from {
        TagSource::Key { one, two } => {
            if past.keys.has_pair(one, two) {
                Some(Source::Key(*one, *two))
            } else {
                None
            }
        }
        TagSource::Item {
            frame,
            item,
            role: name,
        } => {
            let role = role(graph, name)?;
            Some(Source::CopyItem {
                frame: *frame,
                item: *item,
                role,
            })
        }
        TagSource::Seal { frame } => Some(Source::CopySeal { frame: *frame }),
        TagSource::Zero => Some(Source::Zero),
    }
}

// The role and its source, if they are declared.
fn tag(past: &Declared, graph: Option<&Graph>, line: &TagLine) -> Option<(Role, Source)>
    ensures { option_map tag_of result ≡ known_tag past.now (option_copied graph.entry) line.now }
{
    let role = role(graph, &line.role)?;
    let source = source(past, graph, &line.from)?;
    Some((role, source))
}

// The tags, if all their names are declared.
fn tags(
    past: &Declared,
    graph: Option<&Graph>,
    list: &[TagLine],
) -> Result<Option<Seq<(Role, Source)>>, OutOfMemory>
    ensures { IfOk result (λ o. option_map (map tag_of) o ≡ all_made (known_tag past.now (option_copied graph.entry)) list.now) }
{
    let mut found = Seq::new(past.alloc);
    for line in list {
        match tag(past, graph, line) {
            Some(tag) => found.push(tag)?,
            None => return Ok(None),
        }
    }
    Ok(Some(found))
}

// The item, if all its names are declared.
#[tactic(auto, using(crate::proofs::FormParts::item_parts))]
fn item(
    past: &Declared,
    graph: Option<&Graph>,
    line: &ItemLine<'_>,
) -> Result<Option<CraftItem>, OutOfMemory>
    requires { IsTrue (is_item line.now) }
    ensures { IfOk result (λ o. o ≡ known_item past.now (option_copied graph.entry) line.now) }
{
    let Some(label) = label(graph, &line.label) else {
        return Ok(None);
    };
    let Some(delta) = openings(past.alloc, graph, line.delta.as_slice())? else {
        return Ok(None);
    };
    let Some(tags) = tags(past, graph, line.tags.as_slice())? else {
        return Ok(None);
    };
    Ok(Some(CraftItem {
        label,
        time: Time(line.time),
        delta,
        tags,
    }))
}

/// The items, if all their names are declared.
#[tactic(auto, using(crate::proofs::FormParts::each))]
pub(crate) fn items(
    past: &Declared,
    graph: Option<&Graph>,
    list: &[ItemLine<'_>],
) -> Result<Option<Seq<CraftItem>>, OutOfMemory>
    requires { IsTrue (list_all is_item list.now) }
    ensures { IfOk result (λ o. o ≡ all_made (known_item past.now (option_copied graph.entry)) list.now) }
{
    let mut found = Seq::new(past.alloc);
    for line in list {
        match item(past, graph, line)? {
            Some(item) => found.push(item)?,
            None => return Ok(None),
        }
    }
    Ok(Some(found))
}
