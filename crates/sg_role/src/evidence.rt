//! What a role keeps with its own item, and what of it is shown.
ghost use Rattle.std.specs.Prelude.{◌≡◌, ◌≤◌, ◌++◌, [], ◌∷◌, Some, None, not, length, slice_set, filter, filter_map, drop, get_or, IfOk};
ghost use Rattle.std.specs.Option.{option_or};
ghost use Rattle.sg_model.specs.Last.{has, after_last};
ghost use Rattle.sg_model.specs.Lists.{is_in, below};
ghost use Rattle.sg_protocol.specs.Graph.{Graph};
ghost use Rattle.sg_protocol.specs.Kept.{kept_items};
ghost use Rattle.sg_protocol.specs.Sending.{tags_left};
ghost use Rattle.sg_protocol.specs.Session.{opening_in};
ghost use Rattle.sg_role.specs.Stepping.{openings_after};

use crate::kept_state::copied;
use crate::next::{has_role, kept_with, opening_of};
use sg_base::{Opening, OutOfMemory, Role, Seq, Tag, Var, VarSet};
use sg_frame::Item;
use std::alloc::Global;
use std::slice::from_ref;

/// The kept items with the role's own one, if the graph has `count` variables.
pub(crate) fn items_with(
    alloc: Global,
    count: u8,
    items: &[Item],
    own: &Item,
) -> Result<Vec<Item>, OutOfMemory>
    ensures { (g : Graph) → length g.variables ≡ count → IfOk result (λ v. v.items ≡ kept_items g (items.now ++ own.now ∷ [])) }
{
    kept_with(alloc, count, items, from_ref(own))
}

/// What of the kept items is shown to a role: those after its own, each with the tags for roles that have no later item.
pub(crate) fn shown_to(alloc: Global, items: &[Item], to: Role) -> Result<Seq<Item>, OutOfMemory>
    ensures { IfOk result (λ s. s ≡ tags_left (after_last (λ i. i.role) to items.now)) }
{
    let mut list = Seq::new(alloc);
    let start = index_after(items, to);
    for at in start..items.len() {
        list.push(shown_item(alloc, &items[at], &items[at + 1..])?)?;
    }
    Ok(list)
}

// The index after the last item of a role.
#[tactic(auto, using(crate::proofs::Showing::after_none, crate::proofs::Showing::after_step))]
fn index_after(items: &[Item], role: Role) -> usize
    ensures there { result ≤ length items.now }
    ensures after { drop result items.now ≡ after_last (λ i. i.role) role items.now }
{
    for at in 0..items.len() {
        if !has_role(&items[at..], role) {
            return at;
        }
    }
    items.len()
}

// The item with the tags for roles that have no later one.
fn shown_item(alloc: Global, item: &Item, later: &[Item]) -> Result<Item, OutOfMemory>
    ensures { IfOk result (λ i. i ≡ record item.now { tags = filter (λ t. not (has (λ j. j.role) t.0 later.now)) item.now.tags }) }
{
    let tags = tags_without(alloc, item.tags.as_slice(), later)?;
    let shown = with_tags(alloc, item, tags)?;
    Ok(shown)
}

// The item with other tags.
fn with_tags(alloc: Global, item: &Item, tags: Seq<(Role, Tag)>) -> Result<Item, OutOfMemory>
    ensures { IfOk result (λ i. i ≡ record item.now { tags = tags }) }
{
    Ok(Item {
        role: item.role,
        label: item.label,
        time: item.time,
        delta: Seq::from_vec(copied(alloc, item.delta.as_slice())?),
        tags,
    })
}

// The tags for roles that have no later item.
fn tags_without(
    alloc: Global,
    tags: &[(Role, Tag)],
    later: &[Item],
) -> Result<Seq<(Role, Tag)>, OutOfMemory>
    ensures { IfOk result (λ l. l ≡ filter (λ t. not (has (λ j. j.role) t.0 later.now)) tags.now) }
{
    let mut list = Seq::new(alloc);
    for at in 0..tags.len() {
        let (role, tag) = tags[at];
        if !has_role(later, role) {
            list.push((role, tag))?;
        }
    }
    Ok(list)
}

/// The variables of a set.
pub(crate) fn vars_of(alloc: Global, set: VarSet) -> Result<Vec<Var>, OutOfMemory>
    ensures { IfOk result (λ v. v.items ≡ filter (λ x. is_in x set) (below 32)) }
{
    let mut list = Vec::new(alloc);
    for number in 0..32u8 {
        if set.has(Var(number)) {
            list.push(Var(number))?;
        }
    }
    Ok(list)
}

/// The openings of these variables: the written ones take precedence.
pub(crate) fn openings_of(
    alloc: Global,
    vars: &[Var],
    written: &[Opening],
    openings: &[Option<Opening>],
) -> Result<Seq<Opening>, OutOfMemory>
    ensures { IfOk result (λ os. os ≡ filter_map (λ x. option_or (opening_in written.now x) (get_or openings.now x None)) vars.now) }
{
    let mut list = Seq::new(alloc);
    for at in 0..vars.len() {
        match opening_of(openings, written, vars[at]) {
            Some(opening) => list.push(opening.copy(alloc)?)?,
            None => {}
        }
    }
    Ok(list)
}

/// Takes over what was written. It takes no memory.
pub(crate) fn take_over(openings: &mut Vec<Option<Opening>>, mut written: Vec<Opening>)
    ensures { openings.new.items ≡ openings_after (length openings.old.items) openings.old.items written.items }
{
    while let Some(opening) = written.pop() {
        put(openings, opening);
    }
}

// Puts an opening at its variable's index.
#[tactic(auto, using(crate::proofs::Showing::set_beyond))]
fn put(openings: &mut Vec<Option<Opening>>, opening: Opening)
    ensures { openings.new.items ≡ slice_set openings.old.items opening.variable (Some opening) }
{
    let index = opening.var.0 as usize;
    if index < openings.len() {
        openings[index] = Some(opening);
    }
}
