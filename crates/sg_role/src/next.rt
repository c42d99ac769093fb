//! What a role keeps after a frame, and what it received.
ghost use Rattle.std.specs.Prelude.{◌≡◌, ◌<◌, ◌≤◌, ◌++◌, ◌||◌, None, true, map, length, drop, get_or, unwrap_or, option_map, All, IfOk};
ghost use Rattle.std.specs.Option.{option_or, option_copied};
ghost use Rattle.sg_model.specs.Last.{has, last, merge};
ghost use Rattle.sg_model.specs.Lists.{in_order, below, value_at};
ghost use Rattle.sg_model.specs.Shape.{target};
ghost use Rattle.sg_protocol.specs.Graph.{Graph, shape};
ghost use Rattle.sg_protocol.specs.Kept.{kept_items};
ghost use Rattle.sg_protocol.specs.Session.{last_label, opening_in, Took};
ghost use Rattle.sg_protocol.specs.Spelling.{HasSpelling};
ghost use Rattle.sg_protocol.specs.Representation.{held_after};
ghost use Rattle.sg_protocol.specs.Verdict.{receipt};
ghost use Rattle.sg_walk.specs.Model.{event_of, values_of};
ghost use Rattle.sg_role.specs.Looking.{is_seen, overwritten_by};
ghost use Rattle.sg_role.specs.Model.{state_of};
ghost use Rattle.sg_role.specs.Invariant.{HoldsBefore};
ghost use Rattle.sg_role.specs.Keeping.{kept_from};

use crate::kept_state::KeptState;
use crate::own::commitment_in;
use crate::view::last_of;
use sg_base::{Label, NodeId, Opening, OutOfMemory, Role, Seq, Time, Value, Var};
use sg_frame::{Frame, Item};
use sg_walk::Event;
use std::alloc::Global;
use std::rc::Rc;

/// What is kept after a frame that shows what the role can be shown, if these are the commitments with its items.
pub(crate) fn after_frame<'p>(
    alloc: Global,
    kept: &KeptState<'p>,
    frame: &Frame,
    commitments: Vec<Option<[u8; 32]>>,
) -> Result<Rc<KeptState<'p>>, OutOfMemory>
    requires holds { HoldsBefore (state_of kept.now) }
    requires spelled { HasSpelling frame.now }
    requires commitments { commitments.items ≡ overwritten_by kept.now.commitments.items frame.now.items }
    requires seen { is_seen (state_of kept.now).program (state_of kept.now).held.kept.origin frame.now ≡ true }
    ensures { IfOk result (λ k. state_of k.value ≡ record {
      program = (state_of kept.now).program;
      held = held_after (state_of kept.now).program.graph (state_of kept.now).held (Took frame.now);
    }) }
{
    let count = kept.program.graph().vars();
    let shown = frame.items.as_slice();
    let opened = frame.openings.as_slice();
    let items = kept_with(alloc, count, kept.items.as_slice(), shown)?;
    let openings = openings_with(alloc, count, kept.openings.as_slice(), opened)?;
    let (time, place) = ended(kept, shown);
    let next = kept.stepped(
        alloc,
        kept.from,
        kept.own_time,
        time,
        place,
        items,
        commitments,
        openings,
    )?;
    Ok(next)
}

// The time and the place after these items.
fn ended(kept: &KeptState, items: &[Item]) -> (Time, NodeId)
    requires { All (λ i. i.label < length (state_of kept.now).program.graph.edges) items.now }
    ensures time { result.0 ≡ unwrap_or (option_map (λ i. i.time) (last items.now)) kept.now.time }
    ensures place { result.1 ≡ unwrap_or (option_map (target (shape (state_of kept.now).program.graph)) (last_label items.now)) kept.now.place }
{
    match last_of(items) {
        Some(item) => (item.time, kept.program.graph().edge(item.label).target),
        None => (kept.time, kept.place),
    }
}

/// What the role received by a frame.
pub(crate) fn receipt_of(alloc: Global, frame: &Frame) -> Result<Event, OutOfMemory>
    ensures { IfOk result (λ e. event_of e ≡ receipt frame.now) }
{
    let (label, time) = match last_of(frame.items.as_slice()) {
        Some(item) => (item.label, item.time),
        None => (Label(0), Time(0)),
    };
    let values = values_shown(alloc, frame.openings.as_slice())?;
    Ok(Event::Received {
        sid: frame.sid,
        role: frame.receiver,
        label,
        time,
        values,
        joins: frame.join.is_some(),
    })
}

// The values that openings show.
fn values_shown(alloc: Global, openings: &[Opening]) -> Result<Seq<(Var, Value)>, OutOfMemory>
    ensures { IfOk result (λ l. values_of l ≡ map (λ o. (o.variable, o.value)) openings.now) }
{
    let mut list = Seq::from_vec(Vec::with_capacity(alloc, openings.len())?);
    for at in 0..openings.len() {
        let opening = &openings[at];
        let value = opening.value.copy(alloc)?;
        list.push((opening.var, value))?;
    }
    Ok(list)
}

// ---- items

/// The items that are kept of these and, after them, of more, if the graph has `count` variables.
pub(crate) fn kept_with(
    alloc: Global,
    count: u8,
    items: &[Item],
    more: &[Item],
) -> Result<Vec<Item>, OutOfMemory>
    ensures { (g : Graph) → length g.variables ≡ count → IfOk result (λ v. v.items ≡ kept_items g (items.now ++ more.now)) }
{
    let mut list = Vec::new(alloc);
    let earlier = keep_each(alloc, count, &mut list, Seq::new(alloc), items, more)?;
    keep_each(alloc, count, &mut list, earlier, more, &[])?;
    Ok(list)
}

// Puts the items that have no later one of their sender at the end of a list, if this was written before them and these come later. It
// gives what was written since the last of them.
fn keep_each(
    alloc: Global,
    count: u8,
    list: &mut Vec<Item>,
    mut earlier: Seq<(Var, [u8; 32])>,
    items: &[Item],
    later: &[Item],
) -> Result<Seq<(Var, [u8; 32])>, OutOfMemory>
    ensures { IfOk result (λ e. list.new.items ++ kept_from count e later.now ≡ list.old.items ++ kept_from count earlier (items.now ++ later.now)) }
{
    for at in 0..items.len() {
        let item = &items[at];
        let delta = joined(alloc, count, earlier.as_slice(), item.delta.as_slice())?;
        if comes_again(items, at + 1, later, item.role) {
            earlier = delta;
        } else {
            list.push(with_delta(alloc, item, delta)?)?;
            earlier = Seq::new(alloc);
        }
    }
    Ok(earlier)
}

// An item from an index on, or a later one, is of the role.
fn comes_again(items: &[Item], from: usize, later: &[Item], role: Role) -> bool
    requires { from ≤ length items.now }
    ensures { result ≡ (has (λ i. i.role) role (drop from items.now) || has (λ i. i.role) role later.now) }
{
    has_role(&items[from..], role) || has_role(later, role)
}

// The item with another delta.
fn with_delta(alloc: Global, item: &Item, delta: Seq<(Var, [u8; 32])>) -> Result<Item, OutOfMemory>
    ensures { IfOk result (λ i. i ≡ record item.now { delta = delta }) }
{
    Ok(Item {
        role: item.role,
        label: item.label,
        time: item.time,
        delta,
        tags: Seq::from_vec(item.tags.as_slice().to_vec(alloc)?),
    })
}

// The later delta, with what only the earlier one has, in the order of the variables.
#[tactic(auto, using(crate::proofs::Keeping::in_order_some, crate::proofs::Keeping::in_order_none))]
fn joined(
    alloc: Global,
    count: u8,
    earlier: &[(Var, [u8; 32])],
    later: &[(Var, [u8; 32])],
) -> Result<Seq<(Var, [u8; 32])>, OutOfMemory>
    ensures { IfOk result (λ d. d ≡ in_order count (merge earlier.now later.now)) }
{
    let mut list = Seq::new(alloc);
    for number in 0..count {
        match in_either(earlier, later, Var(number)) {
            Some(commitment) => list.push((Var(number), commitment))?,
            None => {}
        }
    }
    Ok(list)
}

// The commitment of a variable in the later delta, or else in the earlier one.
#[tactic(auto, using(crate::proofs::Joined::value_merged))]
fn in_either(earlier: &[(Var, [u8; 32])], later: &[(Var, [u8; 32])], var: Var) -> Option<[u8; 32]>
    ensures { result ≡ value_at (merge earlier.now later.now) var }
{
    match commitment_in(later, var) {
        Some(commitment) => Some(commitment),
        None => commitment_in(earlier, var),
    }
}

/// Whether an item is of the role.
pub(crate) fn has_role(items: &[Item], role: Role) -> bool
    ensures { result ≡ has (λ i. i.role) role items.now }
{
    for at in 0..items.len() {
        let item = &items[at];
        if item.role == role {
            return true;
        }
    }
    false
}

// ---- openings

// The openings of `count` variables: those that are shown take precedence.
#[tactic(auto, using(crate::proofs::Lists::map_below))]
fn openings_with(
    alloc: Global,
    count: u8,
    openings: &[Option<Opening>],
    shown: &[Opening],
) -> Result<Vec<Option<Opening>>, OutOfMemory>
    ensures { IfOk result (λ v. v.items ≡ map (λ x. option_or (opening_in shown.now x) (get_or openings.now x None)) (below count)) }
{
    let mut list = Vec::new(alloc);
    for number in 0..count {
        list.push(opening_with(alloc, openings, shown, Var(number))?)?;
    }
    Ok(list)
}

fn opening_with(
    alloc: Global,
    openings: &[Option<Opening>],
    shown: &[Opening],
    var: Var,
) -> Result<Option<Opening>, OutOfMemory>
    ensures { IfOk result (λ o. o ≡ option_or (opening_in shown.now var) (get_or openings.now var None)) }
{
    match opening_of(openings, shown, var) {
        Some(opening) => Ok(Some(opening.copy(alloc)?)),
        None => Ok(None),
    }
}

/// The opening of a variable: those that are shown take precedence.
pub(crate) fn opening_of<'a>(
    openings: &'a [Option<Opening>],
    shown: &'a [Opening],
    var: Var,
) -> Option<&'a Opening>
    ensures { option_copied result ≡ option_or (opening_in shown.now var) (get_or openings.now var None) }
{
    for at in 0..shown.len() {
        let opening = &shown[at];
        if opening.var == var {
            return Some(opening);
        }
    }
    match openings.get(var.0 as usize) {
        Some(Some(opening)) => Some(opening),
        _ => None,
    }
}

/// The same openings.
pub(crate) fn copied_openings(
    alloc: Global,
    openings: &[Option<Opening>],
) -> Result<Vec<Option<Opening>>, OutOfMemory>
    ensures { IfOk result (λ v. v.items ≡ openings.now) }
{
    let mut list = Vec::new(alloc);
    for at in 0..openings.len() {
        list.push(copied_opening(alloc, &openings[at])?)?;
    }
    Ok(list)
}

fn copied_opening(alloc: Global, opening: &Option<Opening>) -> Result<Option<Opening>, OutOfMemory>
    ensures { IfOk result (λ o. o ≡ opening.now) }
{
    match opening {
        Some(opening) => Ok(Some(opening.copy(alloc)?)),
        None => Ok(None),
    }
}
