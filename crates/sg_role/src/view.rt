//! Whether a frame shows what a role can be shown.
ghost use Rattle.std.specs.Prelude.{◌≡◌, ◌<◌, [], ◌&&◌, ◌==◌, Some, None, true, false, not, length, map, filter, slice_get, bytes_eq, All, IfOk, IfErr, MatchOption};
ghost use Rattle.std.specs.List.{list_all};
ghost use Rattle.std.specs.Option.{option_map_or};
ghost use Rattle.sg_model.specs.Last.{has, last};
ghost use Rattle.sg_model.specs.Lists.{is_in, keys_of};
ghost use Rattle.sg_model.specs.Shape.{sender};
ghost use Rattle.sg_protocol.specs.Calls.{NoSuchView};
ghost use Rattle.sg_protocol.specs.Graph.{AreNumbers, shape, reads};
ghost use Rattle.sg_protocol.specs.Session.{last_label};
ghost use Rattle.sg_protocol.specs.Spelling.{HasSpelling};
ghost use Rattle.sg_protocol.specs.Verdict.{row, seen, has_right_tags};
ghost use Rattle.sg_role.specs.Faults.{Refuses};
ghost use Rattle.sg_role.specs.Looking.{HasRisingVars, is_seen};
ghost use Rattle.sg_role.specs.Model.{state_of};

use crate::Refusal;
use crate::kept_state::KeptState;
use sg_base::{Label, Opening, OutOfMemory, Role, RoleSet, Tag, Var, VarSet};
use sg_frame::{Frame, Item};
use sg_program::Program;
use sg_vis::{Seen, ViewId};
use std::alloc::Global;

/// The number of the view that a frame shows, if its items have the roles and tags, and its openings the variables, that go with it.
pub(crate) fn find_view(alloc: Global, kept: &KeptState, frame: &Frame) -> Result<ViewId, Refusal>
    requires { HasSpelling frame.now }
    ensures found { IfOk result (λ id. slice_get (state_of kept.now).program.views id
        ≡ Some (record { origin = (state_of kept.now).held.kept.origin; items = map seen frame.now.items })) }
    ensures right { IfOk result (λ id. is_seen (state_of kept.now).program (state_of kept.now).held.kept.origin frame.now ≡ true) }
    ensures wrong { IfErr result (Refuses (row (not (is_seen (state_of kept.now).program (state_of kept.now).held.kept.origin frame.now)) NoSuchView)) }
{
    let seen = all_seen(alloc, frame.items.as_slice())?;
    let Some(view) = kept.program.views().find(kept.from, seen.as_slice()) else {
        return Err(Refusal::NoSuchView);
    };
    if !has_form(kept.program, frame) {
        return Err(Refusal::NoSuchView);
    }
    Ok(view)
}

// What is seen of each item.
fn all_seen(alloc: Global, items: &[Item]) -> Result<Vec<Seen>, OutOfMemory>
    requires { All (λ i. HasRisingVars i) items.now }
    ensures { IfOk result (λ v. v.items ≡ map seen items.now) }
{
    let mut list = Vec::new(alloc);
    for at in 0..items.len() {
        list.push(seen(&items[at]))?;
    }
    Ok(list)
}

fn seen(item: &Item) -> Seen
    requires { HasRisingVars item.now }
    ensures { result ≡ seen item.now }
{
    Seen {
        label: item.label,
        delta: vars_of(item.delta.as_slice()),
    }
}

// The variables of a delta.
fn vars_of(delta: &[(Var, [u8; 32])]) -> VarSet
    requires { AreNumbers 32 (keys_of delta.now) }
    ensures { result ≡ keys_of delta.now }
{
    let mut vars = VarSet::empty();
    for at in 0..delta.len() {
        let (var, _) = delta[at];
        vars = vars.with(var);
    }
    vars
}

// The items are sent by their labels' senders and the last by the frame's, they have the tags of their targets, and the openings are of
// what the last label reads.
#[tactic(auto, using(crate::proofs::Spelled::tags_rise, crate::proofs::Spelled::openings_rise))]
fn has_form(program: &Program, frame: &Frame) -> bool
    requires spelled { HasSpelling frame.now }
    requires labels { All (λ i. i.label < length program.now.graph.edges) frame.now.items }
    ensures { result ≡ (list_all (λ i. i.role == sender (shape program.now.graph) i.label) frame.now.items
        && option_map_or (λ i. i.role == frame.now.sender) (last frame.now.items) false
        && has_right_tags program.now frame.now.items
        && bytes_eq (map (λ o. o.variable) frame.now.openings) (option_map_or (reads program.now.graph) (last_label frame.now.items) [])) }
{
    let items = frame.items.as_slice();
    let Some(item) = last_of(items) else {
        return false;
    };
    let senders = has_senders(program, items);
    let sender = item.role == frame.sender;
    let tags = has_right_tags(program, items);
    let openings = opens_all(program, item.label, frame.openings.as_slice());
    senders && sender && tags && openings
}

/// The last item.
#[tactic(auto, using(crate::proofs::Spelled::last_at))]
pub(crate) fn last_of(items: &[Item]) -> Option<&Item>
    ensures { MatchOption result (last items.now ≡ None) (λ i. last items.now ≡ Some i.now) }
{
    if items.is_empty() {
        return None;
    }
    Some(&items[items.len() - 1])
}

// Each item's role is its label's sender.
fn has_senders(program: &Program, items: &[Item]) -> bool
    requires { All (λ i. i.label < length program.now.graph.edges) items.now }
    ensures { result ≡ list_all (λ i. i.role == sender (shape program.now.graph) i.label) items.now }
{
    let graph = program.graph();
    for at in 0..items.len() {
        let item = &items[at];
        if item.role != graph.sender(item.label) {
            return false;
        }
    }
    true
}

// Each item has tags for exactly its targets without a later item.
fn has_right_tags(program: &Program, items: &[Item]) -> bool
    requires labels { All (λ i. i.label < length program.now.graph.edges) items.now }
    requires tags { All (λ i. AreNumbers 16 (keys_of i.tags) × (i.role < 16)) items.now }
    ensures { result ≡ has_right_tags program.now items.now }
{
    let mut later = RoleSet::empty();
    for back in 0..items.len() {
        let item = &items[items.len() - 1 - back];
        if !has_tags(
            item.tags.as_slice(),
            program.targets().of(item.label),
            later,
        ) {
            return false;
        }
        later = later.with(item.role);
    }
    true
}

// The tags are for exactly the targets that aren't among the later roles.
fn has_tags(tags: &[(Role, Tag)], targets: RoleSet, later: RoleSet) -> bool
    requires tags { AreNumbers 16 (keys_of tags.now) }
    requires targets { AreNumbers 16 targets }
    ensures { result ≡ bytes_eq (keys_of tags.now) (filter (λ t. not (is_in t later)) targets) }
{
    for number in 0..16 {
        let role = Role(number);
        if has_tag(tags, role) != is_due(targets, later, role) {
            return false;
        }
    }
    true
}

// The role is a target and no later role.
#[tactic(auto, using(crate::proofs::Rising::in_filter))]
fn is_due(targets: RoleSet, later: RoleSet, role: Role) -> bool
    ensures { result ≡ is_in role (filter (λ t. not (is_in t later)) targets) }
{
    targets.has(role) && !later.has(role)
}

fn has_tag(tags: &[(Role, Tag)], role: Role) -> bool
    ensures { result ≡ is_in role (keys_of tags.now) }
{
    for at in 0..tags.len() {
        let (target, _) = tags[at];
        if target == role {
            return true;
        }
    }
    false
}

// The openings are of exactly what the label's edge reads.
fn opens_all(program: &Program, label: Label, openings: &[Opening]) -> bool
    requires label { label < length program.now.graph.edges }
    requires variables { AreNumbers 32 (map (λ o. o.variable) openings.now) }
    ensures { result ≡ bytes_eq (map (λ o. o.variable) openings.now) (reads program.now.graph label) }
{
    let reads = program.graph().edge(label).reads;
    for number in 0..32 {
        let var = Var(number);
        if reads.has(var) != has_opening(openings, var) {
            return false;
        }
    }
    true
}

fn has_opening(openings: &[Opening], var: Var) -> bool
    ensures { result ≡ is_in var (map (λ o. o.variable) openings.now) }
{
    for at in 0..openings.len() {
        let opening = &openings[at];
        if opening.var == var {
            return true;
        }
    }
    false
}
