//! Whether the events are the honest part of the steps.
ghost use Rattle.std.specs.Prelude.{◌≡◌, ◌<◌, ◌↔◌, [], ◌∷◌, ℕ, true, false, if◌then◌else◌, length, nat_lt, get_or, map, flat_map, Some, None, MatchOption, IsTrue};
ghost use Rattle.std.specs.List.{AllByRecursion, list_all};
ghost use Rattle.sg_model.specs.Lists.{is_in, keys_of};
ghost use Rattle.sg_protocol.specs.Graph.{AreNumbers};
ghost use Rattle.sg_protocol.specs.Walk.{Sends, Receives, act_if, acts_of_event, honest_acts, shown};
ghost use Rattle.sg_explain.specs.Matching.{IsNamed, IsNextAct, Takes, acts_from, is_start, kept, value_from};
ghost use Rattle.sg_base.specs.Model.{value_of};
ghost use Rattle.sg_walk.specs.Model.{event_of, step_of, steps_of, values_of, writes_of};

use super::pairs::{are_shown, counts, edge_of, has_keys, index_of, writes_value};
use sg_base::{Label, Role, RoleSet, Value, Var, VarSet};
use sg_graph::Graph;
use sg_walk::{Event, StoredStep, StoredWalk};

/// Whether the events are what the honest roles do along the walk. `taken` says whether the last receipt counts.
pub(super) fn explains(
    graph: &Graph,
    honest: RoleSet,
    taken: bool,
    walk: &StoredWalk,
    events: &[Event],
) -> bool
    requires { AllByRecursion (IsNamed graph.now) (steps_of walk.now) }
    ensures { IsTrue result
        ↔ (flat_map acts_of_event (map event_of events.now) ≡ honest_acts graph.now (λ r. is_in r honest) taken [] (steps_of walk.now)) }
{
    let steps = walk.steps.as_slice();
    let mut indices: [Option<usize>; 32] = [None; 32];
    let mut at: usize = 0;
    for number in 0..steps.len() {
        let step = &steps[number];
        let edge = edge_of(graph, step.label);
        let sends = honest.has(graph.sender(step.label));
        let Some(sent) = after_sending(events, at, sends, graph.sender(step.label), step) else {
            return false;
        };
        note_writes(&mut indices, number, step);
        let hears = counts(
            honest,
            graph.receiver(step.label),
            taken,
            number + 1 == steps.len(),
        );
        let receipt = Receipt {
            role: graph.receiver(step.label),
            label: step.label,
            reads: edge.reads,
        };
        let Some(received) = after_receiving(events, sent, hears, receipt, steps, &indices) else {
            return false;
        };
        at = received;
    }
    next_act(events, at).is_none()
}

/// A receipt: the role, the label, and the variables that are read.
#[derive(Clone, Copy)]
struct Receipt {
    role: Role,
    label: Label,
    reads: VarSet,
}

/// Puts the step's number at each variable that it writes.
fn note_writes(indices: &mut [Option<usize>; 32], number: usize, step: &StoredStep)
    requires { list_all (λ x. nat_lt x 32) (keys_of step.now.writes) ≡ true }
    ensures { (x : ℕ) → x < 32 → get_or indices.new x None ≡ (if is_in x (keys_of step.now.writes) then Some number else get_or indices.old x None) }
{
    for write in step.writes.as_slice() {
        indices[index_of(write.0)] = Some(number);
    }
}

/// The index after the role's sending of the step, if it comes next or the role isn't honest.
fn after_sending(
    events: &[Event],
    from: usize,
    honest: bool,
    role: Role,
    step: &StoredStep,
) -> Option<usize>
    ensures { Takes events.now from (act_if honest (Sends role step.now.label (writes_of step.now.writes))) result }
{
    if !honest {
        return Some(from);
    }
    let Some(at) = next_act(events, from) else {
        return None;
    };
    if is_sending(&events[at], role, step) {
        Some(at + 1)
    } else {
        None
    }
}

/// The index after the receipt, if it comes next or doesn't count.
fn after_receiving(
    events: &[Event],
    from: usize,
    counts: bool,
    receipt: Receipt,
    steps: &[StoredStep],
    indices: &[Option<usize>; 32],
) -> Option<usize>
    requires { AreNumbers 32 receipt.reads }
    ensures { Takes events.now from (act_if counts (Receives receipt.role receipt.label (kept (map step_of steps.now) indices.now receipt.reads))) result }
{
    if !counts {
        return Some(from);
    }
    let Some(at) = next_act(events, from) else {
        return None;
    };
    if is_receipt(&events[at], receipt, steps, indices) {
        Some(at + 1)
    } else {
        None
    }
}

/// The index of the first event from an index on that isn't a start.
fn next_act(events: &[Event], from: usize) -> Option<usize>
    ensures { MatchOption result (acts_from events.now from ≡ []) (IsNextAct events.now from) }
{
    for at in from..events.len() {
        if !is_started(&events[at]) {
            return Some(at);
        }
    }
    None
}

fn is_started(event: &Event) -> bool
    ensures { result ≡ is_start event.now }
{
    matches!(event, Event::Started { .. })
}

/// Whether the event is the role's sending of the step.
fn is_sending(event: &Event, role: Role, step: &StoredStep) -> bool
    ensures { IsTrue result ↔ (acts_of_event (event_of event.now) ≡ Sends role step.now.label (writes_of step.now.writes) ∷ []) }
{
    match event {
        Event::Sent {
            role: sender,
            label,
            values,
            ..
        } => {
            *sender == role
                && *label == step.label
                && are_shown(values.as_slice(), step.writes.as_slice())
        }
        _ => false,
    }
}

/// Whether the event is the receipt, with the values that the indices give.
fn is_receipt(
    event: &Event,
    receipt: Receipt,
    steps: &[StoredStep],
    indices: &[Option<usize>; 32],
) -> bool
    requires { AreNumbers 32 receipt.reads }
    ensures { IsTrue result
        ↔ (acts_of_event (event_of event.now) ≡ Receives receipt.role receipt.label (kept (map step_of steps.now) indices.now receipt.reads) ∷ []) }
{
    match event {
        Event::Received {
            role,
            label,
            values,
            ..
        } => {
            *role == receipt.role
                && *label == receipt.label
                && are_kept(receipt.reads, values.as_slice(), steps, indices)
        }
        _ => false,
    }
}

/// Whether the values are those that the indices give to the variables of the set.
fn are_kept(
    vars: VarSet,
    values: &[(Var, Value)],
    steps: &[StoredStep],
    indices: &[Option<usize>; 32],
) -> bool
    requires { AreNumbers 32 vars }
    ensures { IsTrue result ↔ (shown (values_of values.now) ≡ kept (map step_of steps.now) indices.now vars) }
{
    has_keys(vars, values) && hold(values, steps, indices)
}

/// Whether each value is the one that its variable's index gives.
fn hold(values: &[(Var, Value)], steps: &[StoredStep], indices: &[Option<usize>; 32]) -> bool
    requires { list_all (λ x. nat_lt x 32) (map (λ w. w.0) values.now) ≡ true }
    ensures { IsTrue result ↔ (shown (values_of values.now) ≡ kept (map step_of steps.now) indices.now (map (λ w. w.0) values.now)) }
{
    for value in values {
        if !is_kept(steps, indices[index_of(value.0)], value.0, &value.1) {
            return false;
        }
    }
    true
}

/// Whether the step of this index wrote the value.
fn is_kept(steps: &[StoredStep], index: Option<usize>, var: Var, value: &Value) -> bool
    ensures { IsTrue result ↔ (Some (value_of value.now) ≡ value_from (map step_of steps.now) index var) }
{
    match index {
        Some(number) => number < steps.len()
            && writes_value(steps[number].writes.as_slice(), var, value),
        None => false,
    }
}
