//! The pass over a session's events.
//!
//! It goes from the last event to the first, and keeps for each variable the value of the earliest receipt since. A step that writes the
//! variable takes what is kept, if its own value is hidden, and then nothing is kept for it. So each step is made once.
ghost use Rattle.std.specs.Prelude.{◌≡◌, ℕ, ◌<◌, ◌++◌, [], ◌∷◌, All, IfOk, OnOk, None, length, map, reverse, if◌then◌else◌};
ghost use Rattle.sg_model.specs.Lists.{is_in};
ghost use Rattle.sg_protocol.specs.Graph.{AreNumbers, IsGraph, writes};
ghost use Rattle.sg_protocol.specs.Explaining.{hidden_steps};
ghost use Rattle.sg_protocol.specs.Walk.{shown};
ghost use Rattle.sg_walk.specs.Model.{event_of, step_of, steps_of, values_of, writes_of};
ghost use Rattle.sg_certify.specs.Events.{explaining_walk, pair_of};
ghost use Rattle.sg_certify.specs.Filling.{added, filled_by, found_step, given, unless_written, value_in};

use crate::kept_values::{KeptValues, forget, forget_all, learn, nothing};
use crate::recent::new_labels;
use crate::shown::ShownEvent;
use sg_base::{Label, OutOfMemory, RoleSet, Seq, Value, Var, VarSet};
use sg_graph::Graph;
use sg_walk::{Event, StoredStep, StoredWalk};
use std::alloc::Global;

/// The walk of a session's events, made event by event: the events in order, each beside a walk that shows what it took.
pub fn explain(
    alloc: Global,
    graph: &Graph,
    honest: RoleSet,
    events: &[ShownEvent<'_>],
) -> Result<StoredWalk, OutOfMemory>
    requires { All (λ s. All (λ e. e < length graph.now.edges) s.walk.now) events.now }
    ensures { IfOk result (λ w. steps_of w ≡ explaining_walk graph.now (λ r. is_in r honest) [] (map pair_of events.now)) }
{
    // A graph has at most 32 variables, so each has a slot among what is kept.
    let _count = graph.vars();
    let mut kept = nothing();
    let mut steps = Vec::new(alloc);
    for back in 0..events.len() {
        let shown = &events[events.len() - 1 - back];
        add_event(alloc, graph, honest, shown, &mut kept, &mut steps)?;
    }
    steps.reverse();
    Ok(StoredWalk {
        steps: Seq::from_vec(steps),
    })
}

// Adds the event's steps, the last one first.
fn add_event<'e>(
    alloc: Global,
    graph: &Graph,
    honest: RoleSet,
    shown: &ShownEvent<'e>,
    kept: &mut KeptValues<'e>,
    steps: &mut Vec<StoredStep>,
) -> Result<(), OutOfMemory>
    requires graph { IsGraph graph.now }
    requires edges { All (λ e. e < length graph.now.edges) shown.now.walk.now }
    ensures steps { OnOk result (map step_of steps.new.items ≡ map step_of steps.old.items
        ++ reverse (filled_by (given (event_of shown.now.event.now) (value_in kept.old)) (added graph.now (λ r. is_in r honest) (event_of shown.now.event.now) shown.now.walk.now))) }
    ensures kept { OnOk result ((x : ℕ) → x < 32 → value_in kept.new x
        ≡ unless_written (added graph.now (λ r. is_in r honest) (event_of shown.now.event.now) shown.now.walk.now) (given (event_of shown.now.event.now) (value_in kept.old)) x) }
{
    let event: &'e Event = shown.event;
    match event {
        Event::Started { .. } => Ok(()),
        Event::Sent { label, values, .. } => {
            add_sent(alloc, *label, values.as_slice(), kept, steps)
        }
        Event::Received { role, values, .. } => {
            learn(kept, values.as_slice());
            let labels = new_labels(graph, honest, *role, shown.walk);
            add_hidden(alloc, graph, labels, kept, steps)
        }
    }
}

// Adds a step with these values.
fn add_sent(
    alloc: Global,
    label: Label,
    values: &[(Var, Value)],
    kept: &mut KeptValues<'_>,
    steps: &mut Vec<StoredStep>,
) -> Result<(), OutOfMemory>
    ensures step { OnOk result (map step_of steps.new.items ≡ map step_of steps.old.items ++ record { label = label; writes = shown (values_of values.now) } ∷ []) }
    ensures kept { OnOk result ((x : ℕ) → x < 32 → value_in kept.new x ≡ (if is_in x (map (λ w. w.0) values.now) then None else value_in kept.old x)) }
{
    let writes = all_shown(alloc, values)?;
    steps.push(StoredStep { label, writes })?;
    forget(kept, values);
    Ok(())
}

// The values as what a step writes.
fn all_shown(
    alloc: Global,
    values: &[(Var, Value)],
) -> Result<Seq<(Var, Option<Value>)>, OutOfMemory>
    ensures { IfOk result (λ ws. writes_of ws ≡ shown (values_of values.now)) }
{
    let mut writes = Vec::new(alloc);
    for pair in values {
        writes.push((pair.0, Some(pair.1.copy(alloc)?)))?;
    }
    Ok(Seq::from_vec(writes))
}

// Adds steps along these labels, the last one first, with what is kept.
fn add_hidden(
    alloc: Global,
    graph: &Graph,
    labels: &[Label],
    kept: &mut KeptValues<'_>,
    steps: &mut Vec<StoredStep>,
) -> Result<(), OutOfMemory>
    requires graph { IsGraph graph.now }
    requires edges { All (λ e. e < length graph.now.edges) labels.now }
    ensures steps { OnOk result (map step_of steps.new.items ≡ map step_of steps.old.items ++ reverse (filled_by (value_in kept.old) (hidden_steps graph.now labels.now))) }
    ensures kept { OnOk result ((x : ℕ) → x < 32 → value_in kept.new x ≡ unless_written (hidden_steps graph.now labels.now) (value_in kept.old) x) }
{
    for back in 0..labels.len() {
        add_step(alloc, graph, labels[labels.len() - 1 - back], kept, steps)?;
    }
    Ok(())
}

// Adds a step along the label, with what is kept.
fn add_step(
    alloc: Global,
    graph: &Graph,
    label: Label,
    kept: &mut KeptValues<'_>,
    steps: &mut Vec<StoredStep>,
) -> Result<(), OutOfMemory>
    requires { label < length graph.now.edges }
    ensures step { OnOk result (map step_of steps.new.items ≡ map step_of steps.old.items ++ found_step graph.now (value_in kept.old) label ∷ []) }
    ensures kept { OnOk result ((x : ℕ) → x < 32 → value_in kept.new x ≡ (if is_in x (writes graph.now label) then None else value_in kept.old x)) }
{
    let vars = written_by(graph, label);
    let writes = all_kept(alloc, kept, vars)?;
    steps.push(StoredStep { label, writes })?;
    forget_all(kept, vars);
    Ok(())
}

// What the label's edge writes. There are at most 32 variables.
fn written_by(graph: &Graph, label: Label) -> VarSet
    requires { label < length graph.now.edges }
    ensures written { result ≡ writes graph.now label }
    ensures numbers { AreNumbers 32 result }
{
    let _count = graph.vars();
    graph.edge(label).writes
}

// The variables of the set, in rising order, each with what is kept for it.
fn all_kept(
    alloc: Global,
    kept: &KeptValues<'_>,
    vars: VarSet,
) -> Result<Seq<(Var, Option<Value>)>, OutOfMemory>
    requires { AreNumbers 32 vars }
    ensures { IfOk result (λ ws. writes_of ws ≡ map (λ x. (x, value_in kept.now x)) vars) }
{
    let mut writes = Vec::new(alloc);
    for number in 0..32u8 {
        if vars.has(Var(number)) {
            writes.push((Var(number), copy_kept(alloc, kept, number)?))?;
        }
    }
    Ok(Seq::from_vec(writes))
}

// A copy of what is kept for a variable.
fn copy_kept(alloc: Global, kept: &KeptValues<'_>, number: u8) -> Result<Option<Value>, OutOfMemory>
    requires { number < 32 }
    ensures { IfOk result (λ v. writes_of ((number, v) ∷ []) ≡ (number, value_in kept.now number) ∷ []) }
{
    let values = &kept.values[..];
    match values[number as usize] {
        Some(value) => Ok(Some(value.copy(alloc)?)),
        None => Ok(None),
    }
}
