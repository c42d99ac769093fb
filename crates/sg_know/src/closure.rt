//! The states of all walks from the start, for one variable and one role.
ghost use Rattle.std.specs.Prelude.{◌≡◌, ◌<◌, ℕ, length, IfOk, OnOk};
ghost use Rattle.sg_model.specs.Lists.{is_in};
ghost use Rattle.sg_model.specs.Shape.{source};
ghost use Rattle.sg_protocol.specs.Graph.{shape, writes};
ghost use Rattle.sg_protocol.specs.Knowledge.{learns};
ghost use Rattle.sg_know.specs.States.{AreReached, AreThere, Extends, Has, IsClosure, known_if, mark_after, state_along, state_at};

use crate::states::{Arrival, Mark, ReachedState, States, WalkState};
use sg_base::{Label, NodeId, OutOfMemory, Role, Var};
use sg_graph::Graph;
use std::alloc::Global;

/// Each state that a walk from the start leads to. It takes memory for the states.
pub(crate) fn closure(
    alloc: Global,
    graph: &Graph,
    role: Role,
    var: Var,
) -> Result<States, OutOfMemory>
    requires start { 0 < length graph.now.nodes }
    ensures { IfOk result (IsClosure graph.now role var) }
{
    let mut states = States::new(alloc)?;
    states.enter(ReachedState {
        state: WalkState {
            node: NodeId(0),
            mark: Mark::Unwritten,
        },
        by: None,
    })?;
    let mut at: usize = 0;
    while at < states.len() {
        follow(graph, role, var, at, &mut states)?;
        at += 1;
    }
    Ok(states)
}

/// Enters each state that one edge leads to from the state at an index.
fn follow(
    graph: &Graph,
    role: Role,
    var: Var,
    at: usize,
    states: &mut States,
) -> Result<(), OutOfMemory>
    requires there { at < length states.old }
    requires reached { AreReached graph.now role var states.old }
    requires nodes { AreThere graph.now states.old }
    ensures reached { OnOk result (AreReached graph.now role var states.new) }
    ensures nodes { OnOk result (AreThere graph.now states.new) }
    ensures grows { OnOk result (Extends states.old states.new) }
    ensures followed { OnOk result ((e : ℕ) → e < length graph.now.edges → source (shape graph.now) e ≡ (state_at states.old at).node → Has states.new (state_along graph.now role var e (state_at states.old at))) }
{
    let state = states.state(at);
    for label in graph.edges_from(state.node) {
        states.enter(ReachedState {
            state: along(graph, role, var, *label, &state),
            by: Some(Arrival {
                from: at,
                label: *label,
            }),
        })?;
    }
    Ok(())
}

/// The state after one more edge.
fn along(graph: &Graph, role: Role, var: Var, label: Label, state: &WalkState) -> WalkState
    requires { label < length graph.now.edges }
    ensures state { result ≡ state_along graph.now role var label state.now }
    ensures there { result.node < length graph.now.nodes }
    ensures few { result.node < 256 }
{
    // At most 256.
    let _nodes = graph.nodes();
    WalkState {
        node: graph.edge(label).target,
        mark: mark_along(graph, role, var, label, state.mark),
    }
}

/// The mark after one more edge.
pub(crate) fn mark_along(graph: &Graph, role: Role, var: Var, label: Label, mark: Mark) -> Mark
    requires { label < length graph.now.edges }
    ensures { result ≡ mark_after (is_in var (writes graph.now label)) (learns graph.now role var label) mark }
{
    let writes = graph.edge(label).writes.has(var);
    let learnt = known_if(learns(graph, role, var, label));
    match mark {
        Mark::Unknown => learnt,
        _ => if writes { learnt } else { mark },
    }
}

fn known_if(known: bool) -> Mark
    ensures { result ≡ known_if known }
{
    if known { Mark::Known } else { Mark::Unknown }
}

/// Whether the role writes the variable along the edge, or receives it as read.
fn learns(graph: &Graph, role: Role, var: Var, label: Label) -> bool
    requires { label < length graph.now.edges }
    ensures { result ≡ learns graph.now role var label }
{
    let edge = graph.edge(label);
    graph.sender(label) == role && edge.writes.has(var)
        || graph.receiver(label) == role && edge.reads.has(var)
}
