//! The search for all states, and the walk to each.
ghost use Rattle.std.specs.Prelude.{◌≡◌, ℕ, ◌+◌, ◌<◌, ◌≤◌, [], length, slice_get, IfErr, IfOk, IfSome, OnErr, OnOk};
ghost use Rattle.sg_model.specs.Limits.{most_open_views};
ghost use Rattle.sg_model.specs.Shape.{source};
ghost use Rattle.sg_protocol.specs.Graph.{Graph, shape};
ghost use Rattle.sg_views.specs.Limits.{Explains};
ghost use Rattle.sg_views.specs.Search.{AllFound, Arrives, Extends, Followed, LeadBack, LeadsInto, Searched, next_state, nothing, open_states};
ghost use Rattle.sg_views.specs.Steps.{HasLabels};

use crate::ViewFault;
use crate::states::{State, States};
use crate::step::next_view;
use sg_base::{Label, NodeId, OutOfMemory, Role, Seq};
use sg_graph::Graph;
use sg_vis::{Origin, View};
use std::alloc::Global;

const MOST_OPEN: usize = 65_536;

/// All states that walks from the start lead to. Among them are all open views.
pub(crate) fn all_states(alloc: Global, graph: &Graph, role: Role) -> Result<States, ViewFault>
    ensures found { IfOk result (AllFound graph.now role) }
    ensures refused { IfErr result (Explains graph.now role) }
{
    let mut states = first_state(alloc, graph)?;
    let mut at = 0;
    while at < states.len() {
        follow(alloc, graph, role, &mut states, at)?;
        at += 1;
    }
    Ok(states)
}

// The start, where nothing is seen.
fn first_state(alloc: Global, graph: &Graph) -> Result<States, ViewFault>
    ensures searched { (r : ℕ) → IfOk result (Searched graph.now r) }
    ensures few { IfOk result (λ states. length (open_states states) ≤ most_open_views) }
    ensures refused { IfErr result (λ e. e ≡ ViewFault.OutOfMemory) }
{
    // A graph's numbers are there, whatever is asked of it.
    let _nodes = graph.nodes();
    let mut states = States::new(alloc);
    let start = State {
        node: NodeId(0),
        view: nothing(alloc),
        before: 0,
        label: Label(0),
    };
    match states.add(start) {
        Ok(()) => Ok(states),
        Err(_) => Err(ViewFault::OutOfMemory),
    }
}

// What is seen before the first step.
fn nothing(alloc: Global) -> View
    ensures { result ≡ nothing }
{
    View {
        from: Origin::Start,
        items: Seq::new(alloc),
    }
}

// Follows each edge that leaves the node of a state.
fn follow(
    alloc: Global,
    graph: &Graph,
    role: Role,
    states: &mut States,
    at: usize,
) -> Result<(), ViewFault>
    requires there { at < length states.old }
    requires searched { Searched graph.now role states.old }
    requires few { length (open_states states.old) ≤ most_open_views }
    ensures searched { OnOk result (Searched graph.now role states.new) }
    ensures few { OnOk result (length (open_states states.new) ≤ most_open_views) }
    ensures extends { OnOk result (Extends states.old states.new) }
    ensures followed { OnOk result (IfSome (slice_get states.old at) (Followed graph.now role states.new)) }
    ensures refused { IfErr result (Explains graph.now role) }
{
    let node = states.get(at).node;
    for label in graph.edges_from(node) {
        follow_edge(alloc, graph, role, states, at, *label)?;
    }
    Ok(())
}

// Adds the state that an edge leads to, if it is new.
fn follow_edge(
    alloc: Global,
    graph: &Graph,
    role: Role,
    states: &mut States,
    at: usize,
    label: Label,
) -> Result<(), ViewFault>
    requires there { at < length states.old }
    requires label { label < length graph.now.edges }
    requires source { IfSome (slice_get states.old at) (λ p. source (shape graph.now) label ≡ p.node) }
    requires searched { Searched graph.now role states.old }
    requires few { length (open_states states.old) ≤ most_open_views }
    ensures searched { OnOk result (Searched graph.now role states.new) }
    ensures few { OnOk result (length (open_states states.new) ≤ most_open_views) }
    ensures extends { OnOk result (Extends states.old states.new) }
    ensures leads { OnOk result (IfSome (slice_get states.old at) (λ p. LeadsInto graph.now role states.new p label)) }
    ensures refused { IfErr result (Explains graph.now role) }
{
    let Ok(next) = next_state(alloc, graph, role, states.get(at), at, label) else {
        return Err(ViewFault::OutOfMemory);
    };
    let Ok(()) = states.add(next) else {
        return Err(ViewFault::OutOfMemory);
    };
    check_open(states)
}

// Refuses more open views than there may be, of which there is at most one more.
fn check_open(states: &States) -> Result<(), ViewFault>
    ensures few { OnOk result (length (open_states states.now) ≤ most_open_views) }
    ensures refused { (g : Graph) (r : ℕ) → Searched g r states.now → length (open_states states.now) ≤ 65537 → IfErr result (Explains g r) }
{
    if states.open() <= MOST_OPEN {
        return Ok(());
    }
    match states.open_views() {
        Ok(list) => Err(ViewFault::TooManyOpen { list }),
        Err(_) => Err(ViewFault::OutOfMemory),
    }
}

// The state that an edge leads to.
fn next_state(
    alloc: Global,
    graph: &Graph,
    role: Role,
    state: &State,
    at: usize,
    label: Label,
) -> Result<State, OutOfMemory>
    requires label { label < length graph.now.edges }
    requires labels { HasLabels graph.now state.now.view }
    ensures { IfOk result (λ p. p ≡ next_state graph.now role state.now at label) }
{
    let node = graph.edge(label).target;
    let view = if graph.node_role(node) == role {
        nothing(alloc)
    } else {
        next_view(alloc, graph, role, &state.view, label)?
    };
    Ok(State {
        node,
        view,
        before: at,
        label,
    })
}

/// A walk from the start to a state.
pub(crate) fn walk_to(alloc: Global, states: &States, at: usize) -> Result<Vec<Label>, OutOfMemory>
    requires there { at < length states.now }
    requires back { LeadBack states.now }
    ensures { (g : Graph) (r : ℕ) → Searched g r states.now →
        IfOk result (λ walk. IfSome (slice_get states.now at) (λ p. Arrives g r p walk.items)) }
{
    let mut labels = Vec::new(alloc);
    let mut index = at;
    while index > 0 {
        let last = states.get(index);
        labels.push(last.label)?;
        index = last.before;
    }
    labels.reverse();
    Ok(labels)
}
