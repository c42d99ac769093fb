//! The first read of what its sender doesn't know.
ghost use Rattle.std.specs.Prelude.{◌≡◌, ◌<◌, ℕ, length, IsTrue, IfOk, MatchOption};
ghost use Rattle.sg_model.specs.Lists.{is_in};
ghost use Rattle.sg_model.specs.Shape.{sender};
ghost use Rattle.sg_protocol.specs.Graph.{reads, shape};
ghost use Rattle.sg_know.specs.Reads.{HasBadRead};
ghost use Rattle.sg_know.specs.Parts.{IsBadOf, IsBadOfVar, IsFirstBad, earlier, is_up_to};
ghost use Rattle.sg_know.specs.States.{IsClosure, IsFirstUnknown, IsUnknownAfter, IsUnknownRead, is_known, state_at};

use crate::closure::{closure, mark_along};
use crate::states::{Mark, States, WalkState};
use sg_base::{Label, OutOfMemory, Role, RoleSet, Seq, Var};
use sg_graph::Graph;
use std::alloc::Global;

/// A read on a walk from the start that its sender doesn't know. The walk ends with the label.
#[derive(Drop)]
pub(crate) struct BadRead {
    pub label: Label,
    pub var: Var,
    pub walk: Seq<Label>,
}

/// The bad read of the least label, and of the least variable with it.
pub(crate) fn first_bad_read(alloc: Global, graph: &Graph) -> Result<Option<BadRead>, OutOfMemory>
    ensures { IfOk result (IsFirstBad graph.now (HasBadRead graph.now)) }
{
    if graph.nodes() == 0 {
        return Ok(None);
    }
    let mut first = None;
    for number in 0..graph.vars() {
        let found = bad_read_of_var(alloc, graph, Var(number))?;
        first = earlier(first, found);
    }
    Ok(first)
}

/// The bad read of a variable with the least label.
fn bad_read_of_var(alloc: Global, graph: &Graph, var: Var) -> Result<Option<BadRead>, OutOfMemory>
    requires start { 0 < length graph.now.nodes }
    ensures { IfOk result (IsFirstBad graph.now (IsBadOfVar graph.now var)) }
{
    let senders = senders_of(graph, var);
    let mut first = None;
    for number in 0..graph.roles() {
        let role = Role(number);
        if senders.has(role) {
            let found = bad_read_of(alloc, graph, role, var)?;
            first = earlier(first, found);
        }
    }
    Ok(first)
}

/// The roles that send along an edge that reads the variable.
fn senders_of(graph: &Graph, var: Var) -> RoleSet
    ensures { (e : ℕ) → IsTrue (is_in var (reads graph.now e)) → IsTrue (is_in (sender (shape graph.now) e) result) × (sender (shape graph.now) e < length graph.now.roles) }
{
    let mut senders = RoleSet::empty();
    for number in 0..graph.edges() {
        let label = Label(number);
        if graph.edge(label).reads.has(var) {
            senders = senders.with(graph.sender(label));
        }
    }
    senders
}

/// The one of the lesser position, the first if both have one position.
fn earlier(one: Option<BadRead>, other: Option<BadRead>) -> Option<BadRead>
    ensures { result ≡ earlier one other }
{
    match (one, other) {
        (Some(one), Some(other)) => if is_up_to(&one, &other) {
            Some(one)
        } else {
            Some(other)
        },
        (Some(one), None) => Some(one),
        (None, other) => other,
    }
}

fn is_up_to(one: &BadRead, other: &BadRead) -> bool
    ensures { result ≡ is_up_to one.now other.now }
{
    one.label.0 < other.label.0 || one.label == other.label && one.var.0 <= other.var.0
}

/// The bad read of a variable by a role with the least label.
fn bad_read_of(
    alloc: Global,
    graph: &Graph,
    role: Role,
    var: Var,
) -> Result<Option<BadRead>, OutOfMemory>
    requires start { 0 < length graph.now.nodes }
    ensures { IfOk result (IsFirstBad graph.now (IsBadOf graph.now role var)) }
{
    let states = closure(alloc, graph, role, var)?;
    let Some(unknown) = first_unknown(graph, &states, role, var) else {
        return Ok(None);
    };
    let mut walk = states.path(alloc, unknown.index)?;
    walk.push(unknown.label)?;
    Ok(Some(BadRead {
        label: unknown.label,
        var,
        walk: Seq::from_vec(walk),
    }))
}

/// The label of a read that isn't known, and the index of the state from which its edge leads.
#[derive(Clone, Copy)]
struct UnknownRead {
    label: Label,
    index: usize,
}

/// The read of the variable by the role that has the least label among those that the role doesn't know.
fn first_unknown(graph: &Graph, states: &States, role: Role, var: Var) -> Option<UnknownRead>
    ensures { IsFirstUnknown graph.now role var states.now result }
{
    for number in 0..graph.edges() {
        let label = Label(number);
        if let Some(index) = unknown_read(graph, states, role, var, label) {
            return Some(UnknownRead { label, index });
        }
    }
    None
}

/// The index of a state from which the role sends along the edge, which reads the variable, and doesn't know it then.
fn unknown_read(graph: &Graph, states: &States, role: Role, var: Var, label: Label) -> Option<usize>
    requires { label < length graph.now.edges }
    ensures { MatchOption result ((i : ℕ) → IsUnknownRead graph.now role var states.now label i → ⊥) (IsUnknownRead graph.now role var states.now label) }
{
    if graph.sender(label) != role || !graph.edge(label).reads.has(var) {
        return None;
    }
    unknown_after(graph, states, role, var, label)
}

/// The index of a state at the edge's source after which, along the edge, the role doesn't know the variable.
fn unknown_after(
    graph: &Graph,
    states: &States,
    role: Role,
    var: Var,
    label: Label,
) -> Option<usize>
    requires { label < length graph.now.edges }
    ensures { MatchOption result ((i : ℕ) → IsUnknownAfter graph.now role var states.now label i → ⊥) (IsUnknownAfter graph.now role var states.now label) }
{
    for mark in [Mark::Unwritten, Mark::Unknown, Mark::Known] {
        if let Some(index) = unknown_after_mark(graph, states, role, var, label, mark) {
            return Some(index);
        }
    }
    None
}

/// The index of such a state with this mark.
fn unknown_after_mark(
    graph: &Graph,
    states: &States,
    role: Role,
    var: Var,
    label: Label,
    mark: Mark,
) -> Option<usize>
    requires { label < length graph.now.edges }
    ensures { MatchOption result ((i : ℕ) → IsUnknownAfter graph.now role var states.now label i → (state_at states.now i).mark ≡ mark → ⊥) (IsUnknownAfter graph.now role var states.now label) }
{
    // At most 256.
    let _nodes = graph.nodes();
    if is_known(mark_along(graph, role, var, label, mark)) {
        return None;
    }
    states.find(&WalkState {
        node: graph.edge(label).source,
        mark,
    })
}

fn is_known(mark: Mark) -> bool
    ensures { result ≡ is_known mark }
{
    matches!(mark, Mark::Known)
}
