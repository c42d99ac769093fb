//! The targets of a graph's edges.
ghost use Rattle.std.specs.Prelude.{◌<◌, ◌↔◌, ℕ, length, IfOk, IsTrue};
ghost use Rattle.sg_model.specs.Lists.{is_in};
ghost use Rattle.sg_protocol.specs.Graph.{AreNumbers, shape};
ghost use Rattle.sg_protocol.specs.Targets.{IsTarget, IsTargetTable};

use sg_base::{Label, OutOfMemory, Role, RoleSet, Seq};
use sg_graph::Graph;
use sg_program::TargetTable;
use sg_reach::Reach;
use std::alloc::Global;

/// The targets of each edge of the graph. It takes memory for the table.
pub fn targets(alloc: Global, graph: &Graph) -> Result<TargetTable, OutOfMemory>
    ensures { IfOk result (IsTargetTable graph.now) }
{
    let mut sets = Vec::new(alloc);
    for number in 0..graph.edges() {
        sets.push(targets_of(graph, Label(number)))?;
    }
    Ok(TargetTable::from_sets(Seq::from_vec(sets)))
}

// The targets of an edge.
fn targets_of(graph: &Graph, label: Label) -> RoleSet
    requires { label < length graph.now.edges }
    ensures rising { AreNumbers (length graph.now.roles) result }
    ensures each { (t : ℕ) → t < length graph.now.roles → IsTrue (is_in t result) ↔ IsTarget (shape graph.now) label t }
{
    let mut set = RoleSet::empty();
    for number in 0..graph.roles() {
        let role = Role(number);
        if is_target(graph, label, role) {
            set = set.with(role);
        }
    }
    set
}

// Whether the role is a target of an edge.
fn is_target(graph: &Graph, label: Label, role: Role) -> bool
    requires label { label < length graph.now.edges }
    requires role { role < length graph.now.roles }
    ensures { IsTrue result ↔ IsTarget (shape graph.now) label role }
{
    // At most 16.
    let _roles = graph.roles();
    let sender = graph.sender(label);
    if role == sender || role == graph.receiver(label) {
        return false;
    }
    let past = RoleSet::empty().with(role).with(sender);
    Reach::new(graph, graph.edge(label).target, past)
        .first_of(role)
        .is_some()
}
