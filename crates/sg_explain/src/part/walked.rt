//! Whether the steps are a walk with values.
ghost use Rattle.std.specs.Prelude.{◌≡◌, ◌<◌, ◌↔◌, length, IsTrue, map, nat_lt, true, option_map, MatchOption};
ghost use Rattle.sg_base.specs.Model.{value_of};
ghost use Rattle.std.specs.List.{list_all};
ghost use Rattle.sg_protocol.specs.Walk.{IsStoredWalk, IsStoredStep, is_typed_or_hidden};
ghost use Rattle.sg_model.specs.Shape.{target};
ghost use Rattle.sg_protocol.specs.Graph.{shape};
ghost use Rattle.sg_explain.specs.Matching.{Follows};
ghost use Rattle.sg_walk.specs.Model.{writes_of, steps_of, step_of};

use super::pairs::{edge_of, has_keys};
use sg_base::{NodeId, Value, Var};
use sg_graph::Graph;
use sg_walk::{StoredStep, StoredWalk};

/// Whether the steps are a walk from the start, each of which gives what its edge writes a value of its type or hides it.
pub(super) fn is_stored_walk(graph: &Graph, walk: &StoredWalk) -> bool
    ensures { IsTrue result ↔ IsStoredWalk graph.now (steps_of walk.now) }
{
    let steps = walk.steps.as_slice();
    let mut at = NodeId(0);
    for step in steps {
        let Some(next) = end_of_step(graph, at, step) else {
            return false;
        };
        at = next;
    }
    true
}

/// The node that the step leads to, if it leaves this node and has values.
fn end_of_step(graph: &Graph, at: NodeId, step: &StoredStep) -> Option<NodeId>
    ensures { MatchOption result (Follows graph.now at (step_of step.now) → ⊥)
        (λ n. Follows graph.now at (step_of step.now) × (n ≡ target (shape graph.now) step.now.label)) }
{
    if step.label.0 >= graph.edges() {
        return None;
    }
    let edge = edge_of(graph, step.label);
    if edge.source == at && is_stored_step(graph, step) {
        Some(edge.target)
    } else {
        None
    }
}

fn is_stored_step(graph: &Graph, step: &StoredStep) -> bool
    requires { step.now.label < length graph.now.edges }
    ensures { IsTrue result ↔ IsStoredStep graph.now (step_of step.now) }
{
    let writes = step.writes.as_slice();
    let _sets = graph.edge(step.label);
    has_keys(edge_of(graph, step.label).writes, writes) && are_typed(graph, writes)
}

fn are_typed(graph: &Graph, writes: &[(Var, Option<Value>)]) -> bool
    requires { list_all (λ x. nat_lt x (length graph.now.variables)) (map (λ w. w.0) writes.now) ≡ true }
    ensures { result ≡ list_all (is_typed_or_hidden graph.now) (writes_of writes.now) }
{
    for write in writes {
        if !is_typed(graph, write.0, &write.1) {
            return false;
        }
    }
    true
}

fn is_typed(graph: &Graph, var: Var, value: &Option<Value>) -> bool
    requires { var < length graph.now.variables }
    ensures { result ≡ is_typed_or_hidden graph.now (var, option_map value_of value.now) }
{
    match value {
        Some(value) => value.kind() == graph.var_type(var),
        None => true,
    }
}
