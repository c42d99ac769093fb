//! Walks.
ghost use Rattle.std.specs.Prelude.{◌<◌, ◌↔◌, length, map, IsTrue};
ghost use Rattle.sg_model.specs.Shape.{Walk};
ghost use Rattle.sg_protocol.specs.Graph.{shape};

use crate::Graph;
use sg_base::{Label, NodeId};

/// Whether the labels are a walk from a node: the first edge leaves it, and each other one leaves the target of the one before. No
/// labels are a walk, and a label that no edge has is in none. It takes no memory.
pub fn is_walk(graph: &Graph, from: NodeId, labels: &[Label]) -> bool
    requires { from < length graph.now.nodes }
    ensures { IsTrue result ↔ Walk (shape graph.now) from labels.now }
{
    let mut at = from;
    for label in labels {
        if label.0 >= graph.edges() {
            return false;
        }
        let edge = graph.edge(*label);
        if edge.source != at {
            return false;
        }
        at = edge.target;
    }
    true
}
