//! The end of a graph that can be used.
ghost use Rattle.std.specs.Prelude.{◌≡◌, ℕ, ◌<◌, ◌==◌, ◌&&◌, false, true, length, get_or, set};
ghost use Rattle.std.specs.List.{list_any};
ghost use Rattle.sg_graph.specs.Parts.{edge_at};
ghost use Rattle.sg_compose.specs.Expansion.{end_of, finals, is_entered, sole};

use sg_base::{Label, NodeId};
use sg_graph::Graph;

// The end, if the graph can be used. One pass over its nodes and edges.
pub fn end_of(inner: &Graph) -> Option<NodeId>
    ensures { result ≡ end_of inner.now }
{
    if is_entered(inner) {
        return None;
    }
    sole_final(inner, &nodes_left(inner))
}

// An edge enters the start.
fn is_entered(inner: &Graph) -> bool
    ensures { result ≡ is_entered inner.now }
{
    for number in 0..inner.edges() {
        if enters_start(inner, Label(number)) {
            return true;
        }
    }
    false
}

// For each node whether an edge leaves it.
fn nodes_left(inner: &Graph) -> [bool; 256]
    ensures { (n : ℕ) → n < 256 → get_or result n false ≡ list_any (λ e. e.source == n) inner.now.edges }
{
    let mut left = [false; 256];
    for number in 0..inner.edges() {
        mark(&mut left, source_of(inner, Label(number)));
    }
    left
}

// The edge enters the start.
fn enters_start(inner: &Graph, label: Label) -> bool
    requires { label < length inner.now.edges }
    ensures { result ≡ ((edge_at inner.now label).target == 0) }
{
    let target = target_of(inner, label);
    target.0 == 0
}

// The node that an edge leads to.
#[tactic(auto, using(crate::proofs::Ends::target_at))]
fn target_of(inner: &Graph, label: Label) -> NodeId
    requires { label < length inner.now.edges }
    ensures { result ≡ (edge_at inner.now label).target }
{
    inner.edge(label).target
}

// The node that an edge leaves.
#[tactic(auto, using(crate::proofs::Ends::source_at))]
fn source_of(inner: &Graph, label: Label) -> NodeId
    requires { label < length inner.now.edges }
    ensures source { result ≡ (edge_at inner.now label).source }
    ensures few { result < 256 }
{
    // A graph has at most 256 nodes.
    let _count = inner.nodes();
    inner.edge(label).source
}

// Marks a node.
fn mark(left: &mut [bool; 256], node: NodeId)
    requires { node < 256 }
    ensures { left.new ≡ set left.old node true }
{
    left[node.0 as usize] = true;
}

// The one node that no edge leaves, if it isn't the start.
fn sole_final(inner: &Graph, left: &[bool; 256]) -> Option<NodeId>
    requires { (n : ℕ) → n < 256 → get_or left.now n false ≡ list_any (λ e. e.source == n) inner.now.edges }
    ensures { result ≡ sole (finals inner.now) }
{
    let mut count = 0u16;
    let mut last = 0u16;
    for number in 0..inner.nodes() {
        if !left[number as usize] {
            count += 1;
            last = number;
        }
    }
    if count == 1 && last != 0 {
        return Some(NodeId(last));
    }
    None
}
