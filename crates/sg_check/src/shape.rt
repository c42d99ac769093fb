//! The check of a graph's shape.
ghost use Rattle.std.specs.Prelude.{◌≡◌, ◌<◌, ◌↔◌, ◌++◌, ℕ, codes, length, Err, IsOk, IsTrue, MatchOption, OnOk};
ghost use Rattle.sg_protocol.specs.Accepted.{Reached};
ghost use Rattle.sg_protocol.specs.Graph.{node_name};
ghost use Rattle.sg_check.specs.FaultText.{shape_text};
ghost use Rattle.sg_check.specs.Least.{IsLeast, IsNowhere};
ghost use Rattle.sg_check.specs.Shaped.{HasShape, HasNode, IsSelfEdge, IsUnreachable, IsIdle, IsShapeFault};
ghost use Rattle.sg_check.specs.declared.shape.ShapeFault.{ShapeFault};

use sg_base::{ByteOut, Label, NodeId, OutOfMemory, Role, RoleSet};
use sg_graph::{Graph, put_label, put_node, put_role};
use sg_reach::Reach;

/// What is wrong with a graph's shape.
#[derive(Debug, Clone, Copy, PartialEq, thiserror::Error)]
pub enum ShapeFault {
    /// The least label whose sender is its receiver.
    #[error("self edge")]
    SelfEdge { label: Label },
    /// The least node that no walk from the start reaches.
    #[error("unreachable")]
    Unreachable { node: NodeId },
    /// The least role without a node.
    #[error("idle role")]
    IdleRole { role: Role },
}

impl ShapeFault {
    /// Writes the fault by the names of the graph that has it.
    pub fn put(&self, out: &mut ByteOut, graph: &Graph) -> Result<(), OutOfMemory>
        ensures { OnOk result (out.new ≡ out.old ++ shape_text graph.now self.now) }
    {
        match self {
            ShapeFault::SelfEdge { label } => {
                out.bytes(b"self edge ")?;
                put_label(out, graph, *label)
            }
            ShapeFault::Unreachable { node } => put_unreachable(out, graph, *node),
            ShapeFault::IdleRole { role } => {
                out.bytes(b"idle role ")?;
                put_role(out, graph, *role)
            }
        }
    }
}

fn put_unreachable(out: &mut ByteOut, graph: &Graph, node: NodeId) -> Result<(), OutOfMemory>
    ensures { OnOk result (out.new ≡ out.old ++ (codes "unreachable " ++ node_name graph.now node)) }
{
    out.bytes(b"unreachable ")?;
    put_node(out, graph, node)
}

/// Whether the graph's shape is right. A fault is of the first kind that the graph has, in the order of the variants. It takes no memory.
pub fn check_shape(graph: &Graph) -> Result<(), ShapeFault>
    ensures ok { IsOk result ↔ HasShape graph.now }
    ensures refused { (fault : ShapeFault) → (result ≡ Err fault) ↔ IsShapeFault graph.now fault }
{
    if let Some(label) = self_edge(graph) {
        return Err(ShapeFault::SelfEdge { label });
    }
    if let Some(node) = not_reached(graph) {
        return Err(ShapeFault::Unreachable { node });
    }
    if let Some(role) = idle_role(graph) {
        return Err(ShapeFault::IdleRole { role });
    }
    Ok(())
}

// The least label whose sender is its receiver.
fn self_edge(graph: &Graph) -> Option<Label>
    ensures { MatchOption result (IsNowhere (IsSelfEdge graph.now)) (IsLeast (IsSelfEdge graph.now)) }
{
    for number in 0..graph.edges() {
        let label = Label(number);
        if graph.sender(label) == graph.receiver(label) {
            return Some(label);
        }
    }
    None
}

// The least node that no walk from the start reaches.
fn not_reached(graph: &Graph) -> Option<NodeId>
    ensures { MatchOption result ((n : ℕ) → n < length graph.now.nodes → Reached graph.now n) (IsLeast (IsUnreachable graph.now)) }
{
    if graph.nodes() == 0 {
        return None;
    }
    let reach = Reach::new(graph, NodeId(0), RoleSet::empty());
    for number in 0..graph.nodes() {
        let node = NodeId(number);
        if !reach.has(node) {
            return Some(node);
        }
    }
    None
}

// The least role without a node.
fn idle_role(graph: &Graph) -> Option<Role>
    ensures { MatchOption result ((r : ℕ) → r < length graph.now.roles → HasNode graph.now r) (IsLeast (IsIdle graph.now)) }
{
    for number in 0..graph.roles() {
        let role = Role(number);
        if !has_node(graph, role) {
            return Some(role);
        }
    }
    None
}

// Whether a node has the role.
fn has_node(graph: &Graph, role: Role) -> bool
    ensures { IsTrue result ↔ HasNode graph.now role }
{
    for number in 0..graph.nodes() {
        if graph.node_role(NodeId(number)) == role {
            return true;
        }
    }
    false
}
