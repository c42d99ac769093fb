//! Edges.
use sg_base::{Label, NodeId, VarSet};

/// An edge of a graph, with its number as its label. The role at its source sends and writes variables, the role at its target receives
/// and reads variables.
#[derive(Debug, Clone, Copy)]
pub struct Edge {
    /// Its number.
    pub label: Label,
    /// The node of the role that sends.
    pub source: NodeId,
    /// The node of the role that receives.
    pub target: NodeId,
    /// The variables that the sender writes.
    pub writes: VarSet,
    /// The variables that the receiver reads.
    pub reads: VarSet,
}
