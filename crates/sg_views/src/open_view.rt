//! Open views.
use sg_base::NodeId;
use sg_vis::View;

/// An open view: a node of another role, and what a role sees of a walk to it.
#[derive(Debug, Drop)]
pub struct OpenView {
    /// The node.
    pub node: NodeId,
    /// What the role sees.
    pub view: View,
}
