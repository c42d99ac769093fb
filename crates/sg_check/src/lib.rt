//! Two checks of a graph: its shape, and whether a node blinds two roles.
//!
//! The shape is right if no edge leads between nodes of one role, each node can be reached from the start, and each role has a node.
//! A node blinds two other roles if one walk from it comes to a node of the first role, another one to a node of the second, and
//! neither passes a node of the two before: the two could go on at once, each on its own walk.
//!
//! A refusal names the first kind of fault that the graph has and the least position of it; that of a blinding has two such walks.
#![tactic(auto)]

mod blinding;
mod shape;

pub use blinding::{BlindFault, check_blinding};
pub use shape::{ShapeFault, check_shape};
