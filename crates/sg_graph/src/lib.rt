//! Session graphs: roles, variables, nodes and edges, each kind with names of its own and numbers from 0 in the order of addition.
//!
//! A graph has at most 16 roles, 32 variables, 256 nodes and 512 edges. A session begins at node 0. One role acts at a node: it sends
//! along an edge, whose number is its label, to the role of the node that the edge leads to. With an edge goes what is written before
//! it is sent and what is read when it is received; with a variable, which roles may write it.
//!
//! What a graph must be to be compiled, such as that each node can be reached, isn't asked here: a graph is only ever whole, with names
//! that differ within each kind and with numbers that are there.
#![tactic(auto)]

mod edge;
mod graph;
mod named;
mod text;
mod walk;

pub use edge::Edge;
pub use graph::{AddFault, Graph};
pub use named::{put_label, put_label_and_var, put_node, put_role, put_var, put_walk};
pub use text::canonical_text;
pub use walk::is_walk;
