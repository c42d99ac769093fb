//! Which nodes of a graph can be reached from a node by walks that pass no node of some roles, with a walk to each.
//!
//! A walk from a node passes each node before its end. `Reach::new` finds the closure of a node and a set of roles, the nodes at which a
//! walk from the node ends that passes no node of these roles, in time proportional to the edges that it follows. For each node the
//! closure says whether the node is in it, and gives such a walk.
//!
//! Only the walks that are returned take memory.
#![tactic(auto)]

mod reach;
mod search;

pub use reach::Reach;
