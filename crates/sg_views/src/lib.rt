//! What a role can be shown: every view of a graph that can reach it, each once, and no other.
//!
//! A role's views are those of the walks from the start that end where it acts; the views of walks that end elsewhere, each with that
//! node, are open.
//!
//! The view of a walk with one more edge depends on that edge and on the view before it alone: the item of the edge's sender goes, what it
//! brought is joined to the item after it, and the edge comes last. So all views are found by following edges from one open view to the
//! next, until none is new, in time in proportion to the open views times the edges that leave a node.
#![tactic(auto)]

mod fault;
mod finding;
mod open_view;
mod search;
mod states;
mod step;

pub use fault::ViewFault;
pub use finding::views;
pub use open_view::OpenView;
