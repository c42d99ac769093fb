//! Graphs within graphs: uses of parts expanded to one graph.
//!
//! A part is put into a graph between two nodes: its start is one of them, and its end, the one node that no edge leaves, is the other.
//! A role of the graph plays each of its roles. Its other nodes, its variables and its edges are added after all that is there, with
//! the use's name and `_` in front of their own names. Parts are put in as they are expanded, so a part that is used may use parts.
//!
//! The walks of the expansion are those of the graph, with walks of the parts for their uses.
#![tactic(auto)]

mod add;
mod end;
mod expansion;
mod fault;
mod fit;
mod laws;
mod rename;

pub use expansion::expand;
pub use fault::ComposeFault;
pub use laws::expansions_keep_walks;
