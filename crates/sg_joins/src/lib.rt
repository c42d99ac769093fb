//! The joins that the calls of a node make, and how each is added to a ledger.
//!
//! Who asks a node by calls of its own adds the join of a call by `add_join` before it writes or sends anything of the call. That the pair is in
//! the ledger already, or that the ledger is full, never happens, since the ledger has the joins of the node before each call.
#![tactic(auto)]

mod add;
mod fault;
mod join;
mod laws;

pub use add::add_join;
pub use fault::JoinFault;
pub use laws::{frames_show_their_joins, joins_of_a_node};
