//! What each role knows where it sends: whether a graph's edges write and read variables as they may.
//!
//! Only a variable's writing roles write it, and a variable's only writing role never receives it as read. What an edge reads, its
//! sender knows on each walk from the start that ends with this edge: the variable was written, and at or after its last write there is
//! a step along which the sender wrote it or received it as read. The last edge counts for its own writes.
//!
//! Of one variable and one role a walk gives where it ends and one of three marks: the variable was not written, or the role doesn't
//! know it, or the role knows it. So the states that walks lead to are few, and each is found once.
#![tactic(auto)]

mod bad;
mod closure;
mod fault;
mod reads;
mod states;

pub use fault::ReadFault;
pub use reads::check_reads;
