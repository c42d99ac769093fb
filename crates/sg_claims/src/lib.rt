//! Claims: what a graph promises of the order of messages, and whether it keeps it.
//!
//! A claim speaks of each walk of the graph from its start. *A needs B since C*: wherever a label of A stands on the walk, a label of B
//! stands before it, and no label of C between the two. *B bars A until C*: wherever a label of A stands, each label of B that stands
//! before it is followed, before that of A, by a label of C. What stands at the two positions themselves is not between, so a label in both
//! B and C counts as one of B.
//!
//! `decide` goes through the nodes of the graph, each with one bit: whether a label of B stands on the walk since the last one of C. It
//! comes to each of them once, so it takes time proportional to the edges of the graph, whatever its loops. If the claim fails it gives
//! the first of the shortest walks that break it.
//!
//! `suggest` gives claims that hold: of each label that it needs its nearest dominator, and that no walk has it twice. The same search, once
//! for each label, says which labels dominate which.
#![tactic(auto)]

mod claim;
mod decision;
mod dominators;
mod label_set;
mod search;
mod suggestion;

pub use claim::{Claim, ClaimKind, NamedClaim};
pub use decision::{Answer, decide};
pub use label_set::LabelSet;
pub use suggestion::{one_nearest, suggest};
