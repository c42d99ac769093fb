//! Who must be able to check a step later.
//!
//! The targets of an edge are the roles, other than its sender and its receiver, to which a walk leads from its end past no node of the
//! sender's role or of their own: it is their turn before the sender has acted again. A sender makes a tag for each.
#![tactic(auto)]

mod plan;

pub use plan::targets;
