//! Events of a session, and stored walks.
//!
//! A stored walk is a walk from the start, with a value of its type for each variable that a step writes, or with that value hidden.
//! Whether it explains the events of a session is decided by `sg_explain`.
#![tactic(auto)]

mod event;
mod stored;

pub use event::{Event, role_of, sid_of};
pub use stored::{StoredStep, StoredWalk};
