//! What becomes of a role that sends a step.
use crate::{Await, Done};
use sg_base::Sealed;
use sg_walk::Event;

/// What becomes of a role that sends a step, with what it did and the frame that it made, which must be spent.
pub enum Sent<'p> {
    /// It waits for its next turn.
    Waiting(Await<'p>, Event, Sealed),
    /// No walk leads to a node of the role, so its part has ended.
    Ended(Done, Event, Sealed),
}
