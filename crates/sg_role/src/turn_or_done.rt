//! What becomes of a role that waits and accepts a frame.
use crate::Turn;

/// The end of a role's part in a session.
#[derive(Drop)]
pub struct Done(pub(crate) ());

/// What becomes of a role that waits and accepts a frame.
#[derive(Drop)]
pub enum TurnOrDone<'p> {
    /// It is its turn.
    Turn(Turn<'p>),
    /// No edge leaves the node, so the session has ended.
    Done(Done),
}
