//! What a line asks for.
use sg_base::{Name, Seq};
use sg_sched::Assignment;

/// What a line asks for. A session is its number here, from 1.
#[derive(Drop)]
pub enum Request<'a> {
    /// To begin a session.
    Start {
        /// The name of its graph.
        graph: Name,
        /// The version of its frames, 1 or 2.
        version: u8,
        /// Its principals, 2 to 16, in the order of the roles; one may stand twice.
        names: Seq<Name>,
    },
    /// To act in a session.
    Act {
        /// The session's number.
        session: u32,
        /// The name of the label.
        label: Name,
        /// What is written, in the order of the line, each value as it is written there.
        values: Seq<Assignment<'a>>,
    },
    /// To leave the session of this number.
    Abandon(u32),
    /// For the next delivery, for which it waits at most so many milliseconds, up to 86,400,000, or as long as it takes.
    Receive(Option<u32>),
    /// To send once more the last frame of the session of this number.
    Again(u32),
    /// What can be done in the session of this number.
    Turn(u32),
    /// For the identifier of the session of this number.
    Id(u32),
    /// For the end.
    Quit,
}
