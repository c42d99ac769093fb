//! Requests: what a line of input asks one principal to do, read exactly.
//!
//! | line | asks |
//! |---|---|
//! | `start GRAPH VERSION NAME,..,NAME` | to begin a session of the graph, its frames of version `1` or `2`, with 2 to 16 principals in the order of the roles |
//! | `act sN LABEL VAR=VALUE ..` | to send along the label and write the values, in any order |
//! | `abandon sN` | to leave the session |
//! | `recv` or `recv MS` | for the next delivery, for which it waits at most so many milliseconds, from 0 to 86,400,000 |
//! | `again sN` | to send the last frame of the session once more |
//! | `turn sN` | what can be done in the session |
//! | `id sN` | for the session's identifier |
//! | `quit` | for the end |
//!
//! `sN` is the session that began as number N here, from 1 to 4,294,967,295. Words are parted by spaces, which may lead, trail and repeat, and
//! a carriage return at the end of the line is dropped. Words, names and values are those of schedules (`sg_sched`), and numbers have no
//! needless zero. A line that is of none of these forms asks for nothing.
//!
//! What a line asks for stands in `specs/Request`. Values stay as they are written, since the session's graph says of which type they are, and
//! names stay names: whether there is such a graph, session, label or variable is not asked here. Each byte is read once, or twice if a
//! value is tested and then kept.
#![tactic(auto)]

pub mod laws;
mod read;
mod request;

pub use read::read_request;
pub use request::Request;
