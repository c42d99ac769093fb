//! Logs of principals, checked afterwards.
//!
//! After a run each principal has its own log of what it sent and received. `read_logs` reads a graph and the logs of its sessions from a
//! text; `audit` says of a session whether its logs agree with one walk of the graph: yes, with the walk; or the least time that two logs
//! claim for themselves; or no.
//!
//! The events of all logs are put in one order, by time, and what was sent before what was received at equal times. The logs agree with a
//! walk if no time clashes, the order keeps each log's own, and the events are what the roles with a log send and receive along the
//! walk, except perhaps for a last receipt. Roles with a log count as honest, also with an empty one. If each role has a log any walk
//! will do, and the sends make the only one that can; if a role has none, the walk is given in the text, with its steps filled in.
//!
//! A text is a block `graph {` .. `}`, and then for each session these lines; blank ones and comments are skipped:
//!
//! | line | says |
//! |---|---|
//! | `session NAME` | a session begins |
//! | `log ROLE` | the log of a role begins |
//! | `sent LABEL TIME VAR=VALUE ..` | the role sent; with `received`, it received |
//! | `walk STEP ..` | the walk that is given, exactly if a role has no log |
//!
//! `specs/Spells.antt` says which logs bytes spell, and which line of others is wrong first. What is read is spelled, what is spelled is
//! read, and a refusal reports the first wrong line and its kind, exactly. The text is read in one pass; the merged order takes a time of
//! n log n in the events. `laws` says that bytes spell the logs of one run at most, or have one first fault.
#![tactic(auto)]

mod answer;
mod assignments;
mod copy;
mod explain;
mod fault;
pub mod laws;
mod line;
mod lines;
mod merge;
mod order;
mod read;
mod reader;
mod roles;
mod sent;
mod session;
mod step;

pub use answer::Audit;
pub use explain::audit;
pub use fault::LogFault;
pub use read::read_logs;
pub use roles::roles_of;
pub use session::{Logs, SessionLog};
