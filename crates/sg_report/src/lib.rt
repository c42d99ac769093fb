//! The outcome of each step of a replay, and how it is reported.
//!
//! An `Outcome` holds what a step brought about: an event, the number of a crafted frame, or why nothing happened. What is reported of it is
//! `Reported`, the core's answer with a frame's number in place of the frame, so a report can be read against a run. No outcome says that
//! memory ran out: that is the call's error.
//!
//! A report has a line for each step, the lines of the two assumptions, and if both hold the walk of each session with an event, the
//! declared sessions in order and then the others. `report_line` is the line of a step, `put_line` appends it to what is written,
//! and `put_premises` writes the two of the assumptions.
#![tactic(auto)]

mod line;
mod outcome;
mod premises;
mod reason;

pub use line::{put_line, report_line};
pub use outcome::{Outcome, sid_reported};
pub use premises::{Forgery, put_premises};
