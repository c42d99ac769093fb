//! Schedules, read from a text in one pass.
//!
//! `read_schedule` gives the schedule that the bytes spell, or the first wrong line from the top and what is wrong with it; `OutOfMemory` is
//! an error of its own. What bytes spell stands in `sg_sched`, in `specs/Format`: the forms of the lines, what each of them adds, and which
//! line is the first wrong one.
//!
//! A text is read line by line, and block by block. A line is tested in the order of the format: its form, whether there are too many, names
//! that aren't declared, what is declared twice, and whether the principal is honest. What the lines declare is kept in tables, so a line costs
//! the same however many stand before it: graphs and sessions are found by their names, sessions also by what no two of them have in common,
//! pairs of principals in both orders.
//!
//! A block ends at its first line `}`. Its text is read by `sg_parse`, and its fault is reported at that line. One fault is reported at an earlier
//! line than that at which it shows: a block of a graph named `pair` after edge lines is the fault of the first edge line.
//!
//! `laws` says what holds of all bytes: they spell one schedule at most, have one first wrong line at most, and none if they spell a
//! schedule. So an answer that isn't `OutOfMemory` is the only one that the bytes allow. What bytes spell is a schedule as the protocol has
//! them, so each law about runs holds of what is read.
#![tactic(auto)]

mod block;
mod blocks;
mod craft;
mod crafts;
mod declarations;
mod declare;
pub mod laws;
mod length;
mod read;
mod reader;
mod rising;
mod sessions;
mod steps;
mod stop;
mod take;
mod values;
mod whole;

pub use read::read_schedule;
pub use values::{differ, known_values};
