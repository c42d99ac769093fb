//! Input by lines.
//!
//! [`Input`] says what is asked of an object where bytes come in; [`MemInput`] is one in memory, and [`StdInput`] one over a reader of the
//! system. [`LineReader`] gives the lines of an input, one at each call. A line is a run of bytes up to a line feed, without it;
//! [`lines_are_runs`] says so. A line of more than 262,144 bytes is reported as too long, and is read over. Bytes behind the last line feed
//! are no line.
//!
//! All room of a reader is made when it is made. What is read beyond a line is kept for the next one. No byte is looked at twice for
//! a line feed, and none is moved more than once, so that the work is in proportion to the bytes, however they are cut.
#![tactic(auto)]

mod input;
mod laws;
mod memory;
mod reader;
mod system;

pub use input::Input;
pub use laws::lines_are_runs;
pub use memory::MemInput;
pub use reader::{InputFault, LineFound, LineReader};
pub use system::StdInput;
