//! What is wrong with a log file.
ghost use Rattle.std.specs.Prelude.{◌≡◌};

use sg_base::OutOfMemory;
use sg_parse::ParseFault;
use thiserror::Error;

/// Why bytes were not read as logs: the first wrong line from the top, lines counted from 1, or the graph text.
#[derive(Debug, Clone, Copy, PartialEq, Eq, Error)]
pub enum LogFault {
    /// The line is in no form, out of its place or out of a range; or a block isn't closed, at its last line; or the line that must
    /// stand here is missing.
    #[error("line {line} form")]
    Form { line: u32 },
    /// The line names a role, a label or a variable that the graph doesn't have.
    #[error("line {line} unknown")]
    Unknown { line: u32 },
    /// The line declares a session or the log of a role again, or names a variable twice.
    #[error("line {line} twice")]
    Twice { line: u32 },
    /// The graph text is refused.
    #[error("{fault}")]
    Graph { fault: ParseFault },
    /// There is an event 100,001.
    #[error("too many events")]
    TooManyEvents,
    /// Out of memory.
    #[error("out of memory")]
    OutOfMemory,
}

// What can be wrong with a line.
#[derive(Clone, Copy)]
pub(crate) enum Mistake {
    Form,
    TooManyEvents,
    Unknown,
    Twice,
}

// Why a line wasn't taken.
#[derive(Clone, Copy)]
pub(crate) enum Stop {
    Wrong(Mistake),
    OutOfMemory,
}

impl From<OutOfMemory> for Stop {
    fn from(_: OutOfMemory) -> Stop
        ensures { result ≡ Stop.OutOfMemory }
    {
        Stop::OutOfMemory
    }
}
