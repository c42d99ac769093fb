//! Why a script can't be read.
use std::error::Error;
use std::fmt;

/// Why a script can't be read: its first fault. Starts and choices are counted from 1.
#[derive(Debug, Clone, Copy, PartialEq, Eq)]
pub enum ScriptFault {
    /// The bytes are not TOML.
    NotToml,
    /// A key of the start is missing, is not allowed, or has a value that isn't what it must be; or there is no program of its
    /// graph. It has number 0 if a key stands beside `start` and `choice`, or if `start` isn't a list of tables.
    BadStart {
        /// The number of the start, from 1 on, or 0.
        number: usize,
    },
    /// A key of the choice is missing, is not allowed, or has a value that isn't what it must be; or there is no program of its
    /// graph, or that graph doesn't have the node, the label or a variable. It has number 0 if `choice` isn't a list of tables.
    BadChoice {
        /// The number of the choice, from 1 on, or 0.
        number: usize,
    },
    /// Out of memory.
    OutOfMemory,
}

impl Error for ScriptFault {}

impl fmt::Display for ScriptFault {
    ghost use Rattle.std.specs.Prelude.{Some};
    ghost use Rattle.sg_script.specs.FaultText.{script_text};

    ghost output = { λ fault. Some (script_text fault) };

    fn fmt<W: fmt::Write>(&self, f: &mut fmt::Formatter<W>) -> fmt::Result {
        match self {
            ScriptFault::NotToml => f.write_str("not toml"),
            ScriptFault::BadStart { number } => write!(f, "start {number}"),
            ScriptFault::BadChoice { number } => write!(f, "choice {number}"),
            ScriptFault::OutOfMemory => f.write_str("out of memory"),
        }
    }
}
