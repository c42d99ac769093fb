//! The arguments of the command line, and the command that they ask for.
//!
//! The table of commands is `specs/Command.antt`: a name, and as many arguments after it as the command takes. Behind `serve` two
//! options may stand, `--tcp` and `--ledger FILE`; no other argument may begin with `-`. A number is digits without a sign or a needless leading zero, and at most its greatest.
//!
//! The arguments go through `clap`. It gets them after `--`, where it takes any arguments as they are, so it refuses none, and its own texts are
//! never printed: what is a command is said here, exactly.
#![tactic(auto)]

mod command;
mod parsed;

pub use command::{Command, read_command};
pub use parsed::{CommandLine, Parsed};
