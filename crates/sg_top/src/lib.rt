//! The program without the real objects: what each command does, with which status it ends, and what it says of it.
//!
//! `top` takes the arguments of a command line, and the outside as objects: files, standard output, standard error, a link, random bytes, a disk,
//! a link over connections, another one over connections that are kept, and standard input. With those of the system it is `sessiongraph` (`sg_cli`);
//! with objects in memory another crate can call it.
//!
//! - The arguments are read first. Arguments that are in no command end with the usage line, and nothing else is touched.
//! - The commands stand in crates beside each other: those on a graph in `sg_design`, those on runs of all principals in `sg_replay`, and those of
//!   one principal in `sg_principal`.
//! - A file that is the only one of its command is read whole here (`file`), and the command is what is done with its bytes.
//! - `stream` is `run` over the link over connections: its deliveries are the frames whose messages become whole, in that order.
//! - Each status has its cause: a refusal comes if the arguments or the bytes ask for it, and a fault of a file, of an output, of the input,
//!   of the link or of the disk only if its count of faults rose; that of a file names the one for which the call failed. Out of memory alone
//!   may come in place of anything.
//! - With each status but 0 and 6 one line on standard error says why (`sg_ending`). If that line isn't taken, the status is that of a failed write.
//!
//! `laws` says of each command on one file that its endings exclude each other, and of `stream` whose fault a failed link was.
//!
//! `specs/Outside.antt` says what the objects report, `specs/File.antt` what is done with one file, and `specs/Top.antt` how the program ends, by its
//! command, and what it leaves untouched.
#![tactic(auto)]

mod file;
pub mod laws;
mod objects;
mod program;

pub use program::top;
