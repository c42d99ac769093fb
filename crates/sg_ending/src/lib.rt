//! How the program ends: with which status, and with which line on standard error; and what commands share that are on files.
//!
//! Each ending has its status and its line, and the text of a fault of a library stands in the library. `say` says an ending on standard error and
//! gives its status; if the line isn't taken, the status is that of a failed write. The other ends are those of a program that can't begin.
//!
//! `read_file` reads a file whole, or says how the program ends without it, and `graph_of` gives the graph that its bytes spell.
//!
//! Where the definitions stand: `specs/Ending.antt` has the statuses and lines, with `specs/FaultText.antt` of the crates of the faults,
//! `specs/Says.antt` how they are said, `specs/Output.antt` what is left of an output that is written to, `specs/Files.antt` what files hold and how the
//! program ends at one, `specs/Graphs.antt` how graphs are refused, and `specs/Laws.antt` when an ending is the one that a file asks for.
#![tactic(auto)]

mod before;
mod ending;
mod file;
mod graph;
mod stderr;

pub use before::{end_without_args, end_without_descriptors, end_without_memory, end_without_seed};
pub use ending::{BadProgram, Ending, Wrong};
pub use file::read_file;
pub use graph::{MOST_GRAPH_BYTES, graph_of};
pub use stderr::say;
