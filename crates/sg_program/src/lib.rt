//! Programs: a graph compiled for a role.
//!
//! A `Program` is an accepted graph with its digest, the table of all views that can reach the role, and for each edge the roles that must
//! be able to check it later. `Programs` are found by a graph's name, and by its digest and a role. How they are compiled, written and
//! loaded stands in `sg_compile`.
#![tactic(auto)]

mod program;
mod programs;
mod table;

pub use program::Program;
pub use programs::{AddProgramFault, Programs};
pub use table::TargetTable;
