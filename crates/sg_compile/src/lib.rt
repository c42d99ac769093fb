//! Graphs are checked, compiled for their roles, and programs written and loaded.
//!
//! A graph is accepted if its shape is right, only writers write and what is read is known, and no node blinds two roles; `check_graph`
//! reports the first of these that does not hold. `compile` gives the program of an accepted graph for one of its roles: the graph with its
//! digest, the table of all views that can reach the role, and for each edge the roles that must be able to check it later.
//!
//! A program has one text, which `encode` gives: it names its version, its role, its graph and the lines of its table. `load` trusts none
//! of it: it reads the graph, compiles it again, and compares the lines. `laws` says that what is compiled isn't refused, and that the text
//! of a program is of no other and has no fault.
#![tactic(auto)]

mod all;
mod check;
mod compiler;
pub mod laws;
mod loader;
mod text;

pub use all::{AllFault, compile_all};
pub use check::{CompileFault, check_graph};
pub use compiler::compile;
pub use loader::{LoadFault, load};
pub use text::encode;
