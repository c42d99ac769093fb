//! What one principal starts, and what it chooses at its turns.
//!
//! A script is a file in TOML, such as
//!
//! ```text
//! [[start]]
//! graph = "pair"
//! cast = ["a", "b"]
//! [[choice]]
//! graph = "pair"
//! node = "n0"
//! label = "Request"
//! values = {}
//! times = 1
//! ```
//!
//! A start is a session that the principal begins. Its cast has 2 to 16 names; its `version` is 1 or 2, and 1 if it is missing. A
//! choice says which step is taken at a node, what is written, and how often it may be taken: its `values` may be missing, and then
//! nothing is written, and so may `times`, and then it is taken once. There are no other keys, and `start` and `choice` may be missing
//! altogether.
//!
//! A script is read beside the programs that the principal has: a graph is known by its name there, and nodes, labels and variables by
//! their names in that graph. What is read has numbers in their index. Of all faults that a script has, the first is reported: what stands
//! beside `start` and `choice`, or a `start` that is no list of tables; then the starts in order; then a `choice` that is no list of
//! tables; then the choices in order. `laws` says that bytes spell one script at most.
#![tactic(auto)]

mod choice;
mod entry;
mod fault;
mod graph;
pub mod laws;
mod reader;
mod script;
mod start;
mod table;
mod value;

pub use fault::ScriptFault;
pub use reader::read_script;
pub use script::{Script, ScriptChoice, ScriptStart};
