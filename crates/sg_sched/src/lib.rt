//! Schedules: what is declared for a replay, and its steps, read from a text line by line.
//!
//! Lines stand in groups in this order, each of which may be empty: graphs, honest principals, keys of pairs of principals, sessions,
//! steps. Blank lines and lines that begin with `#` are skipped; all lines are counted, from 1.
//!
//! | line | says |
//! |---|---|
//! | `graph {` | the lines up to a line `}` are the text of a graph |
//! | `edge LABEL FROM TO` | an edge of the graph `pair`, from node to node, each a number from 0 to 255, one even and one odd; role a acts at even nodes, role b at odd ones |
//! | `honest NAME` | the principal is honest |
//! | `key NAME NAME HEX` | the 32-byte key of two different principals, as 64 hexadecimal digits |
//! | `session NAME GRAPH NONCE NAME,NAME,..` | a session of the graph, with a principal for each role; `v2` after it for version 2 |
//! | `start NAME SESSION` | the principal starts the session |
//! | `act NAME SESSION LABEL VAR=VALUE ..` | the principal sends along the label and writes the values |
//! | `abandon NAME SESSION` | the principal leaves the session |
//! | `deliver NAME fN` | the principal is given recorded frame N, counted from 1; with `flip I` or `cut I` after it a changed one, and with `hex HEX` in its place any bytes |
//! | `craft SESSION from ROLE to ROLE ..` | a compromised principal makes a frame, which is recorded |
//!
//! What bytes spell, and their first wrong line, stands in `specs/Format`. Here are the types of a schedule and the reading of each single
//! line by its form, exactly: what is read is what the words say, and what the words of a form say is read. Each byte is read once, or
//! twice if a value is tested and then kept. `sg_sched_text` reads whole texts.
#![tactic(auto)]

mod act;
pub mod cast;
mod craft;
mod craft_form;
mod fault;
mod form;
pub mod index;
mod key;
pub mod keys;
pub mod line;
mod names;
pub mod node_name;
pub mod pair;
pub mod read_line;
mod schedule;
mod step;
mod text;
pub mod value;
pub mod word;

pub use act::{read_assignment, read_assignments, split_at};
pub use craft::{Craft, CraftItem, CraftJoin, HeldCraft, Source};
pub use craft_form::read_cast;
pub use fault::{Kind, LineFault};
pub use key::PairKey;
pub use line::Assignment;
pub use read_line::is_skipped;
pub use schedule::{NamedSession, Schedule};
pub use step::{Change, Step, What};
pub use text::{Words, line_content, split_line};
pub use value::read_value;
