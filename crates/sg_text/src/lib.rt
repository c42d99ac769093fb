//! How values, events and walks are written, and what sessions are called.
//!
//! A value is a number in digits or a text between double quotes, in which each byte that is not printable ASCII is `\x` and two
//! digits, and so are the space, the quote and the backslash. Roles, labels and variables are numbers and have their names by a graph; for
//! one that the graph doesn't have, the name is left out. A walk is written step by step, with `*` before what a role that isn't honest
//! did and `?` for a value that nobody honest wrote or received. Everything is appended to what is there, and copied nowhere.
//! If memory runs out, what was there stands as before, and a part of the new text may stand after it.
//!
//! `SessionNames` keeps what sessions are called: the first declared name of each identifier, and for the others a letter and a number
//! in the order of their first events. It grows as sessions are declared and then met, and finds each name by a hash table.
#![tactic(auto)]

mod event;
mod names;
mod value;
mod walk;

pub use event::{put_event, put_event_values, put_sent_to};
pub use names::SessionNames;
pub use value::{hex_digit, put_assigned, put_escaped, put_value, put_values};
pub use walk::put_walk;
