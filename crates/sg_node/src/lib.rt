//! One principal's sessions.
//!
//! A node has a keyring, programs, the pairs of session and role that it joined, and its live sessions. It starts sessions, acts in
//! them, abandons them and takes deliveries. What it answers is what the protocol's definition answers after the calls that came
//! before, and a call that it refuses leaves it as it was.
//!
//! Sessions stand in a table in the order of joining, each in the slot of its join. One that ends or is abandoned leaves its slot
//! empty, so nothing moves and no slot is used twice. All look-ups go by hash tables, so a call takes the same time however many
//! sessions and joins there are. Room in the table, room among the joins and the next state are made before a pair is claimed, and
//! nothing grows after it. A delivery is looked at in the order of the refusals: nothing is hashed for those that need no hash.
//!
//! `begin`, `send` and `receive` give what a call learnt: the event with the graph of its session, by which its numbers have names; of a
//! frame also the view that it shows, with a walk that shows it, and the cast with which it joined; and a refusal that names a variable with the graph
//! that has it. Want of memory is no answer, but the call's error. `start`, `act` and `deliver` are the same calls for who wants the
//! event alone.
#![tactic(auto)]

mod act;
mod calls;
mod cast;
mod deliver;
mod fault;
mod graphs;
mod join;
pub mod laws;
mod node;
mod sessions;
mod start;

pub use fault::{ActFault, UnknownSession};
pub use node::Node;
