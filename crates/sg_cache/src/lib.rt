//! The sessions that a principal has joined, and the leave to join one.
//!
//! A principal joins each session in each role at most once: a start or a joining frame that comes again finds its pair of session
//! and role in the cache. Pairs are never taken out, and there are at most 65,536. `Cache::claim` adds a pair that isn't there and
//! gives a `Ticket` for it, and nothing else makes one. A ticket has no `Drop`: whoever claims one must spend it, once.
//!
//! Look-ups go by a hash table, so they take the same time however many pairs are there. `Cache::reserve` makes room for one more
//! pair; a claim that finds room takes no memory.
#![tactic(auto)]

mod cache;
mod ticket;

pub use cache::{Cache, ClaimFault};
pub use ticket::Ticket;
