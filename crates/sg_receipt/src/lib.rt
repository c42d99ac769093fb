//! What a node answers: what happened, with that by which its numbers have names, and why it refuses a call.
//!
//! A start and an act give the event with the graph of its session; a delivery gives a receipt, which also has the view that the frame shows,
//! with a walk that shows it, and the cast with which it joined. A refusal that names a variable has the graph of the session that has it.
//! Want of memory is no answer, but the call's error; `StartFault` and `Refusal` have both, for who wants the event alone.
#![tactic(auto)]

mod answer;
mod fault;
mod refusal;

pub use answer::{Happened, Receipt};
pub use fault::{Refusal, StartFault};
pub use refusal::{ActRefusal, DeliveryRefusal, StartRefusal};
