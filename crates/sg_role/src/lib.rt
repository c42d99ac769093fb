//! One role of one session, from its ticket to its end.
//!
//! A role of a session is at its turn, or waits for it. Each state is a type that its transition consumes, so none is used twice:
//! `Before` is what a role keeps of a session that is new or ends with its own step; with a ticket from the cache of joins it becomes a
//! `Turn`, by `Turn::begin`, or an `Await`, by `Await::join`. `Turn::send` makes a frame and gives an `Await` back, or the end. A role that
//! waits looks at a frame by `examine`, which changes nothing; `Await::accept` takes what was accepted, and gives the next `Turn`. What is
//! refused comes back unchanged.
//!
//! No state has a history. A clause sees its program and what it holds (`Held` of the core), and speaks of every session of the definitions
//! that that represents. The invariant of each type is that there is such a session, and that what is kept follows a walk from the start;
//! so each variable that a step reads has an opening.
#![tactic(auto)]

mod accepted;
mod before;
mod evidence;
mod fault;
mod kept_state;
mod next;
mod openings;
mod own;
mod same;
mod send;
mod sent;
mod step;
mod tags;
mod times;
mod turn;
mod turn_or_done;
mod values;
mod verdict;
mod view;
mod wait;

pub use accepted::Accepted;
pub use before::Before;
pub use fault::{Refusal, SendFault};
pub use sent::Sent;
pub use turn::Turn;
pub use turn_or_done::{Done, TurnOrDone};
pub use values::{facts_of_each, facts_of_values};
pub use verdict::examine;
pub use wait::Await;
