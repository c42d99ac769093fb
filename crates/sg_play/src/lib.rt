//! One principal plays a script over a link.
//!
//! The principal makes each start of the script in order, with the next sixteen random bytes as its nonce, and plays the turn that it gives. Then
//! it takes deliveries from the link, at most a given number and up to the link's end, gives each to its node, and plays the turn, if
//! one came. To play a turn it acts by the first choice of the script for that graph and node that has uses left, with a confounder to
//! hide each value; the act takes one use off the choice, refused or not. If there is no such choice, or the act is refused, it
//! leaves the session. A frame goes to the address that the keyring has for its receiver, and each step's line is written when the link
//! has taken the frame, if there is one.
//!
//! `specs/Played.antt` says so as a function of what the script, the deliveries and the random bytes are; `specs/Steps.antt` says what a step's
//! line and frame are, and `specs/Ends.antt` how far a play came that ended early: by whole steps if the link failed or memory ran
//! out, and with the frame of one more step and a prefix of its line if a line was not written whole.
//!
//! Who has an order of its own makes each call by itself, and then has the line of its step: `Player::ask_start`, `ask_deliver`, `ask_act` or
//! `ask_abandon`, and `report`. A play goes by the same calls.
//!
//! Look-ups go by hash tables: the choices for a node of a graph, what a session is called, and what the node has of it.
#![tactic(auto)]

mod ask;
mod calls;
mod choices;
mod confounders;
mod facts;
mod fault;
mod player;
mod post;
mod run;
mod turn;

pub use confounders::draw;
pub use fault::PlayFault;
pub use player::Player;
pub use run::play;
