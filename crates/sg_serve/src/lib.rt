//! One principal serves an application, line by line.
//!
//! The application writes a line, the principal does one step and answers with one line, before it reads the next one. It starts sessions,
//! acts in them, leaves them, and takes deliveries from the link, as the lines ask; a frame goes to the address that the keyring has for its
//! receiver. If the link doesn't take a frame, the answer says so, and the step is done all the same: the last frame of a session can be
//! sent again. A line that is of no form, or names what isn't there, is answered so and changes nothing. With a ledger, the join of a call is
//! kept before its frame goes out and its answer is written.
//!
//! `specs/Serving.antt` says what each request does to the state and what it is answered, `specs/Lines.antt` what each line of the input
//! gives the outside, and `specs/Served.antt` what a whole run has given and kept, where it ended. The node is asked by the calls of
//! `sg_play`, so its past is one of a node, and each law about nodes holds of it.
//!
//! What a line is answered is made first, as a value, and all memory for it is taken. Then it is given to the outside: the frame goes out,
//! and the answer is written.
#![tactic(auto)]

mod call;
mod fault;
mod frame;
mod graphs;
mod laws;
mod line;
mod reply;
mod report;
mod run;
mod say;
mod server;

pub use fault::ServeFault;
pub use laws::{again_changes_nothing, runs_are_of_nodes};
pub use run::serve;
