//! Generated runs: a graph in many sessions at once, over a network that loses, repeats and reorders frames, and the summary of what
//! came of it.
//!
//! A seed chooses the steps. Each principal is honest, and there is one for each role. Sessions run in groups of sixteen, one group after
//! another: each session of a group starts and plays, and then frames are taken out of the list of those that are pending, one drawn after
//! the other: it is delivered, delivered and put back, put back or lost. A principal that accepts a frame at a node with labels plays there,
//! by a drawn label and drawn values, or abandons the session if the frame's time is 16 or more. A frame that was put back three times
//! is delivered the fourth time.
//!
//! `specs/Generated.antt` is these rules, one definition for each, over what `specs/Going.antt` says of a run that is being generated:
//! the steps so far, how many numbers were drawn, the pending frames and how many were lost. What a run declares is `setup` of
//! `sg_sessions`. `generate` gives the run that the rules choose, as a schedule and as the world after it. The steps are a replay's,
//! so what holds of every replay holds of it, and what each step brings about is what the core's run of all steps says.
//!
//! `summary` writes how many frames were sent, accepted, refused and lost, and how many sessions were abandoned and completed, by the
//! log of the run, then whether the assumptions hold, and if they do how many walks there are: each session with an event has one, made
//! and counted.
//!
//! A session sends at most sixteen frames, each of which is delivered at most four times, so it has at most 82 steps, and two thousand
//! sessions have fewer than a replay may have: `specs/Budget.antt` says what may still follow, and each turn uses up more than it takes.
#![tactic(auto)]

mod drive;
mod fault;
mod generator;
mod groups;
pub mod laws;
mod network;
mod pending;
mod play;
mod summary_text;
mod tally;

pub use drive::Driven;
pub use fault::GenerateFault;
pub use groups::generate;
pub use summary_text::summary;
