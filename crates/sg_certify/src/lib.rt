//! What certifies a run: its two assumptions, tried, and for each session a walk that explains it.
//!
//! A run is explained if no tag of two honest principals was forged and no two hashed texts have one digest. Each step notes the texts
//! that it tagged, those whose tag it found right, and those that it hashed. `first_forged` gives the first text that was found right
//! under the key of two honest principals and had not been tagged in an earlier step; `first_collision` the first two different texts
//! with one digest, which are those whose later text comes first. Both go over the notes once, in order, with a hash table of what came
//! before.
//!
//! `Traces` is given each event in their order, with the graph and the honest roles of its session, and finds the trace of a session by its
//! sid in a hash table. A trace has the events so far, each beside a walk that shows what it took: of a receipt, the one beside its view in the
//! table of the receiver's program.
//!
//! `Trace::walk` makes the walk. Each event adds steps. A step that was sent is added with its values. For what was received, of the steps
//! of the walk beside it since the receiver's own last one, those after the last one of an honest sender are added, and what they write is
//! hidden. Each value that was received is filled in at the last step that writes its variable, if it is hidden there. Time and memory are
//! in proportion to the events, their values, the frames and the steps.
//!
//! What is said of runs is said of those in which both assumptions hold: if the traces were those of the steps before, they are with an
//! event those of the steps with its step (`AreTraces`, in `specs/Runs.antt`), and in the end `walk` gives for each session a walk that
//! explains it. `laws` says why: whichever walks that show what was taken stand beside a session's events, the walk that is made is one
//! path of them.
#![tactic(auto)]

mod collision;
mod firsts;
mod forged;
mod honest;
mod kept_values;
pub mod laws;
mod pass;
mod recent;
mod shown;
mod tagged_texts;
mod trace;
mod traces;

pub use collision::{Collision, first_collision};
pub use forged::{Forged, first_forged};
pub use honest::{Honest, honest_roles};
pub use trace::Trace;
pub use traces::Traces;
