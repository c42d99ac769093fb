//! One principal plays a script over a link, and keeps its joins in a ledger.
//!
//! It plays as `sg_play` says, by a node that joined before what the ledger has. For each call that joins, the pair of session and role
//! stands in the ledger before the line of the call is written, and before any turn of the session: so before any frame of the session
//! is given to the link (`sg_joins`). If a ledger can't take a pair, the play ends there.
//!
//! At each moment of the call a crash leaves a file that represents the joins that the ledger was opened with, and then others, whatever is
//! known of link and random bytes (`any_moment`). If these are known, the others are those of the first calls of the play
//! (`specs/KeptRuns.antt`), and at most one join more than those of the steps whose lines were written by the end of the call
//! (`throughout`). Disk, sink and link share no clock, so no clause says what was written when the crash came; but each call of the disk may
//! fail, and then the play returns. On each return they are those of each call whose line was begun, with the session and the sender of
//! each frame that the link took (`kept`). Within the play only `Ledger::add` changes the disk, and says of each moment what the images
//! represent: the joins from before, or these with the new one (`sg_ledger`).
#![tactic(auto)]

mod fault;
mod keeper;
mod run;

pub use fault::KeepFault;
pub use run::keep;
