//! Answers to a line of input that are no step's line.
//!
//! | answer | tells |
//! |---|---|
//! | `unknown sN` | session N has had no line here |
//! | `wrong line: form`, `wrong line: unknown`, `wrong line: twice` | the line is of no form; it names a graph, label or variable that isn't there; it gives a variable twice |
//! | `quiet` | no delivery came in time |
//! | `link failed` | the link could not give a delivery |
//! | `again fN to NAME` | the session's last frame went out once more |
//! | `nothing to send again in sN` | no frame of the session is kept |
//! | `turn sN at NODE: LABEL(VAR:TYPE,..) LABEL ..` | what can be done: the labels in the order of the graph, each with what it writes |
//! | `waits sN` | another role is at its turn |
//! | `over sN` | the session has ended |
//! | `id sN DIGEST` | the session's identifier in 64 hexadecimal digits |
//!
//! Before an answer whose frame the link didn't take stands `unsent `. Each answer is one line with its end. What they are stands in
//! `specs/Answers`; here they are appended to what is there, and copied nowhere.
#![tactic(auto)]

mod line;
mod turn;

pub use line::{
    Wrong, put_again, put_failed, put_id, put_nothing, put_over, put_quiet, put_unknown,
    put_unsent, put_waits, put_wrong,
};
pub use turn::put_turn;
