//! The commands of one principal: `run`, `keep` and `serve`, and `ledger`, which makes the ledger for these two. `stream` is `run` over another link.
//!
//! - `run` reads its files in order, keys, programs and script, and opens the link when all are taken. It writes as it goes: a step's line when
//!   the link has taken the step's frame.
//! - `ledger` makes a ledger of a file of the disk and then says so. `keep` reads as `run` does, opens the ledger and then the link, and plays
//!   over the joins that the ledger has. What a crash leaves of the disk has the joins of each step whose line was begun.
//! - `serve` reads keys and programs as `run` does, opens the ledger, if it has one, and then its link, and answers the lines of standard input,
//!   each before it reads the next one. A link that fails after that is an answer.
//!
//! Each command has a module of its name, and `joins` opens a ledger. A player is given what it acts on as one struct, `Stage`.
//! What is let go where a function may end early, or at its end, is passed to `drop`: so the check has its drop once for the crate and not in each such function.
//!
//! `specs/Outside.antt` says what these objects report, `specs/Runs.antt` what a run leaves, `specs/Ledgers.antt` what the making of a ledger leaves, and
//! a run over one, and `specs/Serves.antt` a run for an application.
#![tactic(auto)]

mod joins;
pub mod keep;
pub mod ledger;
mod named;
pub mod run;
pub mod serve;
mod stage;

pub use named::{NamedFiles, RunFiles};
pub use stage::Stage;
