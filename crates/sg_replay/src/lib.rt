//! The commands on runs of all principals: `replay` replays the run of a schedule, `drive` generates a run of a graph, and `audit` says whether the logs of
//! a run agree.
//!
//! Each is what is done with the bytes of one file, whose first fault ends the work. Nothing is written before all is done, so what is refused leaves
//! standard output as it was.
//!
//! Each command has a module of its name. `answer` has the texts of audits.
//!
//! `specs/Ends.antt` says what each command leaves and why it ends so, `specs/Faults.antt` how a fault of a schedule or of logs ends it,
//! `specs/Replayed.antt` what is left of a replay, `specs/Driven.antt` of a drive, and `specs/Audited.antt` has the text of `audit`. `laws` says that an
//! ending always applies.
#![tactic(auto)]

mod answer;
pub mod audit;
pub mod drive;
pub mod laws;
pub mod replay;
