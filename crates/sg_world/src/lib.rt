//! Replays of schedules over real nodes: the honest principals of a schedule, and the record of what they did.
//!
//! A world has one node for each honest principal, with the keys of its pairs, and takes steps one by one: calls at these nodes, and
//! frames that a compromised principal crafts. What clauses see of it is the programs and the schedule with the steps that were taken;
//! the run of this schedule is the core's. So every law of runs speaks of a world as it stands, and a step is one equation: the schedule
//! has it as its last.
//!
//! What is declared is kept as a `Setting` (`sg_setting`). The nodes stand in the order of the honest principals, each with a keyring
//! of the pairs that it is one of, and the one whose step it is is one look-up away. `Record` has each step with the outcome, in which the
//! graph stands beside the numbers that it names, and the honest roles of the session that it started or joined, what was noted of tags and
//! hashes at each, and each frame once, found by its number. `specs/Holds.antt` says what holds of these parts between steps: each node
//! represents its principal's past in the run, and what is recorded is what the run's log says.
//!
//! A step is taken in this order. Its principal has a node, and the record isn't full. The step is copied, and room is made for it. The call
//! is made at the node, which gives what it learnt, or the frame of a craft. The step is recorded. Nothing after the call needs memory, so a
//! step that finds none leaves the world as it was.
//!
//! Where the proof stands: `proofs/Goes.antt` has one more step of a run in the nodes and the record, by what comes of it, which
//! `specs/StepResults.antt` says of a call and `specs/Crafts.antt` of a craft; `proofs/Next.antt` and `proofs/Crafting.antt` have all that holds
//! with one more step, `proofs/Begins.antt` that of no step; `proofs/EntryGraphs.antt`, that what steps learnt stays as it is.
//!
//! `unforged` and `collision_free` try the two assumptions on what was noted, and report the first break. `report` goes over the record once
//! for what sessions are called, once for the lines, and once for each assumption; if both hold it goes through the sessions in one pass
//! more, and writes the walk of each as soon as it is made. `walk_of` gives the walk of one session. What a report says by the run
//! stands in `specs/Account.antt`, and that it says so in `proofs/KeptLines.antt` (the lines and the names), `proofs/WalkLaws.antt`
//! (the walks) and `proofs/ReportText.antt` (the text).
#![tactic(auto)]

mod call;
mod craft;
mod fault;
pub mod laws;
mod lines;
mod names;
mod nodes;
mod premises;
mod record;
mod report;
mod session_walk;
mod take;
mod walks;
mod world;

pub use fault::StepFault;
pub use premises::{CollisionFault, ForgedFault};
pub use session_walk::WalkFault;
pub use world::World;
