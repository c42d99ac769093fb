//! Honest principals that run apart, each with its own keys, programs and joins: one walk explains each session.
//!
//! The definitions stand in `specs/`: `Apart`, principals and the calls that they are asked; `Laws`, what holds of them; `Lives`, principals
//! that are begun anew over their joins. Each function is a law about them: it does nothing, and its contract is the law. Of the proofs
//! read `proofs/Whole.antt` first.
#![tactic(auto)]

ghost use Rattle.std.specs.Prelude.{ℕ, List};
ghost use Rattle.sg_protocol.specs.Texts.{IsHash, real};
ghost use Rattle.sg_apart.specs.Laws.{HeadlineApart, PastsRunApart, HonestPastsFollowWalks, SchedulesRunApart};
ghost use Rattle.sg_apart.specs.Lives.{LivesAreOnePast};

/// The headline of principals that run apart, whatever they are asked, in whatever order: if no tag of two of them is forged and no
/// two hashed texts have one digest, each session with an event follows one walk, and, whatever holds, none of them joins a pair of session and role
/// twice, nor one that it began with.
pub fn headline_apart()
    ensures of_any { (sha : List ℕ → List ℕ) → IsHash sha → HeadlineApart sha }
    ensures of_sha256 { HeadlineApart real }
{}

/// Each order of the calls of several pasts, whose answers are those of their nodes, is a run of principals apart, which has these
/// pasts and these answers. So, if they are of honest principals and the assumptions hold of that order, each session follows one walk.
pub fn pasts_run_apart()
    ensures runs { (sha : List ℕ → List ℕ) → PastsRunApart sha }
    ensures walks { (sha : List ℕ → List ℕ) → IsHash sha → HonestPastsFollowWalks sha }
{}

/// The run of a schedule of accepted graphs is a run of its honest principals apart, but for the entries of its log that have no call.
pub fn schedules_run_apart()
    ensures { (sha : List ℕ → List ℕ) → IsHash sha → SchedulesRunApart sha }
{}

/// A principal that is stopped and begun anew, again and again, over the joins that it kept and with the same keys and programs, is one
/// honest principal: all its lives are one past, if in the place of each restart every session that was live is abandoned, with the same
/// events.
pub fn lives_are_one_past()
    ensures { (sha : List ℕ → List ℕ) → LivesAreOnePast sha }
{}
