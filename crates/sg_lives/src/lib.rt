//! Runs over one ledger, one after another, and however each was cut off, are lives of one principal.
//!
//! `specs/LedgerRuns.antt` has what a run over a ledger is, `specs/PlayedRuns.antt` and `specs/ServedRuns.antt` that runs of `keep` and of
//! `serve` are such; `sg_protocol` says what lives are (`AreLives`). Each function is a law: it does nothing, and its contract is the
//! statement.
#![tactic(auto)]

ghost use Rattle.sg_lives.specs.LedgerRuns.{RunsAreLives, RunsReportJoinsOnce};
ghost use Rattle.sg_lives.specs.PlayedRuns.{CutOffIsRun, KeptIsRun};
ghost use Rattle.sg_lives.specs.ServedRuns.{ServedIsRun};

/// Runs over one ledger, each of which opens what the one before left, are lives of one principal, each of the first calls of its
/// run: of all that the run reported, and maybe of more, whose lines a crash cut off. So what all of them reported has no two joins of one
/// pair, and none that the ledger was first opened with.
pub fn runs_are_lives()
    ensures lives { RunsAreLives }
    ensures reported { RunsReportJoinsOnce }
{}

/// However a run of `keep` ended, what a crash may then leave of the disk is left by a run over the ledger: its node had joined
/// what the ledger was opened with, the calls are those of its play, and what is left represents the joins of first calls: of
/// all whose lines were begun, and with those of each frame that the link took. So is what a crash leaves at any moment of the run.
pub fn kept_is_run()
    ensures ended { KeptIsRun }
    ensures cut_off { CutOffIsRun }
{}

/// However a run of `serve` over a ledger ended, what a crash may then leave of the disk is left by a run over the ledger: its node had
/// joined what the ledger was opened with, the calls are those of first lines of the input, and what is left represents the joins of
/// first calls: of all calls of the lines whose answers were begun.
pub fn served_is_run()
    ensures { ServedIsRun }
{}
