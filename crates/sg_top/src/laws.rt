//! What holds of all files, and of connections that fail. Each function is a law: it does nothing but cite another one, and its contract is the statement.
ghost use Rattle.std.specs.Prelude.{ℕ, List};
ghost use Rattle.sg_model.specs.Limits.{most_graph_file, most_logs_file, most_schedule_file};
ghost use Rattle.sg_ending.specs.Laws.{EndsOnce};
ghost use Rattle.sg_design.specs.Claimed.{Suggests};
ghost use Rattle.sg_design.specs.Ends.{Checks, Compiles, Composes};
ghost use Rattle.sg_design.specs.Laws.{ClaimsEndOnce};
ghost use Rattle.sg_principal.specs.Laws.{LedgersAreMadeByBytes, LedgersAreOpenedByBytes};
ghost use Rattle.sg_principal.specs.Outside.{output_of};
ghost use Rattle.sg_replay.specs.Ends.{Audits, Drives, Replays};
ghost use Rattle.sg_setup.specs.Laws.{PrincipalsAreOne, SetupsAreOne};
ghost use Rattle.sg_top.specs.Laws.{StreamFailsByACall};
ghost use Rattle.sg_top.specs.Outside.{reports_of, stream_of};

use sg_base::{Files, Fresh, Sink};
use sg_drive::laws::generated_is_one;
use sg_input::Input;
use sg_ledger::Disk;
use sg_stream::{Conns, rises_are_of_one_call};
use sg_wait::TimedLink;

/// The endings of a command on one file exclude each other: unless a file fails or memory runs out, the same files ask for the same ending.
/// Of a graph that is refused this says which graph it is, not for which fault.
pub fn one_file_ends_once()
    ensures check { EndsOnce Checks most_graph_file }
    ensures compile { (name : List ℕ) → EndsOnce (Compiles name) most_graph_file }
    ensures suggest { EndsOnce Suggests most_graph_file }
    ensures audit { EndsOnce Audits most_logs_file }
    ensures compose { EndsOnce Composes most_graph_file }
    ensures replay { EndsOnce Replays most_schedule_file }
    ensures drive { (seed sessions : ℕ) → EndsOnce (Drives seed sessions) most_graph_file }
{
    generated_is_one();
}

/// The endings of `claims` on a file of a graph and one of claims exclude each other. Of answers that are not written whole this doesn't say whether all
/// claims hold.
pub fn claims_end_once()
    ensures { ClaimsEndOnce }
{}

/// The same files hold one principal, and one setup of a run, or none for one cause: unless a file fails or memory runs out, a run doesn't play with
/// files that are refused, and the same files are refused in one way. Of a program whose graph is refused this says which graph it is, not for which
/// fault.
pub fn runs_lack_once()
    ensures principals { PrincipalsAreOne }
    ensures setups { SetupsAreOne }
{}

/// The bytes of a disk's file, if they are known, decide whether a ledger is made, unless the disk fails or memory runs out.
pub fn ledger_is_made_once<D: Disk>()
    ensures { LedgersAreMadeByBytes D.Disk }
{}

/// The bytes of a disk's file, if they are known, decide with which joins `keep` and `serve` open a ledger, or for which cause they open none, unless the
/// disk fails or memory runs out: the file is no ledger, or this is its first bad slot. It can't be that none of the three is so.
pub fn ledger_is_opened_once<D: Disk>()
    ensures { LedgersAreOpenedByBytes D.Disk }
{}

/// A run over connections ends with 7 only if to wait at its address, to take a piece, to make a connection or to give bytes failed, or 1,000,000 pieces
/// made no message whole: one of these five counts rose, or they stand together where no rise shows. Each is raised by its own call alone (`Conns`).
pub fn stream_fails_by_a_call<
    F: Files,
    O: Sink,
    E: Sink,
    L: TimedLink,
    R: Fresh,
    D: Disk,
    C: Conns,
    P: TimedLink,
    I: Input,
>()
    ensures { StreamFailsByACall C.Conns (reports_of F.Files O.Sink L.Link L.coming R.Fresh D.Disk (stream_of C.Conns) P.Link P.coming I.Input)
        (output_of E.Sink) }
{
    rises_are_of_one_call();
}
