//! The command `audit`: reads logs, checks their graph, and says of each session whether its logs agree.
ghost use Rattle.std.specs.Prelude.{◌≡◌, ◌≤◌, ◌∷◌, [], All, length, map};
ghost use Rattle.sg_model.specs.Limits.{most_logs_file};
ghost use Rattle.sg_protocol.specs.IsSchedule.{AreCompiled};
ghost use Rattle.sg_protocol.specs.Texts.{real};
ghost use Rattle.sg_compile.specs.Compiled.{IsWhole};
ghost use Rattle.sg_audit.specs.Agree.{AreLogs};
ghost use Rattle.sg_audit.specs.Model.{logs_of, reported_of};
ghost use Rattle.sg_audit.specs.Spells.{SpellsLogs};
ghost use Rattle.sg_audit.specs.TakingLines.{logs_held, session_of};
ghost use Rattle.sg_ending.specs.Model.{ending_held};
ghost use Rattle.sg_replay.specs.Ends.{Audits};
ghost use Rattle.sg_replay.specs.Faults.{ending_of_logs};

use crate::answer::answers_text;
use sg_audit::{LogFault, Logs, SessionLog, read_logs};
use sg_base::{Sink, write_all};
use sg_compile::{AllFault, compile_all};
use sg_ending::{Ending, Wrong};
use sg_graph::Graph;
use sg_program::Programs;
use std::alloc::Global;
use std::slice;

/// A log file has at most 16 MiB.
pub const MOST_LOG_BYTES: u32 = 16_777_216;

/// Audits the logs that the bytes spell and writes the answer for each session, or says why not.
pub fn audit<O: Sink>(alloc: Global, bytes: &[u8], out: &mut O) -> Ending<'static>
    requires { length bytes.now ≤ most_logs_file }
    ensures { Audits bytes.now (record { bytes = O.written out.old; faults = O.faults out.old })
        (record { bytes = O.written out.new; faults = O.faults out.new }) (ending_held result) }
{
    match read_logs(alloc, bytes) {
        Ok(logs) => audit_logs(alloc, bytes, logs, out),
        Err(fault) => refused(fault),
    }
}

// How the program ends if bytes are no logs.
fn refused(fault: LogFault) -> Ending<'static>
    ensures { ending_held result ≡ ending_of_logs fault }
{
    match fault {
        LogFault::Form { line } => Ending::WrongLine {
            line,
            wrong: Wrong::Form,
        },
        LogFault::Unknown { line } => Ending::WrongLine {
            line,
            wrong: Wrong::Unknown,
        },
        LogFault::Twice { line } => Ending::WrongLine {
            line,
            wrong: Wrong::Twice,
        },
        LogFault::Graph { fault } => Ending::NoGraph { fault },
        LogFault::TooManyEvents => Ending::TooLarge { what: "events" },
        LogFault::OutOfMemory => Ending::NoMemory,
    }
}

// Audits the logs that the bytes spell.
fn audit_logs<O: Sink>(alloc: Global, bytes: &[u8], logs: Logs, out: &mut O) -> Ending<'static>
    requires spelled { SpellsLogs bytes.now (logs_held logs) }
    requires fit { All (λ s. AreLogs logs.graph (logs_of s) (reported_of s)) logs.sessions }
    ensures { Audits bytes.now (record { bytes = O.written out.old; faults = O.faults out.old })
        (record { bytes = O.written out.new; faults = O.faults out.new }) (ending_held result) }
{
    let Logs { graph, sessions } = logs;
    audit_sessions(alloc, bytes, graph, sessions.as_slice(), out)
}

// Checks the graph of the logs that the bytes spell, and audits their sessions.
fn audit_sessions<O: Sink>(
    alloc: Global,
    bytes: &[u8],
    graph: Graph,
    sessions: &[SessionLog],
    out: &mut O,
) -> Ending<'static>
    requires spelled { SpellsLogs bytes.now (record { graph = graph; sessions = map session_of sessions.now }) }
    requires two { 2 ≤ length graph.roles }
    requires fit { All (λ s. AreLogs graph (logs_of s) (reported_of s)) sessions.now }
    ensures { Audits bytes.now (record { bytes = O.written out.old; faults = O.faults out.old })
        (record { bytes = O.written out.new; faults = O.faults out.new }) (ending_held result) }
{
    match compile_all(alloc, slice::from_ref(&graph)) {
        Ok(programs) => {
            let ending = say_answers(alloc, bytes, &graph, sessions, &programs, out);
            drop(programs);
            drop(graph);
            ending
        }
        Err(AllFault::Refused { fault, .. }) => Ending::GraphRefused { graph, fault },
        Err(AllFault::OutOfMemory) => {
            drop(graph);
            Ending::NoMemory
        }
    }
}

// Audits the sessions of logs whose graph is accepted, and writes the answers.
fn say_answers<O: Sink>(
    alloc: Global,
    bytes: &[u8],
    graph: &Graph,
    sessions: &[SessionLog],
    programs: &Programs,
    out: &mut O,
) -> Ending<'static>
    requires spelled { SpellsLogs bytes.now (record { graph = graph.now; sessions = map session_of sessions.now }) }
    requires fit { All (λ s. AreLogs graph.now (logs_of s) (reported_of s)) sessions.now }
    requires compiled { AreCompiled real (graph.now ∷ []) programs.now }
    requires few { All IsWhole programs.now }
    ensures { Audits bytes.now (record { bytes = O.written out.old; faults = O.faults out.old })
        (record { bytes = O.written out.new; faults = O.faults out.new }) (ending_held result) }
{
    // The programs show that the checks accept the graph.
    let _ = programs;
    match answers_text(alloc, graph, sessions) {
        Ok(text) => match write_all(out, text.as_slice()) {
            Ok(()) => Ending::Written,
            Err(_) => Ending::WriteFailed,
        },
        Err(_) => Ending::NoMemory,
    }
}
