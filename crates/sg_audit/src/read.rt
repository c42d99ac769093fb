//! Logs from bytes.
ghost use Rattle.std.specs.Prelude.{◌≡◌, ◌≢◌, ◌<◌, ◌^◌, ◌+◌, ◌⊎◌, [], All, map, length, Ok, Err, Some, None, IfOk, IfErr, IsFalse, IsTrue, MatchResult, OnOk};
ghost use Rattle.sg_audit.specs.Sessions.{Logs as Spelled};
ghost use Rattle.sg_audit.specs.Spells.{SpellsLogs, IsFault};
ghost use Rattle.sg_parse.specs.Reading.{read as parsed};
ghost use Rattle.sg_audit.specs.Read.{add_line, begins_block, begins_graph, block_text, first_block, read, read_block, read_lines, read_sessions, with_graph};
ghost use Rattle.sg_audit.specs.SoFar.{nothing};
ghost use Rattle.sg_audit.specs.TakingLines.{Refuses, Takes, fault_at, logs_held, session_of};
ghost use Rattle.sg_audit.specs.Agree.{AreLogs};
ghost use Rattle.sg_audit.specs.Model.{logs_of, reported_of};
ghost use Rattle.sg_sched.specs.Text.{lines as lines_of};

use crate::fault::{LogFault, Mistake, Stop};
use crate::line::read_line;
use crate::lines::{Lines, closes, opens};
use crate::reader::LogsReader;
use crate::session::{Logs, SessionLog};
use sg_base::Seq;
use sg_graph::Graph;
use sg_parse::{ParseFault, parse_graph};
use sg_sched::{Words, is_skipped, line_content};
use std::alloc::Global;

/// The logs that the bytes spell, or the first wrong line from the top, lines counted from 1, and what is wrong with it; or out of
/// memory. There are fewer than 4,294,967,295 bytes. It reads each byte once and takes time in proportion to their number. It takes no
/// memory before the graph's first role is read.
pub fn read_logs(alloc: Global, bytes: &[u8]) -> Result<Logs, LogFault>
    requires { length bytes.now + 1 < 2 ^ 32 }
    // What is read is spelled so.
    ensures spelled { IfOk result (λ l. SpellsLogs bytes.now (logs_held l)) }
    // What is spelled so is read, unless memory runs out.
    ensures read { (l : Spelled) → SpellsLogs bytes.now l → MatchResult result (λ held. logs_held held ≡ l) (λ e. e ≡ LogFault.OutOfMemory) }
    // A refusal reports the first fault.
    ensures wrong { IfErr result (λ e. (e ≡ LogFault.OutOfMemory) ⊎ IsFault bytes.now e) }
    // What has a fault is refused with the first one, unless memory runs out.
    ensures refused { (e : LogFault) → IsFault bytes.now e → MatchResult result (λ held. ⊥) (λ f. (f ≡ LogFault.OutOfMemory) ⊎ (f ≡ e)) }
    // Memory never runs out if the first line that is neither blank nor a comment isn't `graph {`, if no line closes its block, or if the
    // block's text doesn't begin with a name and a role.
    ensures early { IsFalse (begins_block (lines_of bytes.now)) → result ≢ Err LogFault.OutOfMemory }
    // Each session can be audited.
    ensures fit { IfOk result (λ l. All (λ s. AreLogs l.graph (logs_of s) (reported_of s)) l.sessions) }
{
    read_text(alloc, bytes)
}

// The logs, or the first wrong line, as lines are read one by one.
fn read_text(alloc: Global, bytes: &[u8]) -> Result<Logs, LogFault>
    requires { length bytes.now + 1 < 2 ^ 32 }
    ensures exact { MatchResult result (λ l. read bytes.now ≡ Ok (logs_held l)) (Refuses (read bytes.now)) }
    ensures early { IsFalse (begins_block (lines_of bytes.now)) → result ≢ Err LogFault.OutOfMemory }
    ensures fit { IfOk result (λ l. All (λ s. AreLogs l.graph (logs_of s) (reported_of s)) l.sessions) }
{
    let mut lines = Lines::new(bytes);
    skip_to_block(&mut lines)?;
    let graph = read_graph(alloc, &mut lines)?;
    match read_sessions(alloc, &graph, &mut lines) {
        Ok(sessions) => Ok(Logs { graph, sessions }),
        Err(fault) => Err(fault),
    }
}

// Takes lines off up to `graph {`.
fn skip_to_block(lines: &mut Lines<'_>) -> Result<(), LogFault>
    ensures exact { MatchResult result (λ _. read_lines (lines.old.number + 1) lines.old.lines ≡ read_block lines.new.number [] lines.new.lines) (Refuses (read_lines (lines.old.number + 1) lines.old.lines)) }
    ensures block { MatchResult result (λ _. first_block lines.old.lines ≡ block_text lines.new.lines) (λ _. first_block lines.old.lines ≡ None) }
    ensures early { result ≢ Err LogFault.OutOfMemory }
{
    'lines: while let Some(line) = lines.next() {
        if is_skipped(line_content(line)) {
            continue;
        }
        if opens(line) {
            return Ok(());
        }
        return Err(LogFault::Form {
            line: lines.number(),
        });
    }
    Err(LogFault::Form {
        line: lines.number() + 1,
    })
}

// The graph of the block whose opening line was taken off.
#[tactic(auto, using(crate::proofs::BlockText::begins_there, crate::proofs::BlockText::begins_not))]
fn read_graph(alloc: Global, lines: &mut Lines<'_>) -> Result<Graph, LogFault>
    ensures exact { MatchResult result (λ g. read_block lines.old.number [] lines.old.lines ≡ read_sessions g (lines.new.number + 1) nothing lines.new.lines) (Refuses (read_block lines.old.number [] lines.old.lines)) }
    ensures begins { OnOk result (IsTrue (begins_graph (block_text lines.old.lines))) }
    ensures early { IsFalse (begins_graph (block_text lines.old.lines)) → result ≢ Err LogFault.OutOfMemory }
{
    let text = block_text(lines)?;
    match parse_graph(alloc, text) {
        Ok(graph) => Ok(graph),
        Err(ParseFault::OutOfMemory) => Err(LogFault::OutOfMemory),
        Err(fault) => Err(LogFault::Graph { fault }),
    }
}

// The text of the block whose opening line was taken off.
#[tactic(auto, using(crate::proofs::BlockText::begun, crate::proofs::BlockText::inside, crate::proofs::BlockText::within, crate::proofs::BlockText::onward, crate::proofs::BlockText::closed, crate::proofs::BlockText::text_there, crate::proofs::BlockText::open_block, crate::proofs::BlockText::no_text))]
fn block_text<'a>(lines: &mut Lines<'a>) -> Result<&'a [u8], LogFault>
    ensures exact { MatchResult result (λ text. read_block lines.old.number [] lines.old.lines ≡ with_graph (parsed text.now) (lines.new.number + 1) lines.new.lines) (Refuses (read_block lines.old.number [] lines.old.lines)) }
    ensures text { MatchResult result (λ text. block_text lines.old.lines ≡ Some text.now) (λ _. block_text lines.old.lines ≡ None) }
    ensures early { result ≢ Err LogFault.OutOfMemory }
{
    let all = lines.rest();
    let mut end = 0usize;
    'lines: while let Some(line) = lines.next() {
        if closes(line) {
            return Ok(&all[..end]);
        }
        end += line.len();
    }
    Err(LogFault::Form {
        line: lines.number(),
    })
}

// The sessions of the lines that are left.
fn read_sessions(
    alloc: Global,
    graph: &Graph,
    lines: &mut Lines<'_>,
) -> Result<Seq<SessionLog>, LogFault>
    ensures exact { MatchResult result (λ s. read_sessions graph.now (lines.old.number + 1) nothing lines.old.lines ≡ Ok (record { graph = graph.now; sessions = map session_of s })) (Refuses (read_sessions graph.now (lines.old.number + 1) nothing lines.old.lines)) }
    ensures fit { IfOk result (All (λ s. AreLogs graph.now (logs_of s) (reported_of s))) }
{
    let _count = graph.roles();
    let mut reader = LogsReader::new(alloc);
    let sessions = sessions_of(alloc, graph, &mut reader, lines);
    drop(reader);
    sessions
}

// The sessions that the reader has so far, and those of all lines that are left.
fn sessions_of(
    alloc: Global,
    graph: &Graph,
    reader: &mut LogsReader,
    lines: &mut Lines<'_>,
) -> Result<Seq<SessionLog>, LogFault>
    ensures { MatchResult result (λ s. read_sessions graph.now (lines.old.number + 1) reader.old lines.old.lines ≡ Ok (record { graph = graph.now; sessions = map session_of s }))
        (Refuses (read_sessions graph.now (lines.old.number + 1) reader.old lines.old.lines)) }
{
    'lines: while let Some(line) = lines.next() {
        if let Err(stop) = take_line(alloc, graph, reader, line) {
            return Err(fault_at(lines.number(), stop));
        }
    }
    if !reader.is_whole(graph) {
        return Err(LogFault::Form {
            line: lines.number() + 1,
        });
    }
    match reader.sessions() {
        Ok(sessions) => Ok(sessions),
        Err(_) => Err(LogFault::OutOfMemory),
    }
}

// Takes a line with its line end.
#[tactic(auto, unfolding(crate::specs::Read::add_line))]
fn take_line(alloc: Global, graph: &Graph, reader: &mut LogsReader, line: &[u8]) -> Result<(), Stop>
    ensures { Takes (add_line graph.now reader.old line.now) reader.new result }
{
    if is_skipped(line_content(line)) {
        return Ok(());
    }
    match read_line(alloc, graph, &mut Words::new(line_content(line))) {
        Ok(Some(line)) => reader.add(graph, line),
        Ok(None) => Err(Stop::Wrong(Mistake::Form)),
        Err(_) => Err(Stop::OutOfMemory),
    }
}

// The fault of a line that isn't taken.
fn fault_at(line: u32, stop: Stop) -> LogFault
    ensures { result ≡ fault_at line stop }
{
    match stop {
        Stop::Wrong(Mistake::Form) => LogFault::Form { line },
        Stop::Wrong(Mistake::Unknown) => LogFault::Unknown { line },
        Stop::Wrong(Mistake::Twice) => LogFault::Twice { line },
        Stop::Wrong(Mistake::TooManyEvents) => LogFault::TooManyEvents,
        Stop::OutOfMemory => LogFault::OutOfMemory,
    }
}
