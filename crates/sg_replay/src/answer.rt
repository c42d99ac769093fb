//! What audits say, as text.
ghost use Rattle.std.specs.Prelude.{◌≡◌, ◌++◌, ℕ, List, All, IfOk, OnOk, codes, map};
ghost use Rattle.sg_audit.specs.Agree.{AreLogs};
ghost use Rattle.sg_audit.specs.Answers.{IsAnswer};
ghost use Rattle.sg_audit.specs.Model.{logs_of, reported_of};
ghost use Rattle.sg_audit.specs.TakingLines.{session_of};
ghost use Rattle.sg_protocol.specs.Walk.{IsStoredWalk};
ghost use Rattle.sg_walk.specs.Model.{steps_of};
ghost use Rattle.sg_replay.specs.Audited.{AllAnswered, Answered, answer_text, clash_text, reply_text, yes_text};

use sg_audit::{Audit, SessionLog, audit, roles_of};
use sg_base::{ByteOut, Name, OutOfMemory, Time};
use sg_graph::Graph;
use sg_text::put_walk;
use sg_walk::StoredWalk;
use std::alloc::Global;

/// Audits sessions, and gives the lines of the answers.
pub fn answers_text(
    alloc: Global,
    graph: &Graph,
    sessions: &[SessionLog],
) -> Result<Vec<u8>, OutOfMemory>
    requires { All (λ s. AreLogs graph.now (logs_of s) (reported_of s)) sessions.now }
    ensures { IfOk result (λ text. AllAnswered graph.now (map session_of sessions.now) text.items) }
{
    let mut text = ByteOut::new(alloc);
    'sessions: for session in sessions {
        put_session(alloc, &mut text, graph, session)?;
    }
    Ok(text.done())
}

// Audits a session and writes the answer.
fn put_session(
    alloc: Global,
    out: &mut ByteOut,
    graph: &Graph,
    session: &SessionLog,
) -> Result<(), OutOfMemory>
    requires { AreLogs graph.now (logs_of session.now) (reported_of session.now) }
    ensures { OnOk result ((text : List ℕ) × Answered graph.now (session_of session.now) text × (out.new ≡ out.old ++ text)) }
{
    let answer = audit(alloc, graph, session)?;
    put_answer(out, graph, session, &answer)
}

// Writes the right answer of a session.
#[tactic(auto, using(crate::proofs::Answered::walk_of_yes))]
fn put_answer(
    out: &mut ByteOut,
    graph: &Graph,
    session: &SessionLog,
    answer: &Audit,
) -> Result<(), OutOfMemory>
    requires logs { AreLogs graph.now (logs_of session.now) (reported_of session.now) }
    requires answer { IsAnswer graph.now (logs_of session.now) (reported_of session.now) answer.now }
    ensures { OnOk result (out.new ≡ out.old ++ answer_text graph.now (session_of session.now) answer.now) }
{
    match answer {
        Audit::Yes(walk) => put_yes(out, graph, session, walk),
        Audit::Clash { time } => put_clash(out, &session.name, *time),
        Audit::No => put_reply(out, &session.name, b" no\n"),
    }
}

// Writes that the logs of a session agree, and the walk with which they do.
fn put_yes(
    out: &mut ByteOut,
    graph: &Graph,
    session: &SessionLog,
    walk: &StoredWalk,
) -> Result<(), OutOfMemory>
    requires logs { AreLogs graph.now (logs_of session.now) (reported_of session.now) }
    requires walk { IsStoredWalk graph.now (steps_of walk.now) }
    ensures { OnOk result (out.new ≡ out.old ++ yes_text graph.now (session_of session.now) (steps_of walk.now)) }
{
    // What the type says of a graph: there are at most 16 roles, and its edges have its variables.
    let _roles = graph.roles();
    let honest = roles_of(session.logs.as_slice());
    put_reply(out, &session.name, b" yes\n")?;
    put_walk(out, session.name.as_bytes(), graph, honest, walk)
}

// Writes what is said of the session of this name.
fn put_reply(out: &mut ByteOut, name: &Name, reply: &[u8]) -> Result<(), OutOfMemory>
    ensures { OnOk result (out.new ≡ out.old ++ reply_text name.now reply.now) }
{
    out.bytes(b"audit ")?;
    out.bytes(name.as_bytes())?;
    out.bytes(reply)
}

// Writes at which time the logs clash.
fn put_clash(out: &mut ByteOut, name: &Name, time: Time) -> Result<(), OutOfMemory>
    ensures { OnOk result (out.new ≡ out.old ++ clash_text name.now time) }
{
    put_reply(out, name, b" clash at time ")?;
    out.decimal(time.0 as u64)?;
    out.bytes(b"\n")
}
