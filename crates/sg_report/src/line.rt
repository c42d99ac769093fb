//! The line of a step.
ghost use Rattle.std.specs.Prelude.{◌≡◌, ◌++◌, IfOk, OnErr, OnOk, codes, length, take};
ghost use Rattle.std.specs.Fmt.{decimal};
ghost use Rattle.sg_walk.specs.Model.{event_of};
ghost use Rattle.sg_report.specs.Lines.{by_whom, graph_or_none, line_text, reported_text};
ghost use Rattle.sg_report.specs.Outcome.{graph_in, outcome_of};
ghost use Rattle.sg_report.specs.Reported.{Happened, Sends};

use crate::Outcome;
use crate::reason::{put_act_refusal, put_delivery_refusal, put_start_refusal};
use sg_base::{ByteOut, Name, OutOfMemory};
use sg_graph::Graph;
use sg_text::{put_event, put_event_values, put_sent_to};
use sg_walk::Event;
use std::alloc::Global;

/// The line of a step: its number, counted from 1, the principal, and the outcome, in a session of this name. A role, a label or a
/// variable that the graph beside it hasn't has no name. A craft is nobody's.
pub fn report_line(
    alloc: Global,
    step: u64,
    who: Name,
    session: &[u8],
    outcome: &Outcome<'_>,
) -> Result<Vec<u8>, OutOfMemory>
    ensures { IfOk result (λ text. text.items ≡ line_text session.now (graph_or_none (graph_in outcome.now)) step who (outcome_of outcome.now)) }
{
    let mut out = ByteOut::new(alloc);
    put_line(&mut out, step, who.as_bytes(), session, outcome)?;
    Ok(out.done())
}

/// Appends the line of a step to what is written. If memory runs out, what was written still stands first, with a part of the line
/// after it or nothing.
pub fn put_line(
    out: &mut ByteOut,
    step: u64,
    who: &[u8],
    session: &[u8],
    outcome: &Outcome<'_>,
) -> Result<(), OutOfMemory>
    ensures ok { OnOk result (out.new ≡ out.old ++ line_text session.now (graph_or_none (graph_in outcome.now)) step who.now (outcome_of outcome.now)) }
    ensures prefix { OnErr result (take (length out.old) out.new ≡ out.old) }
{
    out.decimal(step)?;
    out.u8(b' ')?;
    put_whom(out, who, outcome)?;
    put_reported(out, session, outcome)?;
    out.u8(b'\n')
}

// Writes the principal whose step it was, and nothing for a craft.
fn put_whom(out: &mut ByteOut, who: &[u8], outcome: &Outcome<'_>) -> Result<(), OutOfMemory>
    ensures ok { OnOk result (out.new ≡ out.old ++ by_whom who.now (outcome_of outcome.now)) }
    ensures prefix { take (length out.old) out.new ≡ out.old }
{
    match outcome {
        Outcome::Crafted { .. } => Ok(()),
        _ => {
            out.bytes(who)?;
            out.u8(b' ')
        }
    }
}

// Writes the outcome of a step.
fn put_reported(out: &mut ByteOut, session: &[u8], outcome: &Outcome<'_>) -> Result<(), OutOfMemory>
    ensures ok { OnOk result (out.new ≡ out.old ++ reported_text session.now (graph_or_none (graph_in outcome.now)) (outcome_of outcome.now)) }
    ensures prefix { OnErr result (take (length out.old) out.new ≡ out.old) }
{
    match outcome {
        Outcome::Started(begun) => put_happened(out, session, begun.graph, &begun.event),
        Outcome::Sent { sent, to, frame } => {
            put_sending(out, session, sent.graph, &sent.event, to, *frame)
        }
        Outcome::Received(receipt) => put_happened(out, session, receipt.graph(), receipt.event()),
        Outcome::Abandoned => put_abandoned(out, session),
        Outcome::Crafted { frame } => put_crafted(out, *frame),
        Outcome::NotStarted(why) => {
            out.bytes(b"refused ")?;
            put_start_refusal(out, why)
        }
        Outcome::NotActed(why) => {
            out.bytes(b"refused ")?;
            put_act_refusal(out, why)
        }
        Outcome::NotAbandoned => out.bytes(b"refused unknown-session"),
        Outcome::NotDelivered(why) => {
            out.bytes(b"refused ")?;
            put_delivery_refusal(out, why)
        }
        Outcome::NoFrame => out.bytes(b"refused no-frame"),
    }
}

fn put_happened(
    out: &mut ByteOut,
    session: &[u8],
    graph: &Graph,
    event: &Event,
) -> Result<(), OutOfMemory>
    ensures ok { OnOk result (out.new ≡ out.old ++ reported_text session.now graph.now (Happened (event_of event.now))) }
    ensures prefix { OnErr result (take (length out.old) out.new ≡ out.old) }
{
    put_event(out, session, graph, event)?;
    put_event_values(out, graph, event)
}

fn put_sending(
    out: &mut ByteOut,
    session: &[u8],
    graph: &Graph,
    event: &Event,
    to: &Name,
    frame: u64,
) -> Result<(), OutOfMemory>
    ensures ok { OnOk result (out.new ≡ out.old ++ reported_text session.now graph.now (Sends (event_of event.now) to.now frame)) }
    ensures prefix { OnErr result (take (length out.old) out.new ≡ out.old) }
{
    put_event(out, session, graph, event)?;
    put_sent_to(out, to, frame)?;
    put_event_values(out, graph, event)
}

fn put_abandoned(out: &mut ByteOut, session: &[u8]) -> Result<(), OutOfMemory>
    ensures ok { OnOk result (out.new ≡ out.old ++ (session.now ++ codes " abandoned")) }
    ensures prefix { OnErr result (take (length out.old) out.new ≡ out.old) }
{
    out.bytes(session)?;
    out.bytes(b" abandoned")
}

fn put_crafted(out: &mut ByteOut, frame: u64) -> Result<(), OutOfMemory>
    ensures ok { OnOk result (out.new ≡ out.old ++ (codes "crafted f" ++ decimal frame)) }
    ensures prefix { OnErr result (take (length out.old) out.new ≡ out.old) }
{
    out.bytes(b"crafted f")?;
    out.decimal(frame)
}
