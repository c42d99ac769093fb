//! Events.
ghost use Rattle.std.specs.Prelude.{◌≡◌, ◌++◌, OnErr, OnOk, length, take};
ghost use Rattle.sg_walk.specs.Model.{event_of};
ghost use Rattle.sg_text.specs.Events.{event_text, event_values, moved_text, sent_to};

use crate::value::put_values;
use sg_base::{ByteOut, Label, Name, OutOfMemory, Time};
use sg_graph::{Graph, put_label, put_role};
use sg_walk::Event;

/// Appends an event without its values, in a session of this name; a role or a label that the graph hasn't has no name. If memory runs out,
/// what was there still stands first.
pub fn put_event(
    out: &mut ByteOut,
    session: &[u8],
    graph: &Graph,
    event: &Event,
) -> Result<(), OutOfMemory>
    ensures ok { OnOk result (out.new ≡ out.old ++ event_text session.now graph.now (event_of event.now)) }
    ensures prefix { OnErr result (take (length out.old) out.new ≡ out.old) }
{
    match event {
        Event::Started { role, .. } => {
            out.bytes(session)?;
            out.bytes(b" started as ")?;
            put_role(out, graph, *role)
        }
        Event::Sent { label, time, .. } => {
            put_moved(out, session, b" sent ", graph, *label, *time)
        }
        Event::Received { label, time, .. } => {
            put_moved(out, session, b" received ", graph, *label, *time)
        }
    }
}

// Writes a step along a label's edge.
fn put_moved(
    out: &mut ByteOut,
    session: &[u8],
    word: &[u8],
    graph: &Graph,
    label: Label,
    time: Time,
) -> Result<(), OutOfMemory>
    ensures ok { OnOk result (out.new ≡ out.old ++ moved_text session.now word.now graph.now label time) }
    ensures prefix { OnErr result (take (length out.old) out.new ≡ out.old) }
{
    out.bytes(session)?;
    out.bytes(word)?;
    put_label(out, graph, label)?;
    out.bytes(b" time ")?;
    out.decimal(time.0 as u64)
}

/// Appends to whom a frame goes, and the frame's number. If memory runs out, what was there still stands first.
pub fn put_sent_to(out: &mut ByteOut, to: &Name, frame: u64) -> Result<(), OutOfMemory>
    ensures ok { OnOk result (out.new ≡ out.old ++ sent_to to.now frame) }
    ensures prefix { OnErr result (take (length out.old) out.new ≡ out.old) }
{
    out.bytes(b" to ")?;
    out.bytes(to.as_bytes())?;
    out.bytes(b" as f")?;
    out.decimal(frame)
}

/// Appends the values of an event; a variable that the graph hasn't has no name. If memory runs out, what was there still stands first.
pub fn put_event_values(out: &mut ByteOut, graph: &Graph, event: &Event) -> Result<(), OutOfMemory>
    ensures ok { OnOk result (out.new ≡ out.old ++ event_values graph.now (event_of event.now)) }
    ensures prefix { OnErr result (take (length out.old) out.new ≡ out.old) }
{
    match event {
        Event::Started { .. } => Ok(()),
        Event::Sent { values, .. } => put_values(out, graph, values.as_slice()),
        Event::Received { values, .. } => put_values(out, graph, values.as_slice()),
    }
}
