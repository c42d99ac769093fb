//! Why a step was refused, in words.
ghost use Rattle.std.specs.Prelude.{◌≡◌, ◌++◌, OnErr, OnOk, codes, length, take};
ghost use Rattle.std.specs.Fmt.{decimal};
ghost use Rattle.sg_receipt.specs.Refusals.{act_refusal, delivery_refusal, graph_of_act_refusal, graph_of_delivery_refusal, start_refusal};
ghost use Rattle.sg_protocol.specs.Graph.{variable_name};
ghost use Rattle.sg_report.specs.Lines.{graph_or_none};
ghost use Rattle.sg_report.specs.Reasons.{act_text, refusal_text, start_text};

use sg_base::{ByteOut, Name, OutOfMemory, Time, Var};
use sg_graph::{Graph, put_var};
use sg_receipt::{ActRefusal, DeliveryRefusal, StartRefusal};

/// Writes why a start was refused.
pub(crate) fn put_start_refusal(out: &mut ByteOut, why: &StartRefusal) -> Result<(), OutOfMemory>
    ensures ok { OnOk result (out.new ≡ out.old ++ start_text (start_refusal why.now)) }
    ensures prefix { OnErr result (take (length out.old) out.new ≡ out.old) }
{
    match why {
        StartRefusal::UnknownGraph => put_words(out, b"unknown-graph"),
        StartRefusal::BadCast => put_words(out, b"bad-cast"),
        StartRefusal::UnknownPeer { name } => put_unknown_peer(out, name),
        StartRefusal::Joined => put_words(out, b"joined"),
        StartRefusal::CacheFull => put_words(out, b"cache-full"),
        StartRefusal::SessionsFull => put_words(out, b"sessions-full"),
    }
}

/// Writes why an act was refused.
pub(crate) fn put_act_refusal(out: &mut ByteOut, why: &ActRefusal<'_>) -> Result<(), OutOfMemory>
    ensures ok { OnOk result (out.new ≡ out.old ++ act_text (graph_or_none (graph_of_act_refusal why.now)) (act_refusal why.now)) }
    ensures prefix { OnErr result (take (length out.old) out.new ≡ out.old) }
{
    match why {
        ActRefusal::UnknownSession => put_words(out, b"unknown-session"),
        ActRefusal::NotYourTurn => put_words(out, b"not-your-turn"),
        ActRefusal::NoSuchLabel => put_words(out, b"no-such-label"),
        ActRefusal::BadValues { var, graph } => put_variable(out, b"bad-values ", graph, *var),
        ActRefusal::TimeSpent => put_words(out, b"time-spent"),
    }
}

/// Writes why a delivery was refused.
pub(crate) fn put_delivery_refusal(
    out: &mut ByteOut,
    why: &DeliveryRefusal<'_>,
) -> Result<(), OutOfMemory>
    ensures ok { OnOk result (out.new ≡ out.old ++ refusal_text (graph_or_none (graph_of_delivery_refusal why.now)) (delivery_refusal why.now)) }
    ensures prefix { OnErr result (take (length out.old) out.new ≡ out.old) }
{
    match why {
        DeliveryRefusal::Malformed { at } => put_number(out, b"malformed at ", *at),
        DeliveryRefusal::UnknownGraph => put_words(out, b"unknown-graph"),
        DeliveryRefusal::BadCast => put_words(out, b"bad-cast"),
        DeliveryRefusal::UnknownPeer { name } => put_unknown_peer(out, name),
        DeliveryRefusal::BadSession => put_words(out, b"bad-session"),
        DeliveryRefusal::Joined => put_words(out, b"joined"),
        DeliveryRefusal::CacheFull => put_words(out, b"cache-full"),
        DeliveryRefusal::SessionsFull => put_words(out, b"sessions-full"),
        DeliveryRefusal::UnknownSession => put_words(out, b"unknown-session"),
        DeliveryRefusal::NotWaiting => put_words(out, b"not-waiting"),
        DeliveryRefusal::BadFrameTag => put_words(out, b"bad-frame-tag"),
        DeliveryRefusal::NoSuchView => put_words(out, b"no-such-view"),
        DeliveryRefusal::BadTime { item, got, least } => put_bad_time(out, *item, *got, *least),
        DeliveryRefusal::BadEvidence { item } => put_number(out, b"bad-evidence item ", *item),
        DeliveryRefusal::BadOpening { var, graph } => put_variable(
            out,
            b"bad-opening ",
            graph,
            *var,
        ),
    }
}

fn put_unknown_peer(out: &mut ByteOut, name: &Name) -> Result<(), OutOfMemory>
    ensures ok { OnOk result (out.new ≡ out.old ++ (codes "unknown-peer " ++ name.now)) }
    ensures prefix { OnErr result (take (length out.old) out.new ≡ out.old) }
{
    out.bytes(b"unknown-peer ")?;
    out.bytes(name.as_bytes())
}

// Writes words.
fn put_words(out: &mut ByteOut, words: &[u8]) -> Result<(), OutOfMemory>
    ensures ok { OnOk result (out.new ≡ out.old ++ words.now) }
    ensures prefix { OnErr result (take (length out.old) out.new ≡ out.old) }
{
    out.bytes(words)
}

/// Writes words and a number.
pub(crate) fn put_number(out: &mut ByteOut, words: &[u8], number: u32) -> Result<(), OutOfMemory>
    ensures ok { OnOk result (out.new ≡ out.old ++ (words.now ++ decimal number)) }
    ensures prefix { OnErr result (take (length out.old) out.new ≡ out.old) }
{
    out.bytes(words)?;
    out.decimal(number as u64)
}

fn put_bad_time(out: &mut ByteOut, item: u32, got: Time, least: Time) -> Result<(), OutOfMemory>
    ensures ok { OnOk result (out.new ≡ out.old ++ (codes "bad-time item " ++ decimal item ++ codes " got " ++ decimal got ++ codes " least " ++ decimal least)) }
    ensures prefix { OnErr result (take (length out.old) out.new ≡ out.old) }
{
    put_number(out, b"bad-time item ", item)?;
    put_number(out, b" got ", got.0)?;
    put_number(out, b" least ", least.0)
}

// Writes words and the name of a variable of a graph.
fn put_variable(out: &mut ByteOut, words: &[u8], graph: &Graph, var: Var) -> Result<(), OutOfMemory>
    ensures ok { OnOk result (out.new ≡ out.old ++ (words.now ++ variable_name graph.now var)) }
    ensures prefix { OnErr result (take (length out.old) out.new ≡ out.old) }
{
    out.bytes(words)?;
    put_var(out, graph, var)
}
