//! The command `claims` on a graph alone: reads a graph, checks it, and writes claims that hold of it.
ghost use Rattle.std.specs.Prelude.{◌≡◌, IfOk};
ghost use Rattle.sg_ending.specs.Model.{ending_held};
ghost use Rattle.sg_design.specs.Claimed.{IsAcceptedText, IsSuggestion, Suggests};

use crate::claims::accepted;
use sg_base::{OutOfMemory, Sink, write_all};
use sg_claims_text::claims_text;
use sg_ending::Ending;
use sg_graph::Graph;
use std::alloc::Global;

/// Suggests claims of the graph that the bytes spell and writes their text, or says why not.
pub fn suggest<O: Sink>(alloc: Global, bytes: &[u8], out: &mut O) -> Ending<'static>
    ensures { Suggests bytes.now (record { bytes = O.written out.old; faults = O.faults out.old }) (record { bytes = O.written out.new; faults = O.faults out.new }) (ending_held result) }
{
    match accepted(alloc, bytes) {
        Ok(graph) => write_suggestion(alloc, bytes, &graph, out),
        Err(ending) => ending,
    }
}

// Writes the text of the claims that are suggested for the graph that the bytes spell.
fn write_suggestion<O: Sink>(
    alloc: Global,
    bytes: &[u8],
    graph: &Graph,
    out: &mut O,
) -> Ending<'static>
    requires { IsAcceptedText bytes.now graph.now }
    ensures { Suggests bytes.now (record { bytes = O.written out.old; faults = O.faults out.old }) (record { bytes = O.written out.new; faults = O.faults out.new }) (ending_held result) }
{
    match suggestion_text(alloc, graph) {
        Ok(text) => match write_all(out, text.as_slice()) {
            Ok(()) => Ending::Written,
            Err(_) => Ending::WriteFailed,
        },
        Err(_) => Ending::NoMemory,
    }
}

// The text of the claims that are suggested for a graph.
fn suggestion_text(alloc: Global, graph: &Graph) -> Result<Vec<u8>, OutOfMemory>
    ensures { IfOk result (λ text. IsSuggestion graph.now text.items) }
{
    // It is a graph.
    let _name = graph.name();
    let claims = sg_claims::suggest(alloc, graph)?;
    let text = claims_text(alloc, graph, claims.as_slice())?;
    Ok(text)
}
