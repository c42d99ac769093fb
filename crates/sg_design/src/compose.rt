//! The command `compose`: reads parts, expands them, checks the expansion and writes its canonical text.
ghost use Rattle.std.specs.Prelude.{◌≡◌, ◌≤◌, ◌∷◌, [], All, MatchResult, Ok, length};
ghost use Rattle.sg_protocol.specs.IsSchedule.{AreCompiled};
ghost use Rattle.sg_protocol.specs.Texts.{real};
ghost use Rattle.sg_compile.specs.Compiled.{IsWhole};
ghost use Rattle.sg_parse.specs.PartsGrammar.{SpellsParts};
ghost use Rattle.sg_compose.specs.Expansion.{expansion};
ghost use Rattle.sg_compose.specs.Laws.{IsComposed};
ghost use Rattle.sg_ending.specs.Ending.{GraphRefused};
ghost use Rattle.sg_ending.specs.Model.{ending_held};
ghost use Rattle.sg_design.specs.Ends.{Composes};

use sg_base::{Sink, write_all};
use sg_compile::{AllFault, CompileFault, compile_all};
use sg_compose::{ComposeFault, expand};
use sg_ending::Ending;
use sg_graph::{Graph, canonical_text};
use sg_parse::{ParseFault, Part, parse_parts};
use sg_program::Programs;
use std::alloc::Global;
use std::slice;

/// Expands the parts that the bytes spell and writes the canonical text of their expansion, or says why not.
pub fn compose<O: Sink>(alloc: Global, bytes: &[u8], out: &mut O) -> Ending<'static>
    ensures { Composes bytes.now (record { bytes = O.written out.old; faults = O.faults out.old }) (record { bytes = O.written out.new; faults = O.faults out.new }) (ending_held result) }
{
    match parse_parts(alloc, bytes) {
        Ok(parts) => compose_parts(alloc, bytes, parts.as_slice(), out),
        Err(ParseFault::OutOfMemory) => Ending::NoMemory,
        Err(fault) => Ending::NoGraph { fault },
    }
}

// Expands the parts that the bytes spell.
fn compose_parts<O: Sink>(
    alloc: Global,
    bytes: &[u8],
    parts: &[Part],
    out: &mut O,
) -> Ending<'static>
    requires { SpellsParts bytes.now parts.now }
    ensures { Composes bytes.now (record { bytes = O.written out.old; faults = O.faults out.old }) (record { bytes = O.written out.new; faults = O.faults out.new }) (ending_held result) }
{
    match expand(alloc, parts) {
        Ok(graph) => check_expansion(alloc, bytes, parts, graph, out),
        Err(ComposeFault::OutOfMemory) => Ending::NoMemory,
        Err(fault) => Ending::NoExpansion { fault },
    }
}

// Checks the expansion of the parts that the bytes spell.
fn check_expansion<O: Sink>(
    alloc: Global,
    bytes: &[u8],
    parts: &[Part],
    graph: Graph,
    out: &mut O,
) -> Ending<'static>
    requires spelled { SpellsParts bytes.now parts.now }
    requires expanded { expansion parts.now ≡ Ok graph }
    requires keeps { IsComposed parts.now graph }
    requires two { 2 ≤ length graph.roles }
    ensures { Composes bytes.now (record { bytes = O.written out.old; faults = O.faults out.old }) (record { bytes = O.written out.new; faults = O.faults out.new }) (ending_held result) }
{
    match write_if_accepted(alloc, bytes, parts, &graph, out) {
        Ok(ending) => ending,
        Err(fault) => Ending::GraphRefused { graph, fault },
    }
}

// Writes the text of the expansion of the parts that the bytes spell, if it is accepted; else says why it isn't.
fn write_if_accepted<O: Sink>(
    alloc: Global,
    bytes: &[u8],
    parts: &[Part],
    graph: &Graph,
    out: &mut O,
) -> Result<Ending<'static>, CompileFault>
    requires spelled { SpellsParts bytes.now parts.now }
    requires expanded { expansion parts.now ≡ Ok graph.now }
    requires keeps { IsComposed parts.now graph.now }
    requires two { 2 ≤ length graph.now.roles }
    ensures { MatchResult result (λ e. Composes bytes.now (record { bytes = O.written out.old; faults = O.faults out.old }) (record { bytes = O.written out.new; faults = O.faults out.new }) (ending_held e)) (λ f. Composes bytes.now (record { bytes = O.written out.old; faults = O.faults out.old }) (record { bytes = O.written out.new; faults = O.faults out.new }) (GraphRefused graph.now f)) }
{
    match compile_all(alloc, slice::from_ref(graph)) {
        Ok(programs) => Ok(write_expansion(alloc, bytes, parts, graph, &programs, out)),
        Err(AllFault::Refused { fault, .. }) => Err(fault),
        Err(AllFault::OutOfMemory) => Ok(Ending::NoMemory),
    }
}

// Writes the text of an expansion that is accepted.
fn write_expansion<O: Sink>(
    alloc: Global,
    bytes: &[u8],
    parts: &[Part],
    graph: &Graph,
    programs: &Programs,
    out: &mut O,
) -> Ending<'static>
    requires spelled { SpellsParts bytes.now parts.now }
    requires expanded { expansion parts.now ≡ Ok graph.now }
    requires keeps { IsComposed parts.now graph.now }
    requires compiled { AreCompiled real (graph.now ∷ []) programs.now }
    requires few { All IsWhole programs.now }
    ensures { Composes bytes.now (record { bytes = O.written out.old; faults = O.faults out.old }) (record { bytes = O.written out.new; faults = O.faults out.new }) (ending_held result) }
{
    // The programs show that the checks accept the graph.
    let _ = programs;
    match canonical_text(alloc, graph) {
        Ok(text) => match write_all(out, text.as_slice()) {
            Ok(()) => Ending::Written,
            Err(_) => Ending::WriteFailed,
        },
        Err(_) => Ending::NoMemory,
    }
}
