//! The command `check`: parses a graph, compiles it, and says whether it is accepted, and how many views each role has.
ghost use Rattle.std.specs.Prelude.{◌≡◌, ◌++◌, ◌∷◌, [], All, IfOk, MatchResult, OnOk};
ghost use Rattle.sg_protocol.specs.IsSchedule.{AreCompiled};
ghost use Rattle.sg_protocol.specs.Texts.{real};
ghost use Rattle.sg_parse.specs.Grammar.{SpellsGraph};
ghost use Rattle.sg_compile.specs.Compiled.{IsWhole};
ghost use Rattle.sg_ending.specs.Ending.{GraphRefused};
ghost use Rattle.sg_ending.specs.Model.{ending_held};
ghost use Rattle.sg_design.specs.Accepted.{accepted_line, check_text, views_line};
ghost use Rattle.sg_design.specs.Ends.{Checks};

use sg_base::{ByteOut, OutOfMemory, Sink, write_all};
use sg_compile::{AllFault, CompileFault, compile_all};
use sg_ending::{Ending, graph_of};
use sg_graph::Graph;
use sg_program::{Program, Programs};
use std::alloc::Global;
use std::slice;

/// Checks the graph that the bytes spell and writes that it is accepted, or says why not.
pub fn check<O: Sink>(alloc: Global, bytes: &[u8], out: &mut O) -> Ending<'static>
    ensures { Checks bytes.now (record { bytes = O.written out.old; faults = O.faults out.old }) (record { bytes = O.written out.new; faults = O.faults out.new }) (ending_held result) }
{
    match graph_of(alloc, bytes) {
        Ok(graph) => check_graph(alloc, bytes, graph, out),
        Err(ending) => ending,
    }
}

// Checks the graph that the bytes spell.
fn check_graph<O: Sink>(alloc: Global, bytes: &[u8], graph: Graph, out: &mut O) -> Ending<'static>
    requires { SpellsGraph bytes.now graph }
    ensures { Checks bytes.now (record { bytes = O.written out.old; faults = O.faults out.old }) (record { bytes = O.written out.new; faults = O.faults out.new }) (ending_held result) }
{
    match say_if_accepted(alloc, bytes, &graph, out) {
        Ok(ending) => ending,
        Err(fault) => Ending::GraphRefused { graph, fault },
    }
}

// Writes that the graph that the bytes spell is accepted, if it is; else says why it isn't.
fn say_if_accepted<O: Sink>(
    alloc: Global,
    bytes: &[u8],
    graph: &Graph,
    out: &mut O,
) -> Result<Ending<'static>, CompileFault>
    requires { SpellsGraph bytes.now graph.now }
    ensures { MatchResult result (λ e. Checks bytes.now (record { bytes = O.written out.old; faults = O.faults out.old }) (record { bytes = O.written out.new; faults = O.faults out.new }) (ending_held e)) (λ f. Checks bytes.now (record { bytes = O.written out.old; faults = O.faults out.old }) (record { bytes = O.written out.new; faults = O.faults out.new }) (GraphRefused graph.now f)) }
{
    match compile_all(alloc, slice::from_ref(graph)) {
        Ok(programs) => Ok(say_accepted(alloc, bytes, graph, &programs, out)),
        Err(AllFault::Refused { fault, .. }) => Err(fault),
        Err(AllFault::OutOfMemory) => Ok(Ending::NoMemory),
    }
}

// Writes that the graph that the bytes spell is accepted, and how many views each of its programs has.
fn say_accepted<O: Sink>(
    alloc: Global,
    bytes: &[u8],
    graph: &Graph,
    programs: &Programs,
    out: &mut O,
) -> Ending<'static>
    requires spelled { SpellsGraph bytes.now graph.now }
    requires compiled { AreCompiled real (graph.now ∷ []) programs.now }
    requires few { All IsWhole programs.now }
    ensures { Checks bytes.now (record { bytes = O.written out.old; faults = O.faults out.old }) (record { bytes = O.written out.new; faults = O.faults out.new }) (ending_held result) }
{
    match accepted_text(alloc, graph, programs.as_slice()) {
        Ok(text) => match write_all(out, text.as_slice()) {
            Ok(()) => Ending::Written,
            Err(_) => Ending::WriteFailed,
        },
        Err(_) => Ending::NoMemory,
    }
}

fn accepted_text(alloc: Global, graph: &Graph, programs: &[Program]) -> Result<Vec<u8>, OutOfMemory>
    ensures { IfOk result (λ text. text.items ≡ check_text graph.now programs.now) }
{
    let mut text = ByteOut::new(alloc);
    put_accepted(&mut text, graph)?;
    for program in programs {
        put_views(&mut text, program)?;
    }
    Ok(text.done())
}

// Writes that a graph is accepted.
fn put_accepted(out: &mut ByteOut, graph: &Graph) -> Result<(), OutOfMemory>
    ensures { OnOk result (out.new ≡ out.old ++ accepted_line graph.now) }
{
    out.bytes(b"accepted ")?;
    out.bytes(graph.name().as_bytes())?;
    out.u8(b'\n')
}

// Writes how many views a program has.
fn put_views(out: &mut ByteOut, program: &Program) -> Result<(), OutOfMemory>
    ensures { OnOk result (out.new ≡ out.old ++ views_line program.now) }
{
    out.bytes(b"views ")?;
    out.bytes(program.graph().role_name(program.role()).as_bytes())?;
    out.u8(b' ')?;
    out.decimal(program.views().len() as u64)?;
    out.u8(b'\n')
}
