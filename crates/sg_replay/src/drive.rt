//! The command `drive`: reads a graph, compiles it, generates a run of it in many sessions over a network that loses, repeats and reorders
//! frames, and writes what came of it.
//!
//! The run is that of a schedule, which the generator's rules choose, so what holds of every replay holds of it (`sg_drive`).
ghost use Rattle.std.specs.Prelude.{◌≡◌, ◌≤◌, ◌∷◌, [], All, IfErr, IfOk, length};
ghost use Rattle.sg_model.specs.Limits.{most_driven};
ghost use Rattle.sg_protocol.specs.IsSchedule.{AreCompiled};
ghost use Rattle.sg_protocol.specs.Texts.{real};
ghost use Rattle.sg_parse.specs.Grammar.{SpellsGraph};
ghost use Rattle.sg_compile.specs.Compiled.{IsWhole};
ghost use Rattle.sg_ending.specs.Model.{ending_held};
ghost use Rattle.sg_replay.specs.Driven.{StopsDrive, Sums};
ghost use Rattle.sg_replay.specs.Ends.{Drives};

use sg_base::{Sink, write_all};
use sg_compile::{AllFault, compile_all};
use sg_drive::{GenerateFault, generate, summary};
use sg_ending::{Ending, graph_of};
use sg_graph::Graph;
use sg_program::Programs;
use std::alloc::Global;
use std::{mem, slice};

/// Generates the run that a seed chooses for `sessions` sessions of the graph that the bytes spell, from 1 to 2,000, and writes its summary, or says
/// why not.
pub fn drive<O: Sink>(
    alloc: Global,
    seed: u32,
    sessions: u32,
    bytes: &[u8],
    out: &mut O,
) -> Ending<'static>
    requires { (1 ≤ sessions) × (sessions ≤ most_driven) }
    ensures { Drives seed sessions bytes.now
        (record { bytes = O.written out.old; faults = O.faults out.old }) (record { bytes = O.written out.new; faults = O.faults out.new }) (ending_held result) }
{
    match graph_of(alloc, bytes) {
        Ok(graph) => drive_graph(alloc, seed, sessions, bytes, graph, out),
        Err(ending) => ending,
    }
}

// Compiles the graph that the bytes spell, and generates a run of it.
fn drive_graph<O: Sink>(
    alloc: Global,
    seed: u32,
    sessions: u32,
    bytes: &[u8],
    graph: Graph,
    out: &mut O,
) -> Ending<'static>
    requires sessions { (1 ≤ sessions) × (sessions ≤ most_driven) }
    requires spelled { SpellsGraph bytes.now graph }
    ensures { Drives seed sessions bytes.now
        (record { bytes = O.written out.old; faults = O.faults out.old }) (record { bytes = O.written out.new; faults = O.faults out.new }) (ending_held result) }
{
    match compile_all(alloc, slice::from_ref(&graph)) {
        Ok(programs) => {
            let ending = say_summary(alloc, seed, sessions, bytes, &graph, &programs, out);
            drop(programs);
            drop(graph);
            ending
        }
        Err(AllFault::Refused { fault, .. }) => Ending::GraphRefused { graph, fault },
        Err(AllFault::OutOfMemory) => {
            drop(graph);
            Ending::NoMemory
        }
    }
}

// Generates a run of the graph that the bytes spell over its programs, and writes the summary.
fn say_summary<O: Sink>(
    alloc: Global,
    seed: u32,
    sessions: u32,
    bytes: &[u8],
    graph: &Graph,
    programs: &Programs,
    out: &mut O,
) -> Ending<'static>
    requires sessions { (1 ≤ sessions) × (sessions ≤ most_driven) }
    requires spelled { SpellsGraph bytes.now graph.now }
    requires compiled { AreCompiled real (graph.now ∷ []) programs.now }
    requires few { All IsWhole programs.now }
    ensures { Drives seed sessions bytes.now
        (record { bytes = O.written out.old; faults = O.faults out.old }) (record { bytes = O.written out.new; faults = O.faults out.new }) (ending_held result) }
{
    match summary_of(alloc, seed, sessions, graph, programs) {
        Ok(text) => match write_all(out, text.as_slice()) {
            Ok(()) => Ending::Written,
            Err(_) => Ending::WriteFailed,
        },
        Err(ending) => ending,
    }
}

// Generates a run of the graph over its programs, and gives the summary, or says how the program ends without one.
fn summary_of(
    alloc: Global,
    seed: u32,
    sessions: u32,
    graph: &Graph,
    programs: &Programs,
) -> Result<Vec<u8>, Ending<'static>>
    requires sessions { (1 ≤ sessions) × (sessions ≤ most_driven) }
    requires two { 2 ≤ length graph.now.roles }
    requires compiled { AreCompiled real (graph.now ∷ []) programs.now }
    ensures sums { IfOk result (λ text. Sums seed sessions graph.now programs.now text.items) }
    ensures stops { IfErr result (λ ending. StopsDrive seed sessions graph.now programs.now (ending_held ending)) }
{
    match generate(alloc, seed, sessions, graph, programs) {
        Ok(driven) => {
            driven.world.laws();
            let text = summary(alloc, graph, &driven);
            // The program ends next, so the run isn't given back piece by piece.
            mem::forget(driven);
            match text {
                Ok(text) => Ok(text),
                Err(_) => Err(Ending::NoMemory),
            }
        }
        Err(GenerateFault::RecordFull { .. }) => Err(Ending::TooLarge { what: "record" }),
        Err(GenerateFault::OutOfMemory) => Err(Ending::NoMemory),
    }
}
