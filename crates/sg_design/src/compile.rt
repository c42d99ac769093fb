//! The command `compile`: parses a graph, compiles it for one of its roles, and writes the program.
ghost use Rattle.std.specs.Prelude.{◌≡◌, ◌<◌, ◌≤◌, length, IsTrue, MatchOption, MatchResult};
ghost use Rattle.sg_model.specs.Lists.{has_text};
ghost use Rattle.sg_protocol.specs.Graph.{role_name};
ghost use Rattle.sg_parse.specs.Grammar.{SpellsGraph};
ghost use Rattle.sg_compile.specs.Compiled.{IsCompiled};
ghost use Rattle.sg_ending.specs.Ending.{GraphRefused};
ghost use Rattle.sg_ending.specs.Model.{ending_held};
ghost use Rattle.sg_design.specs.Ends.{Compiles, RefusesRole};

use sg_base::{Name, Role, Sink, write_all};
use sg_compile::{CompileFault, check_graph, compile as program_of, encode};
use sg_ending::{Ending, graph_of};
use sg_graph::Graph;
use sg_program::Program;
use std::alloc::Global;

/// Compiles the graph that the bytes spell for the role of this name and writes the program, or says why not.
pub fn compile<'w, O: Sink>(alloc: Global, bytes: &[u8], name: &'w str, out: &mut O) -> Ending<'w>
    ensures { Compiles name.now bytes.now (record { bytes = O.written out.old; faults = O.faults out.old }) (record { bytes = O.written out.new; faults = O.faults out.new }) (ending_held result) }
{
    match graph_of(alloc, bytes) {
        Ok(graph) => match role_named(&graph, name) {
            Some(role) => compile_role(alloc, bytes, graph, role, name, out),
            None => refuse_role(alloc, graph, name),
        },
        Err(ending) => ending,
    }
}

// The role of this name.
fn role_named(graph: &Graph, name: &str) -> Option<Role>
    ensures { MatchOption result (IsTrue (has_text name.now graph.now.roles) → ⊥) (λ r. (r < length graph.now.roles) × (role_name graph.now r ≡ name.now)) }
{
    // Each role's name is a name, as the graph's accessors say.
    let _count = graph.roles();
    match Name::new(name.as_bytes()) {
        Some(name) => graph.find_role(&name),
        None => None,
    }
}

// Compiles the graph that the bytes spell for its role of this name.
fn compile_role<O: Sink>(
    alloc: Global,
    bytes: &[u8],
    graph: Graph,
    role: Role,
    name: &str,
    out: &mut O,
) -> Ending<'static>
    requires spelled { SpellsGraph bytes.now graph }
    requires there { role < length graph.roles }
    requires named { role_name graph role ≡ name.now }
    ensures { Compiles name.now bytes.now (record { bytes = O.written out.old; faults = O.faults out.old }) (record { bytes = O.written out.new; faults = O.faults out.new }) (ending_held result) }
{
    match write_if_compiled(alloc, bytes, &graph, role, name, out) {
        Ok(ending) => ending,
        Err(fault) => Ending::GraphRefused { graph, fault },
    }
}

// Writes the program of the graph that the bytes spell for its role of this name, if it is compiled; else says why it isn't.
fn write_if_compiled<O: Sink>(
    alloc: Global,
    bytes: &[u8],
    graph: &Graph,
    role: Role,
    name: &str,
    out: &mut O,
) -> Result<Ending<'static>, CompileFault>
    requires spelled { SpellsGraph bytes.now graph.now }
    requires there { role < length graph.now.roles }
    requires named { role_name graph.now role ≡ name.now }
    ensures { MatchResult result (λ e. Compiles name.now bytes.now (record { bytes = O.written out.old; faults = O.faults out.old }) (record { bytes = O.written out.new; faults = O.faults out.new }) (ending_held e)) (λ f. Compiles name.now bytes.now (record { bytes = O.written out.old; faults = O.faults out.old }) (record { bytes = O.written out.new; faults = O.faults out.new }) (GraphRefused graph.now f)) }
{
    match program_of(alloc, graph, role) {
        Ok(program) => Ok(say_program(alloc, bytes, graph, role, &program, name, out)),
        Err(CompileFault::OutOfMemory) => Ok(Ending::NoMemory),
        Err(fault) => Err(fault),
    }
}

// How a graph without a role of this name is refused: as a graph, if it isn't accepted.
fn refuse_role<'w>(alloc: Global, graph: Graph, name: &'w str) -> Ending<'w>
    requires { 2 ≤ length graph.roles }
    ensures { RefusesRole graph name.now (ending_held result) }
{
    match check_graph(alloc, &graph) {
        Ok(()) => Ending::NoRole { role: name },
        Err(CompileFault::OutOfMemory) => Ending::NoMemory,
        Err(fault) => Ending::GraphRefused { graph, fault },
    }
}

// Writes the program of the graph that the bytes spell for its role of this name.
fn say_program<O: Sink>(
    alloc: Global,
    bytes: &[u8],
    graph: &Graph,
    role: Role,
    program: &Program,
    name: &str,
    out: &mut O,
) -> Ending<'static>
    requires spelled { SpellsGraph bytes.now graph.now }
    requires named { role_name graph.now role ≡ name.now }
    requires compiled { IsCompiled graph.now role program.now }
    ensures { Compiles name.now bytes.now (record { bytes = O.written out.old; faults = O.faults out.old }) (record { bytes = O.written out.new; faults = O.faults out.new }) (ending_held result) }
{
    match encode(alloc, program) {
        Ok(text) => match write_all(out, text.as_slice()) {
            Ok(()) => Ending::Written,
            Err(_) => Ending::WriteFailed,
        },
        Err(_) => Ending::NoMemory,
    }
}
