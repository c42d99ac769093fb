//! The programs of several graphs.
ghost use Rattle.std.specs.List.{All};
ghost use Rattle.std.specs.Prelude.{◌≡◌, ◌≢◌, ◌≤◌, ◌<◌, ◌^◌, ◌++◌, [], length, map, IfErr, IfOk, IsTrue, OnOk};
ghost use Rattle.sg_model.specs.Lists.{all_differ};
ghost use Rattle.sg_protocol.specs.IsSchedule.{AreCompiled};
ghost use Rattle.sg_protocol.specs.Texts.{real};
ghost use Rattle.sg_compile.specs.All.{IsAllFault, IsGraphFault, all_fault, pairs_of, roles_of};
ghost use Rattle.sg_compile.specs.Compiled.{IsWhole};

use crate::check::{CompileFault, check_graph};
use crate::compiler::compile_accepted;
use sg_base::Role;
use sg_graph::Graph;
use sg_program::Programs;
use std::alloc::Global;
use thiserror::Error;

/// Why graphs aren't compiled.
#[derive(Debug, Drop, Error)]
pub enum AllFault {
    /// The first graph that isn't compiled for one of its roles, by its index from 0, and the fault of its first such role. The fault
    /// isn't `OutOfMemory`.
    #[error("graph {index}: {fault}")]
    Refused { index: u32, fault: CompileFault },
    /// Out of memory.
    #[error("out of memory")]
    OutOfMemory,
}

/// The programs of all roles of all graphs, in order: each graph is checked once, and then compiled for its roles; or the fault of
/// the first that is refused. The names of the graphs differ, and each has two roles or more. It takes memory as compiling each does,
/// and for the programs.
pub fn compile_all(alloc: Global, graphs: &[Graph]) -> Result<Programs, AllFault>
    requires names { IsTrue (all_differ (map (λ g. g.name) graphs.now)) }
    requires two { All (λ g. 2 ≤ length g.roles) graphs.now }
    requires few { length graphs.now < 2 ^ 32 }
    ensures compiled { IfOk result (AreCompiled real graphs.now) }
    ensures few { IfOk result (All IsWhole) }
    ensures refused { IfErr result (IsAllFault graphs.now) }
{
    let mut programs = Programs::new(alloc);
    match add_all(alloc, &mut programs, graphs) {
        Ok(()) => Ok(programs),
        Err(fault) => Err(fault),
    }
}

// Adds the programs of all roles of the graphs, as the first ones.
fn add_all(alloc: Global, programs: &mut Programs, graphs: &[Graph]) -> Result<(), AllFault>
    requires first { programs.old ≡ [] }
    requires names { IsTrue (all_differ (map (λ g. g.name) graphs.now)) }
    requires two { All (λ g. 2 ≤ length g.roles) graphs.now }
    requires few { length graphs.now < 2 ^ 32 }
    ensures compiled { OnOk result (AreCompiled real graphs.now programs.new) }
    ensures few { OnOk result (All IsWhole programs.new) }
    ensures refused { IfErr result (IsAllFault graphs.now) }
{
    for (index, graph) in graphs.iter().enumerate() {
        add_roles(alloc, programs, index as u32, graph)?;
    }
    Ok(())
}

// Adds the programs of all roles of a graph, whose index is reported if it isn't compiled.
fn add_roles(
    alloc: Global,
    programs: &mut Programs,
    index: u32,
    graph: &Graph,
) -> Result<(), AllFault>
    requires two { 2 ≤ length graph.now.roles }
    requires each { All IsWhole programs.old }
    requires new { All (λ q. q.graph.name ≢ graph.now.name) programs.old }
    ensures each { OnOk result (All IsWhole programs.new) }
    ensures added { OnOk result (pairs_of programs.new ≡ pairs_of programs.old ++ roles_of graph.now (length graph.now.roles)) }
    ensures refused { IfErr result (IsGraphFault programs.old index graph.now) }
{
    if let Err(fault) = check_graph(alloc, graph) {
        return Err(fault_at(index, fault));
    }
    for number in 0..graph.roles() {
        match compile_accepted(alloc, graph, Role(number)) {
            Ok(program) => match programs.push(program) {
                Ok(()) => {}
                Err(_) => return Err(AllFault::OutOfMemory),
            },
            Err(fault) => return Err(fault_at(index, fault)),
        }
    }
    Ok(())
}

// A fault of the graph at its index.
fn fault_at(index: u32, fault: CompileFault) -> AllFault
    ensures { result ≡ all_fault index fault }
{
    match fault {
        CompileFault::OutOfMemory => AllFault::OutOfMemory,
        fault => AllFault::Refused { index, fault },
    }
}
