//! The graphs that the program is given.
ghost use Rattle.std.specs.Prelude.{IfErr, IfOk};
ghost use Rattle.sg_parse.specs.Grammar.{SpellsGraph};
ghost use Rattle.sg_ending.specs.Graphs.{IsNoGraph};
ghost use Rattle.sg_ending.specs.Model.{ending_held};

use crate::ending::Ending;
use sg_graph::Graph;
use sg_parse::{ParseFault, parse_graph};
use std::alloc::Global;

/// A graph file has at most 4 MiB.
pub const MOST_GRAPH_BYTES: u32 = 4_194_304;

/// The graph that the bytes spell, or how the program ends without one.
pub fn graph_of(alloc: Global, bytes: &[u8]) -> Result<Graph, Ending<'static>>
    ensures spelled { IfOk result (SpellsGraph bytes.now) }
    ensures none { IfErr result (λ ending. IsNoGraph bytes.now (ending_held ending)) }
{
    match parse_graph(alloc, bytes) {
        Ok(graph) => Ok(graph),
        Err(ParseFault::OutOfMemory) => Err(Ending::NoMemory),
        Err(fault) => Err(Ending::NoGraph { fault }),
    }
}
