//! Graphs from texts.
ghost use Rattle.std.specs.Prelude.{◌≡◌, ◌≢◌, ◌≤◌, ◌↔◌, ℕ, List, codes, length, Ok, Err, MatchResult, IfOk, IsErr};
ghost use Rattle.sg_protocol.specs.Graph.{Graph, IsGraph, canonical};
ghost use Rattle.sg_parse.specs.Grammar.{SpellsGraph};
ghost use Rattle.sg_parse.specs.Owed.{Reads, ReadsInto, Refuses};
ghost use Rattle.sg_parse.specs.Reading.{read, read_beginning, read_text, read_head, read_role, read_statements, statement};
ghost use Rattle.sg_parse.specs.Tokens.{tokens};

use crate::fault::ParseFault;
use crate::kind::Kind;
use crate::scanner::Scanner;
use crate::statement::{read_nodes, read_roles, read_up_to};
use crate::token::Language;
use sg_graph::Graph;
use std::alloc::Global;

/// The graph that the bytes spell, all of them, or the fault at the first wrong token from the left. It takes one pass, and memory
/// for the graph alone, none before the first role is read.
pub fn parse_graph(alloc: Global, bytes: &[u8]) -> Result<Graph, ParseFault>
    // The graph, or the first fault and its offset.
    ensures exact { MatchResult result (λ g. read bytes.now ≡ Ok g) (Refuses (read bytes.now)) }
    // What is read is spelled so.
    ensures found { IfOk result (SpellsGraph bytes.now) }
    // Memory doesn't run out before the graph's name and a role are read.
    ensures early { IsErr (read_beginning (tokens bytes.now)) → result ≢ Err ParseFault.OutOfMemory }
    // What is spelled so is read, unless memory runs out.
    ensures only { (g : Graph) → SpellsGraph bytes.now g → MatchResult result (λ h. h ≡ g) (λ e. e ≡ ParseFault.OutOfMemory) }
{
    read_whole(alloc, bytes)
}

// The graph, or the first fault.
fn read_whole(alloc: Global, bytes: &[u8]) -> Result<Graph, ParseFault>
    ensures reads { MatchResult result (λ g. read bytes.now ≡ Ok g) (Refuses (read bytes.now)) }
    ensures early { IsErr (read_beginning (tokens bytes.now)) → result ≢ Err ParseFault.OutOfMemory }
{
    let mut scanner = Scanner::new(Language::OfGraph, bytes);
    read_text(alloc, &mut scanner)
}

// All statements, and the end.
fn read_text(alloc: Global, scanner: &mut Scanner) -> Result<Graph, ParseFault>
    ensures reads { Reads read_text scanner.old scanner.new result }
    ensures early { IsErr (read_beginning scanner.old) → result ≢ Err ParseFault.OutOfMemory }
{
    let mut graph = read_head(alloc, scanner)?;
    read_statements(scanner, &mut graph)?;
    scanner.end()?;
    Ok(graph)
}

/// The statements after a graph's name, if the graph has no parts yet.
pub fn read_statements(scanner: &mut Scanner, graph: &mut Graph) -> Result<(), ParseFault>
    requires roles { length graph.old.roles ≡ 0 }
    requires variables { length graph.old.variables ≡ 0 }
    requires nodes { length graph.old.nodes ≡ 0 }
    requires edges { length graph.old.edges ≡ 0 }
    ensures reads { ReadsInto (read_statements graph.old) scanner.old scanner.new graph.new result }
    ensures early { IsErr (statement (codes "role") read_role graph.old scanner.old) → result ≢ Err ParseFault.OutOfMemory }
{
    read_roles(scanner, graph)?;
    read_up_to(scanner, graph, Kind::Var, 32)?;
    read_nodes(scanner, graph)?;
    read_up_to(scanner, graph, Kind::Edge, 512)
}

// The graph's name.
fn read_head(alloc: Global, scanner: &mut Scanner) -> Result<Graph, ParseFault>
    ensures reads { Reads read_head scanner.old scanner.new result }
    ensures early { result ≢ Err ParseFault.OutOfMemory }
{
    scanner.word(b"graph")?;
    let (name, _) = scanner.name()?;
    scanner.semicolon()?;
    Ok(Graph::new(alloc, name))
}

/// What is read of bytes and what they spell by the grammar is the same, so bytes spell one graph at most.
pub fn readings_are_spelled()
    ensures { (bs : List ℕ) (g : Graph) → (read bs ≡ Ok g) ↔ SpellsGraph bs g }
{}

/// The canonical text of a graph that has two roles and a node spells this graph, and is read as it.
pub fn canonical_texts_are_read()
    ensures spelled { (g : Graph) → IsGraph g → 2 ≤ length g.roles → 1 ≤ length g.nodes → SpellsGraph (canonical g) g }
    ensures read { (g : Graph) → IsGraph g → 2 ≤ length g.roles → 1 ≤ length g.nodes → read (canonical g) ≡ Ok g }
{}
