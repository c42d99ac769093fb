//! The statements of roles, variables, nodes and edges.
ghost use Rattle.std.specs.Prelude.{◌≡◌, ◌≢◌, ◌+◌, ◌<◌, ◌≤◌, codes, length, Err, IfOk, IsErr};
ghost use Rattle.sg_protocol.specs.Graph.{AreNumbers};
ghost use Rattle.sg_graph.specs.Parts.{kind_of_type, variable_names};
ghost use Rattle.sg_parse.specs.Kinds.{first_word, reader_of, count_of, most_of};
ghost use Rattle.sg_parse.specs.Owed.{Reads, ReadsInto, ReadsSeen};
ghost use Rattle.sg_parse.specs.Reading.{statement, up_to, read_roles, read_nodes, read_role, read_variable, read_kind, read_node, read_edge, read_clause};

use crate::fault::{ParseFault, want};
use crate::kind::{Kind, first_word};
use crate::name;
use crate::scanner::Scanner;
use sg_base::{VarSet, VarType};
use sg_graph::Graph;

// Two roles, and up to sixteen, if the graph has none.
pub fn read_roles(scanner: &mut Scanner, graph: &mut Graph) -> Result<(), ParseFault>
    requires { length graph.old.roles ≡ 0 }
    ensures reads { ReadsInto (read_roles graph.old) scanner.old scanner.new graph.new result }
    ensures early { IsErr (statement (codes "role") read_role graph.old scanner.old) → result ≢ Err ParseFault.OutOfMemory }
{
    read_statement(scanner, graph, Kind::Role)?;
    read_statement(scanner, graph, Kind::Role)?;
    read_up_to(scanner, graph, Kind::Role, 14)
}

// A node, and up to 256, if the graph has none.
pub fn read_nodes(scanner: &mut Scanner, graph: &mut Graph) -> Result<(), ParseFault>
    requires { length graph.old.nodes ≡ 0 }
    ensures { ReadsInto (read_nodes graph.old) scanner.old scanner.new graph.new result }
{
    read_statement(scanner, graph, Kind::Node)?;
    read_up_to(scanner, graph, Kind::Node, 255)
}

// Up to `most` statements of a kind, and then no such statement.
pub fn read_up_to(
    scanner: &mut Scanner,
    graph: &mut Graph,
    kind: Kind,
    most: u16,
) -> Result<(), ParseFault>
    requires { count_of kind graph.old + most ≤ most_of kind }
    ensures { ReadsInto (up_to most (first_word kind) (reader_of kind) graph.old) scanner.old scanner.new graph.new result }
{
    let word = first_word(kind);
    'more: for _ in 0..most {
        if !scanner.at_word(word) {
            return Ok(());
        }
        read_statement(scanner, graph, kind)?;
    }
    scanner.no_more(word)
}

// A statement, if the graph may have one more part of its kind.
fn read_statement(scanner: &mut Scanner, graph: &mut Graph, kind: Kind) -> Result<(), ParseFault>
    requires { count_of kind graph.old < most_of kind }
    ensures reads { ReadsInto (statement (first_word kind) (reader_of kind) graph.old) scanner.old scanner.new graph.new result }
    ensures more { IfOk result (λ _. count_of kind graph.new ≡ count_of kind graph.old + 1) }
    ensures early { kind ≡ Kind.Role → IsErr (statement (first_word kind) (reader_of kind) graph.old scanner.old) → result ≢ Err ParseFault.OutOfMemory }
{
    scanner.word(first_word(kind))?;
    read_part(scanner, graph, kind)
}

// What a statement declares, after its first word. A role that isn't read takes no memory.
fn read_part(scanner: &mut Scanner, graph: &mut Graph, kind: Kind) -> Result<(), ParseFault>
    requires { count_of kind graph.old < most_of kind }
    ensures reads { ReadsInto (reader_of kind graph.old) scanner.old scanner.new graph.new result }
    ensures more { IfOk result (λ _. count_of kind graph.new ≡ count_of kind graph.old + 1) }
    ensures early { kind ≡ Kind.Role → IsErr (reader_of kind graph.old scanner.old) → result ≢ Err ParseFault.OutOfMemory }
{
    match kind {
        Kind::Role => read_role(scanner, graph),
        Kind::Var => read_var(scanner, graph),
        Kind::Node => read_node(scanner, graph),
        Kind::Edge => read_edge(scanner, graph),
    }
}

// A role, after its first word.
fn read_role(scanner: &mut Scanner, graph: &mut Graph) -> Result<(), ParseFault>
    requires { length graph.old.roles < 16 }
    ensures reads { ReadsInto (read_role graph.old) scanner.old scanner.new graph.new result }
    ensures more { IfOk result (λ _. length graph.new.roles ≡ length graph.old.roles + 1) }
    ensures early { IsErr (read_role graph.old scanner.old) → result ≢ Err ParseFault.OutOfMemory }
{
    let name = name::new_name(scanner, graph, Kind::Role)?;
    scanner.semicolon()?;
    match graph.add_role(name) {
        Ok(_) => Ok(()),
        Err(fault) => Err(want(fault)),
    }
}

// A variable, after its first word.
fn read_var(scanner: &mut Scanner, graph: &mut Graph) -> Result<(), ParseFault>
    requires { length graph.old.variables < 32 }
    ensures reads { ReadsInto (read_variable graph.old) scanner.old scanner.new graph.new result }
    ensures more { IfOk result (λ _. length graph.new.variables ≡ length graph.old.variables + 1) }
{
    let name = name::new_name(scanner, graph, Kind::Var)?;
    scanner.colon()?;
    let kind = read_kind(scanner)?;
    scanner.word(b"by")?;
    let writers = name::some_roles(scanner, graph)?;
    scanner.semicolon()?;
    match graph.add_var(name, kind, writers) {
        Ok(_) => Ok(()),
        Err(fault) => Err(want(fault)),
    }
}

// A type.
fn read_kind(scanner: &mut Scanner) -> Result<VarType, ParseFault>
    ensures { ReadsSeen kind_of_type read_kind scanner.old scanner.new result }
{
    if scanner.at_word(b"int") {
        scanner.skip();
        return Ok(VarType::Int);
    }
    scanner.word(b"text")?;
    Ok(VarType::Text)
}

// A node, after its first word.
fn read_node(scanner: &mut Scanner, graph: &mut Graph) -> Result<(), ParseFault>
    requires { length graph.old.nodes < 256 }
    ensures reads { ReadsInto (read_node graph.old) scanner.old scanner.new graph.new result }
    ensures more { IfOk result (λ _. length graph.new.nodes ≡ length graph.old.nodes + 1) }
{
    let name = name::new_name(scanner, graph, Kind::Node)?;
    scanner.colon()?;
    let role = name::known_role(scanner, graph)?;
    scanner.semicolon()?;
    match graph.add_node(name, role) {
        Ok(_) => Ok(()),
        Err(fault) => Err(want(fault)),
    }
}

// An edge, after its first word.
fn read_edge(scanner: &mut Scanner, graph: &mut Graph) -> Result<(), ParseFault>
    requires { length graph.old.edges < 512 }
    ensures reads { ReadsInto (read_edge graph.old) scanner.old scanner.new graph.new result }
    ensures more { IfOk result (λ _. length graph.new.edges ≡ length graph.old.edges + 1) }
{
    let name = name::new_name(scanner, graph, Kind::Edge)?;
    scanner.colon()?;
    let source = name::known_node(scanner, graph)?;
    scanner.arrow()?;
    let target = name::known_node(scanner, graph)?;
    let writes = read_clause(scanner, graph, b"writes")?;
    let reads = read_clause(scanner, graph, b"reads")?;
    scanner.semicolon()?;
    match graph.add_edge(name, source, target, writes, reads) {
        Ok(_) => Ok(()),
        Err(fault) => Err(want(fault)),
    }
}

// The variables after the word, or none if the word isn't there.
fn read_clause(scanner: &mut Scanner, graph: &Graph, word: &[u8]) -> Result<VarSet, ParseFault>
    ensures reads { Reads (read_clause word.now (variable_names graph.now)) scanner.old scanner.new result }
    ensures there { IfOk result (AreNumbers (length graph.now.variables)) }
{
    if !scanner.at_word(word) {
        return Ok(VarSet::empty());
    }
    scanner.skip();
    name::some_vars(scanner, graph)
}
