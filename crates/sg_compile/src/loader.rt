//! The loader of programs.
ghost use Rattle.std.specs.Prelude.{◌≡◌, ◌↔◌, ℕ, ◌+◌, ◌<◌, ◌≤◌, ◌==◌, ◌^◌, ◌++◌, List, true, codes, drop, length, option_map, position, take, IfErr, IfOk, IfSome, IsTrue, MatchOption, OnOk};
ghost use Rattle.std.specs.List.{common_prefix_len};
ghost use Rattle.sg_protocol.specs.Graph.{Name, canonical};
ghost use Rattle.sg_compile.specs.Loading.{HasRole, HasStart, IsCanonical, IsFaultAfter, IsFaultBehind, IsLoadFault, IsLoaded, IsNoCanonical, IsTableFault, at_table, first_wrong};
ghost use Rattle.sg_protocol.specs.Keyring.{Program};
ghost use Rattle.sg_compile.specs.Compiled.{IsCompiled, IsWhole};
ghost use Rattle.sg_compile.specs.Text.{line, program_text, table_text, version};

use crate::check::CompileFault;
use crate::compiler::compile;
use crate::text::{TABLE, put_table, version};
use sg_base::{ByteOut, Name, OutOfMemory, Role};
use sg_graph::{Graph, canonical_text};
use sg_parse::{ParseFault, canonical_texts_are_read, parse_graph};
use sg_program::Program;
use std::alloc::Global;
use thiserror::Error;

/// Why bytes are no program's text: the first of these causes that holds.
#[derive(Debug, Drop, Error)]
pub enum LoadFault {
    /// The first line is not that of a version (offset 0), the second isn't `role` and a name (offset 13), what follows isn't the canonical
    /// text of a graph with this role and a line `table` (its offset), or the version is not the graph's (offset 11).
    #[error("malformed at {at}")]
    Malformed { at: u32 },
    /// The graph that was read can't be compiled for the role. The fault isn't `OutOfMemory`.
    #[error("{fault}")]
    Graph { graph: Graph, fault: CompileFault },
    /// The lines after `table` aren't those of the program: the number of the first line that differs, is missing or follows the end,
    /// counted from 1.
    #[error("entry {entry}")]
    NotTheTable { entry: usize },
    /// Out of memory.
    #[error("out of memory")]
    OutOfMemory,
}

/// The program whose text the bytes are, or the first cause that holds. The graph is compiled again, and the lines of the table are
/// compared with those of the program that comes out. It takes memory as compiling and encoding do, and only behind the lines of the
/// version and of the role, where a line `table` follows.
pub fn load(alloc: Global, bytes: &[u8]) -> Result<Program, LoadFault>
    ensures whole { IfOk result IsWhole }
    ensures text { IfOk result (λ p. program_text p ≡ bytes.now) }
    ensures fault { IfErr result (IsLoadFault bytes.now) }
    ensures loads { (p : Program) → IsWhole p → program_text p ≡ bytes.now → IfOk result (λ q. q ≡ p) × IfErr result (λ fault. fault ≡ LoadFault.OutOfMemory) }
{
    let Some(version) = version_of(bytes) else {
        return Err(LoadFault::Malformed { at: 0 });
    };
    let (_, text) = bytes.split_at(13);
    let Some(name) = role_of(text) else {
        return Err(LoadFault::Malformed { at: 13 });
    };
    let (_, rest) = bytes.split_at(19 + name.as_bytes().len());
    load_graph(alloc, version, &name, rest)
}

// The program of a version and a role's name, from what follows their lines.
fn load_graph(alloc: Global, start: u8, name: &Name, text: &[u8]) -> Result<Program, LoadFault>
    ensures ok { IfOk result (IsLoaded start name.now text.now) }
    ensures fault { IfErr result (IsFaultBehind start name.now text.now) }
{
    let at = 19 + name.as_bytes().len() as u32;
    let Some(index) = table_at(text) else {
        return Err(LoadFault::Malformed { at });
    };
    let (prefix, _) = text.split_at(index);
    let Some(graph) = read_canonical(alloc, prefix)? else {
        return Err(LoadFault::Malformed { at });
    };
    let Some(role) = graph.find_role(name) else {
        return Err(LoadFault::Malformed { at });
    };
    let (_, table) = text.split_at(index + 6);
    load_table(alloc, start, graph, role, table)
}

// The version that the first line is of.
fn version_of(bytes: &[u8]) -> Option<u8>
    ensures { MatchOption result ((v : ℕ) (rest : List ℕ) → HasStart bytes.now v rest → ⊥) (λ v. HasStart bytes.now v (drop 13 bytes.now)) }
{
    if bytes.starts_with(b"sg-program 1\n") {
        Some(1)
    } else if bytes.starts_with(b"sg-program 2\n") {
        Some(2)
    } else {
        None
    }
}

// The name in a line that begins with `role`.
fn role_of(text: &[u8]) -> Option<Name>
    ensures { MatchOption result ((n : Name) (rest : List ℕ) → HasRole text.now n rest → ⊥) (λ n. HasRole text.now n (drop (6 + length n) text.now)) }
{
    if !text.starts_with(b"role ") {
        return None;
    }
    let (_, word) = text.split_at(5);
    match line_end(word) {
        Some(end) => Name::new(&word[..end]),
        None => None,
    }
}

// The offset of the first line end.
fn line_end(text: &[u8]) -> Option<usize>
    ensures index { result ≡ position (λ c. c == 10) text.now }
    ensures within { IfSome result (λ i. i < length text.now) }
{
    text.iter().position(|byte| *byte == b'\n')
}

// The offset of the first line `table`.
fn table_at(text: &[u8]) -> Option<usize>
    ensures split { option_map (λ i. (take i text.now, drop (i + 6) text.now)) result ≡ at_table true text.now }
    ensures here { IfSome result (λ i. text.now ≡ take i text.now ++ line (codes "table") ++ drop (i + 6) text.now) }
    ensures within { IfSome result (λ i. i + 6 ≤ length text.now) }
{
    let mut begins = true;
    for at in 0..text.len() {
        let (_, rest) = text.split_at(at);
        if begins && rest.starts_with(TABLE) {
            return Some(at);
        }
        begins = text[at] == b'\n';
    }
    None
}

// The graph of two roles and a node whose canonical text this is.
fn read_canonical(alloc: Global, text: &[u8]) -> Result<Option<Graph>, LoadFault>
    ensures ok { IfOk result (λ found. MatchOption found (IsNoCanonical text.now) (IsCanonical text.now)) }
    ensures only { IfErr result (λ fault. fault ≡ LoadFault.OutOfMemory) }
{
    canonical_texts_are_read();
    match parse_graph(alloc, text) {
        Ok(graph) => match is_canonical(alloc, &graph, text) {
            Ok(true) => Ok(Some(graph)),
            Ok(false) => Ok(None),
            Err(_) => Err(LoadFault::OutOfMemory),
        },
        Err(ParseFault::OutOfMemory) => Err(LoadFault::OutOfMemory),
        Err(_) => Ok(None),
    }
}

// The text is the canonical text of the graph.
fn is_canonical(alloc: Global, graph: &Graph, text: &[u8]) -> Result<bool, OutOfMemory>
    ensures { IfOk result (λ same. IsTrue same ↔ (canonical graph.now ≡ text.now)) }
{
    let wanted = canonical_text(alloc, graph)?;
    Ok(wanted.as_slice() == text)
}

// The program of a graph and a role, if the version is the graph's and the bytes are the lines of the program's table.
fn load_table(
    alloc: Global,
    start: u8,
    graph: Graph,
    role: Role,
    table: &[u8],
) -> Result<Program, LoadFault>
    requires two { 2 ≤ length graph.roles }
    requires there { role < length graph.roles }
    ensures ok { IfOk result (λ p. IsCompiled graph role p × (start ≡ version graph) × (table.now ≡ table_text p)) }
    ensures fault { IfErr result (IsFaultAfter start graph role table.now) }
{
    if start != version(&graph) {
        return Err(LoadFault::Malformed { at: 11 });
    }
    match compile(alloc, &graph, role) {
        Ok(program) => with_table(alloc, program, table),
        Err(CompileFault::OutOfMemory) => Err(LoadFault::OutOfMemory),
        Err(fault) => Err(LoadFault::Graph { graph, fault }),
    }
}

// The program, if the bytes are the lines of its table.
fn with_table(alloc: Global, program: Program, table: &[u8]) -> Result<Program, LoadFault>
    ensures ok { IfOk result (λ p. (p ≡ program) × (table.now ≡ table_text program)) }
    ensures fault { IfErr result (IsTableFault program table.now) }
{
    match check_table(alloc, &program, table) {
        Ok(()) => Ok(program),
        Err(fault) => Err(fault),
    }
}

// Refuses bytes that aren't the lines of the program's table.
fn check_table(alloc: Global, program: &Program, table: &[u8]) -> Result<(), LoadFault>
    ensures ok { OnOk result (table.now ≡ table_text program.now) }
    ensures fault { IfErr result (IsTableFault program.now table.now) }
{
    let wanted = match table_of(alloc, program) {
        Ok(wanted) => wanted,
        Err(_) => return Err(LoadFault::OutOfMemory),
    };
    if wanted.as_slice() == table {
        return Ok(());
    }
    let entry = first_wrong(wanted.as_slice(), table);
    Err(LoadFault::NotTheTable { entry })
}

// The lines of a program's table.
fn table_of(alloc: Global, program: &Program) -> Result<Vec<u8>, OutOfMemory>
    ensures { IfOk result (λ text. text.items ≡ table_text program.now) }
{
    let mut out = ByteOut::new(alloc);
    put_table(&mut out, program)?;
    Ok(out.done())
}

// The number of the first line that differs, counted from 1.
fn first_wrong(wanted: &[u8], found: &[u8]) -> usize
    requires { length wanted.now < 2 ^ 63 }
    ensures { result ≡ first_wrong wanted.now found.now }
{
    let same = common_length(wanted, found);
    1 + wanted[..same].iter().filter(|byte| **byte == b'\n').count()
}

// How many bytes both have in common at the front.
fn common_length(one: &[u8], other: &[u8]) -> usize
    ensures same { result ≡ common_prefix_len (λ a b. a == b) one.now other.now }
    ensures within { result ≤ length one.now }
{
    let mut at = 0;
    while at < one.len() && at < other.len() && one[at] == other[at] {
        at += 1;
    }
    at
}
