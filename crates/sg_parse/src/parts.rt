//! Parts from texts.
ghost use Rattle.std.specs.Prelude.{◌≡◌, ◌≢◌, ◌↔◌, ℕ, List, [], codes, length, Ok, Err, MatchResult, IfOk, IsErr, false};
ghost use Rattle.sg_model.specs.Lists.{has_text};
ghost use Rattle.sg_parse.specs.Owed.{Reads, ReadsInto, Refuses};
ghost use Rattle.sg_parse.specs.Parts as Parts;
ghost use Rattle.sg_parse.specs.Parts.{part_names};
ghost use Rattle.sg_parse.specs.PartsGrammar.{SpellsParts};
ghost use Rattle.sg_parse.specs.PartsReading.{read, read_parts, read_part, read_part_beginning, read_part_head, repeat};
ghost use Rattle.sg_parse.specs.Tokens.{is_word, part_tokens};

use crate::fault::ParseFault;
use crate::named_list::PartList;
use crate::part::Part;
use crate::scanner::Scanner;
use crate::text::read_statements;
use crate::token::Language;
use crate::uses::read_uses;
use sg_graph::Graph;
use std::alloc::Global;

/// The parts that the bytes spell, all of them, or the fault at the first wrong token from the left. It takes one pass; the last
/// part is the one that the text describes. It takes no memory before the first role is read.
pub fn parse_parts(alloc: Global, bytes: &[u8]) -> Result<Vec<Part>, ParseFault>
    // The parts, or the first fault and its offset.
    ensures exact { MatchResult result (λ ps. read bytes.now ≡ Ok ps.items) (Refuses (read bytes.now)) }
    // What is read is spelled so.
    ensures found { IfOk result (λ ps. SpellsParts bytes.now ps.items) }
    // Memory doesn't run out before the first part's name and a role are read.
    ensures early { IsErr (read_part_beginning [] (part_tokens bytes.now)) → result ≢ Err ParseFault.OutOfMemory }
    // What is spelled so is read, unless memory runs out.
    ensures only { (ps : List Parts.Part) → SpellsParts bytes.now ps → MatchResult result (λ qs. qs.items ≡ ps) (λ e. e ≡ ParseFault.OutOfMemory) }
{
    read_whole(alloc, bytes)
}

// The parts, or the first fault.
fn read_whole(alloc: Global, bytes: &[u8]) -> Result<Vec<Part>, ParseFault>
    ensures reads { MatchResult result (λ ps. read bytes.now ≡ Ok ps.items) (Refuses (read bytes.now)) }
    ensures early { IsErr (read_part_beginning [] (part_tokens bytes.now)) → result ≢ Err ParseFault.OutOfMemory }
{
    let mut scanner = Scanner::new(Language::OfParts, bytes);
    let parts = read_parts(alloc, &mut scanner, bytes.len())?;
    Ok(parts.into_list().into_vec())
}

// All parts, and the end, of a text of `bytes` bytes.
fn read_parts(alloc: Global, scanner: &mut Scanner, bytes: usize) -> Result<PartList, ParseFault>
    ensures reads { Reads (read_parts bytes) scanner.old scanner.new result }
    ensures early { IsErr (read_part_beginning [] scanner.old) → result ≢ Err ParseFault.OutOfMemory }
{
    let mut parts = PartList::new(alloc);
    read_part(alloc, scanner, bytes, &mut parts)?;
    read_more(alloc, scanner, bytes, &mut parts)?;
    scanner.end()?;
    Ok(parts)
}

// The parts after the first one.
fn read_more(
    alloc: Global,
    scanner: &mut Scanner,
    bytes: usize,
    parts: &mut PartList,
) -> Result<(), ParseFault>
    ensures { ReadsInto (repeat bytes (is_word (codes "graph")) (read_part bytes) parts.old) scanner.old scanner.new parts.new result }
{
    'more: for _ in 0..bytes {
        if !scanner.at_word(b"graph") {
            return Ok(());
        }
        read_part(alloc, scanner, bytes, parts)?;
    }
    Ok(())
}

// A part.
fn read_part(
    alloc: Global,
    scanner: &mut Scanner,
    bytes: usize,
    parts: &mut PartList,
) -> Result<(), ParseFault>
    ensures reads { ReadsInto (read_part bytes parts.old) scanner.old scanner.new parts.new result }
    ensures early { IsErr (read_part_beginning (part_names parts.old) scanner.old) → result ≢ Err ParseFault.OutOfMemory }
{
    let mut graph = read_head(alloc, scanner, parts)?;
    read_statements(scanner, &mut graph)?;
    let uses = read_uses(alloc, scanner, bytes, parts, &graph)?;
    let part = Part {
        graph,
        uses: uses.into_list(),
    };
    match parts.push(part) {
        Ok(()) => Ok(()),
        Err(_) => Err(ParseFault::OutOfMemory),
    }
}

// The name of a part, which no part before it has.
fn read_head(alloc: Global, scanner: &mut Scanner, parts: &PartList) -> Result<Graph, ParseFault>
    ensures reads { Reads (read_part_head (part_names parts.now)) scanner.old scanner.new result }
    ensures new { IfOk result (λ g. has_text g.name (part_names parts.now) ≡ false) }
    ensures early { result ≢ Err ParseFault.OutOfMemory }
    ensures none { IfOk result (λ g. (length g.roles ≡ 0) × (length g.variables ≡ 0) × (length g.nodes ≡ 0) × (length g.edges ≡ 0)) }
{
    scanner.word(b"graph")?;
    let (name, at) = scanner.name()?;
    if parts.has(&name) {
        return Err(ParseFault::Twice { at });
    }
    scanner.semicolon()?;
    Ok(Graph::new(alloc, name))
}

/// What is read of bytes and what they spell by the grammar is the same, so bytes spell one list of parts at most.
pub fn part_readings_are_spelled()
    ensures { (bs : List ℕ) (ps : List Parts.Part) → (read bs ≡ Ok ps) ↔ SpellsParts bs ps }
{}
