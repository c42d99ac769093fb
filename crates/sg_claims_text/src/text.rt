//! Claims from texts.
ghost use Rattle.std.specs.Prelude.{◌≡◌, ◌↔◌, ℕ, List, Ok, MatchResult, IfOk, codes};
ghost use Rattle.sg_claims.specs.declared.claim.NamedClaim as Seen;
ghost use Rattle.sg_claims_text.specs.Grammar.{SpellsClaims};
ghost use Rattle.sg_claims_text.specs.Owed.{Refuses};
ghost use Rattle.sg_claims_text.specs.Reading.{read, read_claim, read_claims, read_name};
ghost use Rattle.sg_graph.specs.Parts.{edge_names};
ghost use Rattle.sg_parse.specs.Owed.{Reads, ReadsInto};
ghost use Rattle.sg_parse.specs.PartsReading.{repeat};
ghost use Rattle.sg_parse.specs.Tokens.{is_word};
ghost use Rattle.sg_protocol.specs.Graph.{Graph as GraphValue, IsGraph};

use crate::claim::read_claim;
use crate::claim_list::ClaimList;
use crate::fault::ClaimsFault;
use crate::label_names::LabelNames;
use sg_base::{Name, Seq};
use sg_claims::NamedClaim;
use sg_graph::Graph;
use sg_parse::{Language, ParseFault, Scanner};
use std::alloc::Global;

/// The claims of the graph that the bytes spell, all of them in their order, or the fault at the first wrong token from the left. It
/// takes one pass.
pub fn parse_claims(
    alloc: Global,
    graph: &Graph,
    bytes: &[u8],
) -> Result<Vec<NamedClaim>, ClaimsFault>
    // The claims, or the first fault and its offset.
    ensures exact { MatchResult result (λ cs. read graph.now bytes.now ≡ Ok cs.items) (Refuses (read graph.now bytes.now)) }
    // What is read is spelled so.
    ensures found { IfOk result (λ cs. SpellsClaims graph.now bytes.now cs.items) }
    // What is spelled so is read, unless memory runs out.
    ensures only { (cs : List Seen.NamedClaim) → SpellsClaims graph.now bytes.now cs → MatchResult result (λ ds. ds.items ≡ cs) (λ e. e ≡ ClaimsFault.Text ParseFault.OutOfMemory) }
{
    // The graph's name and those of its labels are names.
    let _name = graph.name();
    read_whole(alloc, graph, bytes)
}

// The claims, or the first fault.
fn read_whole(alloc: Global, graph: &Graph, bytes: &[u8]) -> Result<Vec<NamedClaim>, ClaimsFault>
    ensures { MatchResult result (λ cs. read graph.now bytes.now ≡ Ok cs.items) (Refuses (read graph.now bytes.now)) }
{
    let mut scanner = Scanner::new(Language::OfGraph, bytes);
    let (name, at) = match read_name(&mut scanner) {
        Ok(named) => named,
        Err(fault) => return Err(ClaimsFault::Text(fault)),
    };
    if name.as_bytes() != graph.name().as_bytes() {
        return Err(ClaimsFault::OtherGraph { at });
    }
    match read_claims(alloc, &mut scanner, graph) {
        Ok(claims) => Ok(claims.into_vec()),
        Err(fault) => Err(ClaimsFault::Text(fault)),
    }
}

// The name of a graph, and its offset.
fn read_name(scanner: &mut Scanner) -> Result<(Name, usize), ParseFault>
    ensures { Reads read_name scanner.old scanner.new result }
{
    scanner.word(b"claims")?;
    scanner.name()
}

// All claims, after the graph's name, and the end.
fn read_claims(
    alloc: Global,
    scanner: &mut Scanner,
    graph: &Graph,
) -> Result<Seq<NamedClaim>, ParseFault>
    ensures { Reads (read_claims (edge_names graph.now)) scanner.old scanner.new result }
{
    let names = match LabelNames::of_graph(alloc, graph) {
        Ok(names) => names,
        Err(_) => return Err(ParseFault::OutOfMemory),
    };
    scanner.semicolon()?;
    let mut claims = ClaimList::new(alloc);
    read_some(alloc, scanner, &names, &mut claims)?;
    scanner.no_more(b"claim")?;
    scanner.end()?;
    Ok(claims.into_claims())
}

// Up to 1,024 claims.
fn read_some(
    alloc: Global,
    scanner: &mut Scanner,
    names: &LabelNames,
    claims: &mut ClaimList,
) -> Result<(), ParseFault>
    ensures { ReadsInto (repeat 1024 (is_word (codes "claim")) (read_claim names.now) claims.old) scanner.old scanner.new claims.new result }
{
    'claims: for _ in 0..1024u16 {
        if !scanner.at_word(b"claim") {
            return Ok(());
        }
        read_claim(alloc, scanner, names, claims)?;
    }
    Ok(())
}

/// What is read of bytes and what they spell by the grammar is the same, so bytes spell one list of claims of a graph at most.
pub fn readings_are_spelled()
    ensures { (g : GraphValue) (bs : List ℕ) (cs : List Seen.NamedClaim) → IsGraph g → (read g bs ≡ Ok cs) ↔ SpellsClaims g bs cs }
{}
