//! Texts of claims.
ghost use Rattle.std.specs.Prelude.{◌≡◌, ◌++◌, ◌≤◌, All, List, Ok, length, flat_map, IfOk, OnOk};
ghost use Rattle.sg_claims.specs.Suggestions.{AreSuggested};
ghost use Rattle.sg_claims.specs.declared.claim.NamedClaim as Seen;
ghost use Rattle.sg_claims_text.specs.Grammar.{IsClaim, SpellsClaims, claim_names, most_claims};
ghost use Rattle.sg_claims_text.specs.Reading.{read};
ghost use Rattle.sg_claims_text.specs.Written.{claim_line, kind_text, since_text, written};
ghost use Rattle.sg_graph.specs.Parts.{edge_names};
ghost use Rattle.sg_protocol.specs.Graph.{AreNames, Graph as GraphValue, IsGraph, ended};

use sg_base::{ByteOut, Label, OutOfMemory};
use sg_claims::{Claim, ClaimKind, NamedClaim};
use sg_graph::{Graph, put_walk};
use std::alloc::Global;

/// The text of claims of a graph: its name and then the claims, each a statement on a line of its own, in their order.
pub fn claims_text(
    alloc: Global,
    graph: &Graph,
    claims: &[NamedClaim],
) -> Result<Vec<u8>, OutOfMemory>
    ensures { IfOk result (λ text. text.items ≡ written graph.now claims.now) }
{
    let mut out = ByteOut::new(alloc);
    out.bytes(b"claims ")?;
    out.bytes(graph.name().as_bytes())?;
    put_end(&mut out)?;
    put_claims(&mut out, graph, claims)?;
    Ok(out.done())
}

fn put_end(out: &mut ByteOut) -> Result<(), OutOfMemory>
    ensures { OnOk result (out.new ≡ ended out.old) }
{
    out.bytes(b";\n")
}

fn put_claims(out: &mut ByteOut, graph: &Graph, claims: &[NamedClaim]) -> Result<(), OutOfMemory>
    ensures { OnOk result (out.new ≡ out.old ++ flat_map (claim_line graph.now) claims.now) }
{
    for claim in claims {
        put_claim(out, graph, claim)?;
    }
    Ok(())
}

fn put_claim(out: &mut ByteOut, graph: &Graph, claim: &NamedClaim) -> Result<(), OutOfMemory>
    ensures { OnOk result (out.new ≡ out.old ++ claim_line graph.now claim.now) }
{
    out.bytes(b"claim ")?;
    out.bytes(claim.name.as_bytes())?;
    out.bytes(b":")?;
    put_kind(out, graph, &claim.claim)?;
    put_end(out)
}

fn put_kind(out: &mut ByteOut, graph: &Graph, claim: &Claim) -> Result<(), OutOfMemory>
    ensures { OnOk result (out.new ≡ out.old ++ kind_text graph.now claim.now.kind claim.now.later claim.now.earlier claim.now.since) }
{
    let later = claim.later.as_slice();
    let earlier = claim.earlier.as_slice();
    let since = claim.since.as_slice();
    match claim.kind {
        ClaimKind::Needs => {
            put_walk(out, graph, later)?;
            out.bytes(b" needs")?;
            put_walk(out, graph, earlier)?;
            put_since(out, graph, b" since", since)
        }
        ClaimKind::Bars => {
            put_walk(out, graph, earlier)?;
            out.bytes(b" bars")?;
            put_walk(out, graph, later)?;
            put_since(out, graph, b" until", since)
        }
    }
}

// The labels after the word, if there are some.
fn put_since(
    out: &mut ByteOut,
    graph: &Graph,
    word: &[u8],
    labels: &[Label],
) -> Result<(), OutOfMemory>
    ensures { OnOk result (out.new ≡ out.old ++ since_text graph.now word.now labels.now) }
{
    if labels.is_empty() {
        return Ok(());
    }
    out.bytes(word)?;
    put_walk(out, graph, labels)
}

/// The text that is written of claims spells these claims and is read as them, if there are at most 1,024, their names are names and
/// differ, and the graph has their labels, none of which is spelled like a word between lists.
pub fn written_texts_are_read()
    ensures spelled { (g : GraphValue) (cs : List Seen.NamedClaim) → IsGraph g → length cs ≤ most_claims → AreNames (claim_names cs) → All (λ (c : Seen.NamedClaim). IsClaim (edge_names g) c.claim) cs → SpellsClaims g (written g cs) cs }
    ensures read { (g : GraphValue) (cs : List Seen.NamedClaim) → IsGraph g → length cs ≤ most_claims → AreNames (claim_names cs) → All (λ (c : Seen.NamedClaim). IsClaim (edge_names g) c.claim) cs → read g (written g cs) ≡ Ok cs }
{}

/// The text that is written of claims that are suggested for a graph spells these claims and is read as them.
pub fn suggestions_are_read()
    ensures spelled { (g : GraphValue) (cs : List Seen.NamedClaim) → IsGraph g → AreSuggested g (length g.edges) cs → SpellsClaims g (written g cs) cs }
    ensures read { (g : GraphValue) (cs : List Seen.NamedClaim) → IsGraph g → AreSuggested g (length g.edges) cs → read g (written g cs) ≡ Ok cs }
{}
