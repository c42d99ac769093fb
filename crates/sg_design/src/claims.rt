//! The command `claims` on a graph and claims: reads a graph, checks it, reads claims of it, and says of each whether it holds.
ghost use Rattle.std.specs.Prelude.{◌≡◌, ◌≤◌, ◌++◌, IfErr, IfOk, OnOk, is_none};
ghost use Rattle.sg_claims_text.specs.Grammar.{SpellsClaims};
ghost use Rattle.sg_model.specs.Limits.{most_graph_file};
ghost use Rattle.sg_parse.specs.Grammar.{SpellsGraph};
ghost use Rattle.sg_ending.specs.Files.{EndsAt, Holds};
ghost use Rattle.sg_ending.specs.Model.{ending_held};
ghost use Rattle.sg_design.specs.Claimed.{AreAnswered, Decides, DecidesClaims, IsAcceptedText, OnClaims, OnClaimsIn, RefusesGraph, answer_line, walk_in};

use sg_base::{ByteOut, Files, OutOfMemory, Sink, write_all};
use sg_claims::{Answer, NamedClaim, decide};
use sg_claims_text::{ClaimsFault, parse_claims};
use sg_compile::{AllFault, compile_all};
use sg_ending::{Ending, MOST_GRAPH_BYTES, graph_of, read_file};
use sg_graph::{Graph, put_walk};
use sg_parse::ParseFault;
use std::alloc::Global;
use std::slice;

// A file of claims has at most 1 MiB.
const MOST_BYTES: u32 = 1_048_576;

/// Decides the claims of a file on the graph of another and writes the answers, or says why not. The graph is read and checked before the
/// claims are read.
pub fn claims<'w, F: Files, O: Sink>(
    alloc: Global,
    graph: &'w str,
    claims: &'w str,
    files: &mut F,
    out: &mut O,
) -> Ending<'w>
    ensures kept { F.held files.new ≡ F.held files.old }
    ensures ends { DecidesClaims graph.now claims.now (F.held files.old) (F.faults files.old) (F.faults files.new)
        (record { bytes = O.written out.old; faults = O.faults out.old }) (record { bytes = O.written out.new; faults = O.faults out.new }) (ending_held result) }
{
    match accepted_graph(alloc, graph, files) {
        Ok(graph) => on_claims(alloc, &graph, claims, files, out),
        Err(ending) => ending,
    }
}

// The graph of a file, which is accepted for each of its roles, or how the program ends without one.
fn accepted_graph<'w, F: Files>(
    alloc: Global,
    file: &'w str,
    files: &mut F,
) -> Result<Graph, Ending<'w>>
    ensures holds { IfOk result (λ g. Holds (F.held files.old) most_graph_file file.now (λ bytes. IsAcceptedText bytes g)) }
    ensures ends { IfErr result (λ ending. EndsAt (F.held files.old) (F.faults files.old) (F.faults files.new) most_graph_file file.now RefusesGraph (ending_held ending)) }
    ensures kept { F.held files.new ≡ F.held files.old }
    ensures no_fault { OnOk result (F.faults files.new ≡ F.faults files.old) }
{
    let bytes = read_file(alloc, file, files, MOST_GRAPH_BYTES)?;
    accepted(alloc, bytes.as_slice())
}

/// The graph that the bytes spell, which is accepted for each of its roles, or how the program ends without one.
pub(crate) fn accepted(alloc: Global, bytes: &[u8]) -> Result<Graph, Ending<'static>>
    ensures accepted { IfOk result (IsAcceptedText bytes.now) }
    ensures refused { IfErr result (λ ending. RefusesGraph bytes.now (ending_held ending)) }
{
    match graph_of(alloc, bytes) {
        Ok(graph) => checked(alloc, bytes, graph),
        Err(ending) => Err(ending),
    }
}

// The graph that the bytes spell, if it is accepted.
fn checked(alloc: Global, bytes: &[u8], graph: Graph) -> Result<Graph, Ending<'static>>
    requires { SpellsGraph bytes.now graph }
    ensures accepted { IfOk result (IsAcceptedText bytes.now) }
    ensures refused { IfErr result (λ ending. RefusesGraph bytes.now (ending_held ending)) }
{
    match compile_all(alloc, slice::from_ref(&graph)) {
        Ok(_) => Ok(graph),
        Err(AllFault::Refused { fault, .. }) => Err(Ending::GraphRefused { graph, fault }),
        Err(AllFault::OutOfMemory) => Err(Ending::NoMemory),
    }
}

// Decides the claims of a file on an accepted graph.
fn on_claims<'w, F: Files, O: Sink>(
    alloc: Global,
    graph: &Graph,
    file: &'w str,
    files: &mut F,
    out: &mut O,
) -> Ending<'w>
    ensures kept { F.held files.new ≡ F.held files.old }
    ensures on { OnClaims graph.now file.now (F.held files.old) (F.faults files.old) (F.faults files.new)
        (record { bytes = O.written out.old; faults = O.faults out.old }) (record { bytes = O.written out.new; faults = O.faults out.new }) (ending_held result) }
{
    match read_file(alloc, file, files, MOST_BYTES) {
        Ok(bytes) => decide_bytes(alloc, graph, bytes.as_slice(), out),
        Err(ending) => ending,
    }
}

// Decides the claims of an accepted graph that the bytes spell, or says why there are none.
fn decide_bytes<O: Sink>(alloc: Global, graph: &Graph, bytes: &[u8], out: &mut O) -> Ending<'static>
    ensures { OnClaimsIn graph.now bytes.now (record { bytes = O.written out.old; faults = O.faults out.old }) (record { bytes = O.written out.new; faults = O.faults out.new }) (ending_held result) }
{
    match parse_claims(alloc, graph, bytes) {
        Ok(claims) => say_answers(alloc, bytes, graph, claims.as_slice(), out),
        Err(ClaimsFault::Text(ParseFault::OutOfMemory)) => Ending::NoMemory,
        Err(fault) => Ending::ClaimsRefused { fault },
    }
}

// Decides the claims of a graph that the bytes spell, and writes the answers.
fn say_answers<O: Sink>(
    alloc: Global,
    bytes: &[u8],
    graph: &Graph,
    claims: &[NamedClaim],
    out: &mut O,
) -> Ending<'static>
    requires { SpellsClaims graph.now bytes.now claims.now }
    ensures { Decides graph.now bytes.now (record { bytes = O.written out.old; faults = O.faults out.old }) (record { bytes = O.written out.new; faults = O.faults out.new }) (ending_held result) }
{
    let (text, all_hold) = match answers_text(alloc, graph, claims) {
        Ok(answers) => answers,
        Err(_) => return Ending::NoMemory,
    };
    match write_all(out, text.as_slice()) {
        Ok(()) if all_hold => Ending::Written,
        Ok(()) => Ending::ClaimFails,
        Err(_) => Ending::WriteFailed,
    }
}

// The lines of the answers, and whether all claims hold.
fn answers_text(
    alloc: Global,
    graph: &Graph,
    claims: &[NamedClaim],
) -> Result<(Vec<u8>, bool), OutOfMemory>
    ensures { IfOk result (λ answers. AreAnswered graph.now claims.now answers.0.items answers.1) }
{
    let mut text = ByteOut::new(alloc);
    let mut all_hold = true;
    for claim in claims {
        let answer = decide(alloc, graph, &claim.claim)?;
        put_answer(&mut text, graph, claim, &answer)?;
        all_hold &= does_hold(&answer);
    }
    Ok((text.done(), all_hold))
}

// Writes the line of an answer.
fn put_answer(
    out: &mut ByteOut,
    graph: &Graph,
    claim: &NamedClaim,
    answer: &Answer,
) -> Result<(), OutOfMemory>
    ensures { OnOk result (out.new ≡ out.old ++ answer_line graph.now claim.now (walk_in answer.now)) }
{
    out.bytes(b"claim ")?;
    out.bytes(claim.name.as_bytes())?;
    match answer {
        Answer::Holds => out.bytes(b" holds\n"),
        Answer::Fails(walk) => {
            out.bytes(b" fails:")?;
            put_walk(out, graph, walk.as_slice())?;
            out.u8(b'\n')
        }
    }
}

fn does_hold(answer: &Answer) -> bool
    ensures { result ≡ is_none (walk_in answer.now) }
{
    matches!(answer, Answer::Holds)
}
