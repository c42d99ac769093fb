//! Whether a claim holds of a graph.
ghost use Rattle.std.specs.Prelude.{◌≡◌, ℕ, ◌+◌, ◌<◌, ◌++◌, ◌∷◌, [], List, None, length, IfOk, IfSome, OnOk};
ghost use Rattle.sg_model.specs.Claims.{bit_after};
ghost use Rattle.sg_model.specs.Lists.{is_in};
ghost use Rattle.sg_protocol.specs.Graph.{shape};
ghost use Rattle.sg_claims.specs.Answers.{IsAnswer};
ghost use Rattle.sg_claims.specs.Search.{Any, AreWalks, IsLeastWrong, IsSearch, IsSound, entry_at};

use crate::Claim;
use crate::search::{Entry, Search};
use sg_base::{Label, NodeId, OutOfMemory};
use sg_graph::Graph;
use std::alloc::Global;

/// Whether a claim holds of a graph.
#[derive(Drop)]
pub enum Answer {
    /// It holds on each walk from the start.
    Holds,
    /// This walk from the start breaks it at its last label. It is a shortest one that does, and among these the first by its labels,
    /// compared from the front.
    Fails(Vec<Label>),
}

/// Decides a claim on a graph of any shape, in time proportional to its edges. It takes memory for the nodes that it comes to, and for
/// the walk.
pub fn decide(alloc: Global, graph: &Graph, claim: &Claim) -> Result<Answer, OutOfMemory>
    ensures { IfOk result (λ answer. IsAnswer (shape graph.now) claim.now answer) }
{
    let mut search = Search::new(alloc)?;
    let mut at = 0;
    while at < search.entries.len() {
        let entry = search.entries[at];
        if let Some(label) = least_wrong(graph, claim, entry.node, entry.bit) {
            let walk = walk_by(alloc, search.entries.as_slice(), at, label)?;
            return Ok(Answer::Fails(walk));
        }
        follow(graph, claim, at, &mut search)?;
        at += 1;
    }
    Ok(Answer::Holds)
}

// The least label of `later` whose edge leaves a node, if the bit is the wrong one.
fn least_wrong(graph: &Graph, claim: &Claim, node: NodeId, bit: bool) -> Option<Label>
    ensures none { result ≡ None → IsSound (shape graph.now) claim.now node bit }
    ensures some { IfSome result (λ label. IsLeastWrong (shape graph.now) claim.now node bit label) }
{
    if bit == claim.kind.right_bit() {
        return None;
    }
    for label in graph.edges_from(node) {
        if is_later(claim, *label) {
            return Some(*label);
        }
    }
    None
}

// Whether the claim asks what stands before the label.
fn is_later(claim: &Claim, label: Label) -> bool
    ensures { result ≡ is_in label claim.now.later }
{
    claim.later.has(label)
}

// Follows the edges that leave the node of an entry.
pub fn follow(
    graph: &Graph,
    claim: &Claim,
    at: usize,
    search: &mut Search,
) -> Result<(), OutOfMemory>
    requires search { IsSearch (shape graph.now) claim.now at Any search.old.entries.items search.old.seen }
    requires there { at < length search.old.entries.items }
    requires sound { IsSound (shape graph.now) claim.now (entry_at search.old.entries.items at).node (entry_at search.old.entries.items at).bit }
    ensures { OnOk result (IsSearch (shape graph.now) claim.now (at + 1) Any search.new.entries.items search.new.seen) }
{
    // At most 256.
    let _nodes = graph.nodes();
    let entry = search.entries[at];
    for label in graph.edges_from(entry.node) {
        search.enter(Entry {
            node: graph.edge(*label).target,
            bit: next_bit(claim, entry.bit, *label),
            from: at,
            last: *label,
        })?;
    }
    Ok(())
}

// The bit after one label more.
fn next_bit(claim: &Claim, bit: bool, label: Label) -> bool
    ensures { result ≡ bit_after claim.now bit label }
{
    claim.earlier.has(label) || bit && !claim.since.has(label)
}

// The walk to an entry, and a label after it.
fn walk_by(
    alloc: Global,
    entries: &[Entry],
    at: usize,
    label: Label,
) -> Result<Vec<Label>, OutOfMemory>
    requires there { at < length entries.now }
    requires earlier { (i : ℕ) → 0 < i → i < length entries.now → (entry_at entries.now i).from < i }
    ensures { (walks : ℕ → List ℕ) → AreWalks entries.now walks → IfOk result (λ walk. walk.items ≡ walks at ++ label ∷ []) }
{
    let mut walk = Vec::new(alloc);
    walk.push(label)?;
    let mut index = at;
    while index > 0 {
        let entry = entries[index];
        walk.push(entry.last)?;
        index = entry.from;
    }
    walk.reverse();
    Ok(walk)
}
