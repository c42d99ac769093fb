//! A search over the nodes of a graph, each with whether a label of `earlier` stands since the last one of `since`.
ghost use Rattle.std.specs.Prelude.{◌≡◌, ◌<◌, ◌++◌, ◌∷◌, [], true, false, get_or, length, slice_set, IfOk, OnOk};
ghost use Rattle.sg_model.specs.Claims.{Claim as CoreClaim};
ghost use Rattle.sg_model.specs.Shape.{Shape};
ghost use Rattle.sg_claims.specs.Index.{index_of};

use sg_base::{Label, NodeId, OutOfMemory};
use std::alloc::Global;

/// A node with its bit, in the order in which they were found: the index in this order of the one that it was found from, and the label
/// of the edge from there. Both mean nothing at the first, the start.
#[derive(Clone, Copy)]
pub struct Entry {
    pub node: NodeId,
    pub bit: bool,
    pub from: usize,
    pub last: Label,
}

/// What a search has found: the entries, and a table of which nodes with which bit are among them.
#[derive(Drop)]
pub struct Search {
    pub entries: Vec<Entry>,
    pub seen: [bool; 512],
}

impl Search {
    ghost use Rattle.sg_claims.specs.Search.{Any, IsSearch};

    /// The search that has found the start, without the bit.
    pub fn new(alloc: Global) -> Result<Search, OutOfMemory>
        ensures { IfOk result (λ s. (g : Shape) (c : CoreClaim) → IsSearch g c 0 Any s.entries.items s.seen) }
    {
        let mut entries = Vec::new(alloc);
        entries.push(Entry {
            node: NodeId(0),
            bit: false,
            from: 0,
            last: Label(0),
        })?;
        let mut seen = [false; 512];
        seen[0] = true;
        Ok(Search { entries, seen })
    }

    /// Enters a node with a bit, if they weren't found yet.
    pub fn enter(&mut self, entry: Entry) -> Result<(), OutOfMemory>
        requires { entry.node < 256 }
        ensures known { get_or self.old.seen (index_of entry.node entry.bit) false ≡ true → OnOk result ((self.new.entries.items ≡ self.old.entries.items) × (self.new.seen ≡ self.old.seen)) }
        ensures entered { get_or self.old.seen (index_of entry.node entry.bit) false ≡ false → OnOk result ((self.new.entries.items ≡ self.old.entries.items ++ entry ∷ []) × (self.new.seen ≡ slice_set self.old.seen (index_of entry.node entry.bit) true)) }
    {
        let index = table_index(entry.node, entry.bit);
        if !self.seen[index] {
            self.entries.push(entry)?;
            self.seen[index] = true;
        }
        Ok(())
    }
}

// The index of a node with a bit in the table.
pub fn table_index(node: NodeId, bit: bool) -> usize
    requires { node < 256 }
    ensures index { result ≡ index_of node bit }
    ensures within { result < 512 }
{
    let twice = 2 * node.0 as usize;
    if bit { twice + 1 } else { twice }
}
