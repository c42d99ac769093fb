//! A search for the nodes that can be reached.
ghost use Rattle.std.specs.Prelude.{◌≡◌, ◌+◌, ◌<◌, ℕ, get_or, length, None, Some, slice_set};

use sg_base::{Label, NodeId, RoleSet};

/// A walk to a node: the number of its edges, and its last label, which means nothing if it has none.
#[derive(Clone, Copy)]
pub struct WalkEnd {
    pub edges: u16,
    pub last: Label,
}

/// A search from a node past some roles. Each node that was found has a walk to it and stands in a queue, in the order in which they
/// were found; those from `at` on wait to be followed.
#[derive(Drop)]
pub struct Search {
    pub from: NodeId,
    pub past: RoleSet,
    pub found: [Option<WalkEnd>; 256],
    pub queue: [NodeId; 256],
    pub count: usize,
    pub at: usize,
}

impl Search {
    ghost use Rattle.sg_model.specs.Shape.{Shape};
    ghost use Rattle.sg_reach.specs.WalkEnd.{found_at, IsFound, IsSearch};

    /// The search that has found one node, which waits.
    pub fn new(from: NodeId, past: RoleSet) -> Search
        requires { from < 256 }
        ensures begins { (g : Shape) → from < length g.roles → IsSearch g (λ _. ⊥) result }
        ensures from { result.from ≡ from }
        ensures past { result.past ≡ past }
        ensures at { result.at ≡ 0 }
    {
        let mut found = nowhere();
        found[from.0 as usize] = Some(WalkEnd {
            edges: 0,
            last: Label(0),
        });
        Search {
            from,
            past,
            found,
            queue: [from; 256],
            count: 1,
            at: 0,
        }
    }

    /// Enters a node with the walk to it, if it wasn't found yet.
    pub fn enter(&mut self, node: NodeId, walk: WalkEnd)
        requires there { node < 256 }
        requires room { found_at self.old.found node ≡ None → self.old.count < 256 }
        ensures known { IsFound self.old.found node → self.new ≡ self.old }
        ensures entered { found_at self.old.found node ≡ None → self.new ≡ record self.old { found = slice_set self.old.found node (Some walk); queue = slice_set self.old.queue self.old.count node; count = self.old.count + 1 } }
    {
        if self.found[node.0 as usize].is_none() {
            self.found[node.0 as usize] = Some(walk);
            self.queue[self.count] = node;
            self.count += 1;
        }
    }
}

// No node was found.
fn nowhere() -> [Option<WalkEnd>; 256]
    ensures size { length result ≡ 256 }
    ensures none { (n : ℕ) → get_or result n None ≡ None }
{
    [None; 256]
}
