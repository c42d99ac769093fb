//! The graphs of sessions.
ghost use Rattle.std.specs.Prelude.{◌≡◌, ◌++◌, [], ◌∷◌, None, length, slice_get, unwrap_or, OnOk};
ghost use Rattle.std.specs.Option.{option_copied};

use sg_base::OutOfMemory;
use sg_graph::Graph;
use std::alloc::Global;
use std::marker::Model;

// The graph of each session, in the order of their first events. A clause sees them in a list.
#[derive(Drop)]
pub(crate) struct Graphs<'p> {
    list: Vec<Option<&'p Graph>>,
}

impl<'p> Model for Graphs<'p> {
    ghost use Rattle.std.specs.Prelude.{List, Option, map};
    ghost use Rattle.std.specs.Option.{option_copied};
    ghost use Rattle.sg_protocol.specs.Graph.{Graph};

    ghost Value = { List (Option Graph) };

    ghost view = { λ g. map option_copied g.list.items };
}

impl<'p> Graphs<'p> {
    // None. It takes no memory.
    pub fn new(alloc: Global) -> Graphs<'p>
        ensures { result ≡ [] }
    {
        Graphs {
            list: Vec::new(alloc),
        }
    }

    // How many there are.
    pub fn len(&self) -> usize
        ensures { result ≡ length self.now }
    {
        self.list.len()
    }

    // That of one session more.
    pub fn push(&mut self, graph: Option<&'p Graph>) -> Result<(), OutOfMemory>
        ensures { OnOk result (self.new ≡ self.old ++ option_copied graph.entry ∷ []) }
    {
        self.list.push(graph)?;
        Ok(())
    }

    // The graph at an index.
    pub fn at(&self, index: usize) -> Option<&'p Graph>
        ensures { option_copied result ≡ unwrap_or (slice_get self.now index) None }
    {
        match self.list.get(index) {
            Some(graph) => *graph,
            None => None,
        }
    }
}
