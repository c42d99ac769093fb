//! The graphs of blocks, found by their names without a scan.
ghost use Rattle.std.specs.Prelude.{◌≡◌, ◌<◌, ◌++◌, [], ◌∷◌, false, length, map, bytes_eq, position, slice_get, IfSome, OnOk, Some};
ghost use Rattle.sg_model.specs.Lists.{has_text};
ghost use Rattle.sg_sched_text.specs.Holding.{HasRoles};

use sg_base::{Name, OutOfMemory, Seq};
use sg_graph::Graph;
use sg_parse::NameSet;
use std::alloc::Global;
use std::marker::Model;

/// Graphs of different names, of two roles or more, in the order of their blocks. A clause sees their list.
#[derive(Drop)]
pub(crate) struct Blocks {
    list: Seq<Graph>,
    names: NameSet,
}

impl Model for Blocks {
    ghost use Rattle.std.specs.Prelude.{◌≡◌, List, map};
    ghost use Rattle.std.specs.List.{AllByRecursion};
    ghost use Rattle.sg_protocol.specs.Graph.{Graph};
    ghost use Rattle.sg_sched_text.specs.Holding.{HasRoles};

    ghost Value = { List Graph };

    ghost view = { λ b. b.list };

    ghost invariant = { λ b. (b.names ≡ map (λ g. g.name) b.list) × AllByRecursion HasRoles b.list };
}

impl Blocks {
    /// No graphs. It takes no memory.
    pub fn new(alloc: Global) -> Blocks
        ensures { result ≡ [] }
    {
        Blocks {
            list: Seq::new(alloc),
            names: NameSet::new(alloc),
        }
    }

    /// The number of graphs.
    pub fn len(&self) -> usize
        ensures { result ≡ length self.now }
    {
        self.list.len()
    }

    /// Whether a graph has the name.
    pub fn has(&self, name: &Name) -> bool
        ensures { result ≡ has_text name.now (map (λ g. g.name) self.now) }
    {
        self.names.has(name)
    }

    /// The index of the graph of this name, if there is one.
    pub fn index(&self, name: &Name) -> Option<usize>
        ensures index { result ≡ position (bytes_eq name.now) (map (λ g. g.name) self.now) }
        ensures within { IfSome result (λ i. i < length self.now) }
    {
        self.names.index(name)
    }

    /// The graph at an index.
    pub fn get(&self, index: usize) -> &Graph
        requires { index < length self.now }
        ensures graph { slice_get self.now index ≡ Some result.now }
        ensures roles { HasRoles result.now }
    {
        self.list.get(index)
    }

    /// Adds a graph of a new name.
    pub fn add(&mut self, graph: Graph) -> Result<(), OutOfMemory>
        requires new_name { has_text graph.name (map (λ g. g.name) self.old) ≡ false }
        requires roles { HasRoles graph }
        ensures { OnOk result (self.new ≡ self.old ++ graph ∷ []) }
    {
        let name = graph.name();
        let count = self.list.len();
        self.list.push(graph)?;
        if let Err(fault) = self.names.add(name) {
            self.list.truncate(count);
            return Err(fault);
        }
        Ok(())
    }

    /// The graphs in order.
    pub fn as_slice(&self) -> &[Graph]
        ensures { result.now ≡ self.now }
    {
        self.list.as_slice()
    }

    /// The graphs in order, as a list. It takes no memory.
    pub fn into_list(self) -> Seq<Graph>
        ensures { result ≡ self }
    {
        let Blocks { list, names: _ } = self;
        list
    }
}
