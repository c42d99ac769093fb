//! The closure of a node and some roles.
ghost use Rattle.std.specs.Prelude.{◌≡◌, ◌<◌, ◌≤◌, ◌↔◌, false, length, IsTrue, IfOk};
ghost use Rattle.sg_model.specs.Lists.{is_in};
ghost use Rattle.sg_model.specs.Shape.{role_at, source};
ghost use Rattle.sg_protocol.specs.Graph.{IsGraph, shape};
ghost use Rattle.sg_reach.specs.WalkEnd.{IsFound, IsSearch};
ghost use Rattle.sg_reach.specs.Reaches.{IsFirstOf, IsWithin, LeadsPast};

use crate::search::{Search, WalkEnd};
use sg_base::{Label, NodeId, OutOfMemory, Role, RoleSet};
use sg_graph::Graph;
use std::alloc::Global;
use std::marker::Model;

/// The nodes that can be reached from a node by walks that pass no node of some roles. A clause sees it as the graph, the node and
/// the roles.
#[derive(Drop)]
pub struct Reach<'g> {
    graph: &'g Graph,
    search: Search,
}

impl<'g> Model for Reach<'g> {
    ghost use Rattle.sg_reach.specs.Reaches.{Closure};

    ghost Value = { Closure };

    ghost use Rattle.sg_reach.specs.Model.{closure_of};
    ghost use Rattle.sg_reach.specs.Invariant.{HoldsReach};

    ghost view = { closure_of };

    ghost invariant = { HoldsReach };
}

impl<'g> Reach<'g> {
    /// The nodes that can be reached from the node by walks that pass no node of these roles. If the node has one of the roles,
    /// it alone is reached.
    pub fn new(graph: &'g Graph, from: NodeId, past: RoleSet) -> Reach<'g>
        requires { from < length graph.now.nodes }
        ensures { result ≡ record { graph = graph.entry.now; from = from; past = past } }
    {
        // At most 256.
        let _nodes = graph.nodes();
        let mut search = Search::new(from, past);
        while search.at < search.count {
            let node = search.queue[search.at];
            search.at += 1;
            if !past.has(graph.node_role(node)) {
                follow(graph, node, &mut search);
            }
        }
        Reach::found(graph, search)
    }

    // The closure that a search has found once no node waits.
    fn found(graph: &'g Graph, search: Search) -> Reach<'g>
        requires search { IsSearch (shape graph.now) (λ _. ⊥) search }
        requires followed { search.count ≤ search.at }
        requires there { search.from < length graph.now.nodes }
        ensures { result ≡ record { graph = graph.entry.now; from = search.from; past = search.past } }
    {
        // The graph's numbers are there.
        let _edges = graph.edges();
        Reach { graph, search }
    }

    /// The graph.
    pub fn graph(&self) -> &'g Graph
        ensures same { result.now ≡ self.now.graph }
        ensures graph { IsGraph self.now.graph }
    {
        self.graph
    }

    /// Whether the node is reached.
    pub fn has(&self, node: NodeId) -> bool
        requires { node < length self.now.graph.nodes }
        ensures { IsTrue result ↔ IsWithin self.now node }
    {
        let found = &self.search.found;
        found[node.0 as usize].is_some()
    }

    /// The least reached node of the role, or `None` if none is reached.
    pub fn first_of(&self, role: Role) -> Option<NodeId>
        ensures { IsFirstOf self.now role result }
    {
        let graph = self.graph;
        for number in 0..graph.nodes() {
            let node = NodeId(number);
            if graph.node_role(node) == role && self.has(node) {
                return Some(node);
            }
        }
        None
    }

    /// A walk to a node that is reached; which of several is not specified. It takes memory for the walk.
    pub fn walk_to(&self, alloc: Global, node: NodeId) -> Result<Vec<Label>, OutOfMemory>
        requires there { node < length self.now.graph.nodes }
        requires within { IsWithin self.now node }
        ensures { IfOk result (λ walk. LeadsPast (shape self.now.graph) self.now.from self.now.past node walk.items) }
    {
        let mut walk = Vec::new(alloc);
        let mut at = node;
        let graph = self.graph;
        let found = &self.search.found;
        while let Some(way) = found[at.0 as usize]
            && way.edges > 0
        {
            walk.push(way.last)?;
            at = graph.edge(way.last).source;
        }
        walk.reverse();
        Ok(walk)
    }
}

// Follows the edges that leave a node which was found.
fn follow(graph: &Graph, node: NodeId, search: &mut Search)
    requires search { IsSearch (shape graph.now) (λ e. source (shape graph.now) e ≡ node) search.old }
    requires found { IsFound search.old.found node }
    requires there { node < length graph.now.nodes }
    requires passed { is_in (role_at (shape graph.now) node) search.old.past ≡ false }
    ensures search { IsSearch (shape graph.now) (λ _. ⊥) search.new }
    ensures from { search.new.from ≡ search.old.from }
    ensures past { search.new.past ≡ search.old.past }
    ensures at { search.new.at ≡ search.old.at }
{
    // At most 256.
    let _nodes = graph.nodes();
    let Some(found) = search.found[node.0 as usize] else {
        return;
    };
    let edges = found.edges + 1;
    for label in graph.edges_from(node) {
        let walk = WalkEnd {
            edges,
            last: *label,
        };
        search.enter(graph.edge(*label).target, walk);
    }
}
