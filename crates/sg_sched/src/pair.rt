//! The graph `pair` that the edge lines make, edge by edge.
ghost use Rattle.std.specs.Prelude.{◌≡◌, ◌<◌, ◌≤◌, ◌++◌, [], ◌∷◌, max, map, false, length, option_copied, IfOk, IfSome, OnOk};
ghost use Rattle.std.specs.Option.{option_to_list};
ghost use Rattle.sg_model.specs.Lists.{has_text, below};
ghost use Rattle.sg_model.specs.Names.{reserved};
ghost use Rattle.sg_sched.specs.Pair.{edge, labels, node, pair_graph, graphs_of};
ghost use Rattle.sg_graph.specs.Adding.{with_role, with_node};

use crate::node_name::{name_of, node_name};
use sg_base::{Name, NodeId, OutOfMemory, Role, Seq, VarSet};
use sg_graph::{AddFault, Graph};
use std::alloc::{AllocError, Global};
use std::marker::Model;

/// The graph of the edges so far, if there are any. A clause sees the list of its edges.
#[derive(Drop)]
pub struct Pair {
    graph: Option<Graph>,
}

impl Model for Pair {
    ghost use Rattle.std.specs.Prelude.{List};
    ghost use Rattle.sg_protocol.specs.Graph.{Edge};
    ghost use Rattle.sg_sched.specs.Edges.{edges_of, HoldsPair};

    ghost Value = { List Edge };

    ghost view = { λ p. edges_of p.graph };

    ghost invariant = { λ p. HoldsPair p.graph };
}

impl Pair {
    /// No edges. It takes no memory.
    pub fn new() -> Pair
        ensures { result ≡ [] }
    {
        Pair { graph: None }
    }

    /// The graph, if there are edges.
    pub fn graph(&self) -> Option<&Graph>
        ensures graphs { graphs_of self.now ≡ option_to_list (option_copied result) }
        ensures roles { IfSome result (λ g. length g.now.roles ≡ 2) }
    {
        self.graph.as_ref()
    }

    /// The graph as a list, which is empty if there are no edges.
    pub fn into_list(self, alloc: Global) -> Result<Seq<Graph>, OutOfMemory>
        ensures { IfOk result (λ graphs. graphs ≡ graphs_of self) }
    {
        let Pair { graph } = self;
        let mut graphs = Seq::new(alloc);
        if let Some(graph) = graph {
            graphs.push(graph)?;
        }
        Ok(graphs)
    }

    /// The number of edges.
    pub fn len(&self) -> usize
        ensures { result ≡ length self.now }
    {
        match &self.graph {
            Some(graph) => graph.edges() as usize,
            None => 0,
        }
    }

    /// Whether an edge has the label.
    pub fn has(&self, label: &Name) -> bool
        ensures { result ≡ has_text label.now (labels self.now) }
    {
        match &self.graph {
            Some(graph) => graph.find_edge(label).is_some(),
            None => false,
        }
    }

    /// Adds an edge between two nodes, with the nodes that its numbers need.
    pub fn add(&mut self, alloc: Global, label: Name, from: u8, to: u8) -> Result<(), OutOfMemory>
        requires plain { has_text label reserved ≡ false }
        requires new_label { has_text label (labels self.old) ≡ false }
        requires room { length self.old < 512 }
        ensures { OnOk result (self.new ≡ self.old ++ edge label from to ∷ []) }
    {
        let mut graph = match self.graph.take() {
            Some(graph) => graph,
            None => empty_pair(alloc)?,
        };
        add_edge(&mut graph, label, from, to)?;
        self.graph = Some(graph);
        Ok(())
    }
}

// The graph with the roles a and b and no nodes.
fn empty_pair(alloc: Global) -> Result<Graph, OutOfMemory>
    ensures { IfOk result (λ g. g ≡ pair_graph []) }
{
    let mut graph = Graph::new(alloc, name_of(b"pair"));
    add_role(&mut graph, name_of(b"a"))?;
    add_role(&mut graph, name_of(b"b"))?;
    Ok(graph)
}

fn add_role(graph: &mut Graph, name: Name) -> Result<(), OutOfMemory>
    requires plain { has_text name reserved ≡ false }
    requires new_name { has_text name graph.old.roles ≡ false }
    requires room { length graph.old.roles < 16 }
    ensures { OnOk result (graph.new ≡ with_role graph.old name) }
{
    match graph.add_role(name) {
        Ok(_) => Ok(()),
        Err(fault) => Err(want(fault)),
    }
}

// The graph with one more edge, and the nodes that it needs.
fn add_edge(graph: &mut Graph, label: Name, from: u8, to: u8) -> Result<(), OutOfMemory>
    requires pair { graph.old ≡ pair_graph graph.old.edges }
    requires plain { has_text label reserved ≡ false }
    requires new_label { has_text label (labels graph.old.edges) ≡ false }
    requires room { length graph.old.edges < 512 }
    ensures { OnOk result (graph.new ≡ pair_graph (graph.old.edges ++ edge label from to ∷ [])) }
{
    add_nodes(graph, u16::from(from.max(to)) + 1)?;
    let none = VarSet::empty();
    match graph.add_edge(
        label,
        NodeId(u16::from(from)),
        NodeId(u16::from(to)),
        none,
        none,
    ) {
        Ok(_) => Ok(()),
        Err(fault) => Err(want(fault)),
    }
}

// The graph with at least `count` nodes.
fn add_nodes(graph: &mut Graph, count: u16) -> Result<(), OutOfMemory>
    requires roles { length graph.old.roles ≡ 2 }
    requires nodes { graph.old.nodes ≡ map node (below (length graph.old.nodes)) }
    requires few { count ≤ 256 }
    ensures { OnOk result (graph.new ≡ record graph.old { nodes = map node (below (max (length graph.old.nodes) count)) }) }
{
    while graph.nodes() < count {
        let number = graph.nodes() as u8;
        add_node(graph, number)?;
    }
    Ok(())
}

// The graph with the node of the next number.
fn add_node(graph: &mut Graph, number: u8) -> Result<(), OutOfMemory>
    requires roles { length graph.old.roles ≡ 2 }
    requires nodes { graph.old.nodes ≡ map node (below number) }
    ensures { OnOk result (graph.new ≡ with_node graph.old (node number)) }
{
    match graph.add_node(node_name(number), Role(number % 2)) {
        Ok(_) => Ok(()),
        Err(fault) => Err(want(fault)),
    }
}

// The fault if a part isn't added because memory ran out.
fn want(fault: AddFault) -> OutOfMemory
    requires { fault ≡ AddFault.OutOfMemory }
{
    AllocError
}
