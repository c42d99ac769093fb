//! The graph, its counts and its parts by their numbers.
ghost use Rattle.std.specs.Prelude.{◌≡◌, ℕ, ◌<◌, false, length, All, Contains, IfOk};
ghost use Rattle.sg_model.specs.Lists.{has_text};
ghost use Rattle.sg_model.specs.Names.{reserved};
ghost use Rattle.sg_model.specs.Shape.{role_at, source, sender, receiver};
ghost use Rattle.sg_protocol.specs.Graph.{IsGraph, AreNumbers, shape, role_name, variable_name, node_name, kind_of, writers};
ghost use Rattle.sg_graph.specs.Parts.{kind_of_type, edge_name};

mod adding;
mod finding;

use crate::Edge;
pub use adding::AddFault;
use sg_base::{Label, Name, NodeId, OutOfMemory, Role, RoleSet, Seq, Var, VarType};
use std::alloc::Global;
use std::marker::Model;

/// A graph. A clause sees its name and the lists of its parts, each part at its number. The labels that leave a node are looked up
/// without a search.
#[derive(Debug, Drop)]
pub struct Graph {
    name: Name,
    roles: Vec<Name>,
    vars: Vec<Variable>,
    nodes: Vec<Node>,
    edges: Vec<NamedEdge>,
    // The labels that leave each node, in rising order.
    leaving: Vec<Seq<Label>>,
}

#[derive(Debug, Clone, Copy)]
struct Variable {
    name: Name,
    kind: VarType,
    writers: RoleSet,
}

#[derive(Debug, Clone, Copy)]
struct Node {
    name: Name,
    role: Role,
}

#[derive(Debug, Clone, Copy)]
struct NamedEdge {
    name: Name,
    edge: Edge,
}

impl Model for Graph {
    ghost use Rattle.sg_protocol.specs.Graph.{Graph};

    ghost Value = { Graph };

    ghost use Rattle.sg_graph.specs.Model.{graph_of};
    ghost use Rattle.sg_graph.specs.Invariant.{HoldsGraph};

    ghost view = { graph_of };

    ghost invariant = { HoldsGraph };
}

impl Graph {
    ghost use Rattle.sg_graph.specs.Adding.{no_parts};
    ghost use Rattle.sg_graph.specs.Edges.{edge_of_label, leaving_from};

    /// The graph of this name with no parts yet. It takes no memory.
    pub fn new(alloc: Global, name: Name) -> Graph
        requires { has_text name reserved ≡ false }
        ensures { result ≡ no_parts name }
    {
        // Its bytes are a name, as the graph asks.
        let _bytes = name.as_bytes();
        Graph {
            name,
            roles: Vec::new(alloc),
            vars: Vec::new(alloc),
            nodes: Vec::new(alloc),
            edges: Vec::new(alloc),
            leaving: Vec::new(alloc),
        }
    }

    /// The graph's name.
    pub fn name(&self) -> Name
        ensures name { result ≡ self.now.name }
        ensures graph { IsGraph self.now }
    {
        self.name
    }

    /// The number of roles, at most 16.
    pub fn roles(&self) -> u8
        ensures count { result ≡ length self.now.roles }
        ensures graph { IsGraph self.now }
    {
        self.roles.len() as u8
    }

    /// The number of variables, at most 32.
    pub fn vars(&self) -> u8
        ensures count { result ≡ length self.now.variables }
        ensures graph { IsGraph self.now }
    {
        self.vars.len() as u8
    }

    /// The number of nodes, at most 256.
    pub fn nodes(&self) -> u16
        ensures count { result ≡ length self.now.nodes }
        ensures graph { IsGraph self.now }
    {
        self.nodes.len() as u16
    }

    /// The number of edges, at most 512.
    pub fn edges(&self) -> u16
        ensures count { result ≡ length self.now.edges }
        ensures graph { IsGraph self.now }
    {
        self.edges.len() as u16
    }

    /// The name of a role.
    pub fn role_name(&self, role: Role) -> Name
        requires { role < length self.now.roles }
        ensures { result ≡ role_name self.now role }
    {
        self.roles[role.0 as usize]
    }

    /// The name of a variable.
    pub fn var_name(&self, var: Var) -> Name
        requires { var < length self.now.variables }
        ensures { result ≡ variable_name self.now var }
    {
        self.vars[var.0 as usize].name
    }

    /// The type of a variable.
    pub fn var_type(&self, var: Var) -> VarType
        requires { var < length self.now.variables }
        ensures { kind_of_type result ≡ kind_of self.now var }
    {
        self.vars[var.0 as usize].kind
    }

    /// The roles that may write a variable: one or more.
    pub fn writers(&self, var: Var) -> RoleSet
        requires { var < length self.now.variables }
        ensures writers { result ≡ writers self.now var }
        ensures there { AreNumbers (length self.now.roles) result × (0 < length result) }
    {
        self.vars[var.0 as usize].writers
    }

    /// The name of a node.
    pub fn node_name(&self, node: NodeId) -> Name
        requires { node < length self.now.nodes }
        ensures { result ≡ node_name self.now node }
    {
        self.nodes[node.0 as usize].name
    }

    /// The role that acts at a node.
    pub fn node_role(&self, node: NodeId) -> Role
        requires { node < length self.now.nodes }
        ensures role { result ≡ role_at (shape self.now) node }
        ensures there { result < length self.now.roles }
    {
        self.nodes[node.0 as usize].role
    }

    /// The edge of a label.
    pub fn edge(&self, label: Label) -> &Edge
        requires { label < length self.now.edges }
        ensures edge { result.now ≡ edge_of_label self.now label }
        ensures ends { (result.now.source < length self.now.nodes) × (result.now.target < length self.now.nodes) }
        ensures sets { AreNumbers (length self.now.variables) result.now.writes × AreNumbers (length self.now.variables) result.now.reads }
    {
        &self.edges[label.0 as usize].edge
    }

    /// The labels of the edges that leave a node, in rising order; none for a node that isn't there. It takes no memory.
    pub fn edges_from(&self, node: NodeId) -> &[Label]
        ensures labels { result.now ≡ leaving_from self.now node }
        ensures each { All (λ e. (e < length self.now.edges) × (source (shape self.now) e ≡ node)) result.now }
        ensures all { (e : ℕ) → e < length self.now.edges → source (shape self.now) e ≡ node → Contains result.now e }
    {
        match self.leaving.get(node.0 as usize) {
            Some(labels) => labels.as_slice(),
            None => &[],
        }
    }

    /// The name of a label's edge.
    pub fn edge_name(&self, label: Label) -> Name
        requires { label < length self.now.edges }
        ensures { result ≡ edge_name self.now label }
    {
        self.edges[label.0 as usize].name
    }

    /// The role that sends along a label's edge: that of its source.
    pub fn sender(&self, label: Label) -> Role
        requires { label < length self.now.edges }
        ensures role { result ≡ sender (shape self.now) label }
        ensures there { result < length self.now.roles }
    {
        self.node_role(self.edge(label).source)
    }

    /// The role that receives along a label's edge: that of its target.
    pub fn receiver(&self, label: Label) -> Role
        requires { label < length self.now.edges }
        ensures role { result ≡ receiver (shape self.now) label }
        ensures there { result < length self.now.roles }
    {
        self.node_role(self.edge(label).target)
    }

    /// An equal graph.
    pub fn copy(&self, alloc: Global) -> Result<Graph, OutOfMemory>
        ensures { IfOk result (λ g. g ≡ self.now) }
    {
        Ok(Graph {
            name: self.name,
            roles: self.roles.as_slice().to_vec(alloc)?,
            vars: self.vars.as_slice().to_vec(alloc)?,
            nodes: self.nodes.as_slice().to_vec(alloc)?,
            edges: self.edges.as_slice().to_vec(alloc)?,
            leaving: copy_lists(alloc, self.leaving.as_slice())?,
        })
    }
}

// Equal lists.
fn copy_lists(alloc: Global, lists: &[Seq<Label>]) -> Result<Vec<Seq<Label>>, OutOfMemory>
    ensures { IfOk result (λ copies. copies.items ≡ lists.now) }
{
    let mut copies = Vec::new(alloc);
    for list in lists {
        copies.push(Seq::from_vec(list.as_slice().to_vec(alloc)?))?;
    }
    Ok(copies)
}
