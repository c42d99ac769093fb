//! The indices of a graph's names.
ghost use Rattle.std.specs.Prelude.{◌≡◌, bytes_eq, map, position};

use sg_base::{Label, Name, Role, Var};
use sg_graph::Graph;

/// The role of this name, if the graph has one.
pub fn role_index(graph: &Graph, name: &Name) -> Option<Role>
    ensures { result ≡ position (bytes_eq name.now) graph.now.roles }
{
    // Its roles differ, as those of a graph do.
    let _count = graph.roles();
    graph.find_role(name)
}

/// The variable of this name, if the graph has one.
pub fn var_index(graph: &Graph, name: &Name) -> Option<Var>
    ensures { result ≡ position (bytes_eq name.now) (map (λ v. v.name) graph.now.variables) }
{
    // Its variables differ, as those of a graph do.
    let _count = graph.vars();
    graph.find_var(name)
}

/// The label of this name, if the graph has one. It goes over the labels, at most 512.
pub fn label_index(graph: &Graph, name: &Name) -> Option<Label>
    ensures { result ≡ position (bytes_eq name.now) (map (λ e. e.name) graph.now.edges) }
{
    // Its labels differ, as those of a graph do.
    let _count = graph.edges();
    graph.find_edge(name)
}
