//! Whether a use can be expanded.
ghost use Rattle.std.specs.Prelude.{◌≡◌, ◌+◌, ◌<◌, ◌&&◌, nat_lt, false, length, IfErr, IfOk};
ghost use Rattle.std.specs.List.{list_any};
ghost use Rattle.sg_model.specs.Lists.{has_text};
ghost use Rattle.sg_protocol.specs.Graph.{node_name};
ghost use Rattle.sg_graph.specs.Parts.{variable_names, node_names, edge_names};
ghost use Rattle.sg_compose.specs.Expansion.{clashes, has_long, inner_name, inside, is_inside, is_long, roles_fit, too_large};

use crate::fault::ComposeFault;
use crate::rename::{inner_name, is_inside, is_long, player};
use sg_base::{Label, Name, NodeId, Var};
use sg_graph::Graph;
use sg_parse::Use;
use std::alloc::Global;

// Each role has a player, and the nodes of the use have those of start and end.
pub fn roles_fit(graph: &Graph, inner: &Graph, used: &Use, end: NodeId) -> bool
    requires from { used.now.from < length graph.now.nodes }
    requires to { used.now.to < length graph.now.nodes }
    requires end { end < length inner.now.nodes }
    ensures { result ≡ roles_fit graph.now inner.now used.now end }
{
    let start = player(used, inner.node_role(NodeId(0)));
    let last = player(used, inner.node_role(end));
    used.roles.len() == inner.roles() as usize
        && graph.node_role(used.from).0 == start.0
        && graph.node_role(used.to).0 == last.0
}

// A new name would be too long.
pub fn has_long(inner: &Graph, used: &Use, end: NodeId) -> bool
    ensures { result ≡ has_long inner.now used.now end }
{
    has_long_var(inner, used) || has_long_node(inner, used, end) || has_long_edge(inner, used)
}

fn has_long_var(inner: &Graph, used: &Use) -> bool
    ensures { result ≡ list_any (λ v. is_long (inner_name used.now v.name)) inner.now.variables }
{
    for number in 0..inner.vars() {
        if is_long(used, &inner.var_name(Var(number))) {
            return true;
        }
    }
    false
}

fn has_long_node(inner: &Graph, used: &Use, end: NodeId) -> bool
    ensures { result ≡ list_any (λ x. is_long (inner_name used.now (node_name inner.now x))) (inside inner.now end) }
{
    for number in 0..inner.nodes() {
        if is_long_node(inner, used, end, NodeId(number)) {
            return true;
        }
    }
    false
}

// The node is inside, and its name is too long.
fn is_long_node(inner: &Graph, used: &Use, end: NodeId, node: NodeId) -> bool
    requires { node < length inner.now.nodes }
    ensures { result ≡ is_inside end node && is_long (inner_name used.now (node_name inner.now node)) }
{
    is_inside(end, node) && is_long(used, &inner.node_name(node))
}

fn has_long_edge(inner: &Graph, used: &Use) -> bool
    ensures { result ≡ list_any (λ e. is_long (inner_name used.now e.name)) inner.now.edges }
{
    for number in 0..inner.edges() {
        if is_long(used, &inner.edge_name(Label(number))) {
            return true;
        }
    }
    false
}

// A new name is there in its kind. None is too long.
pub fn clashes(
    alloc: Global,
    graph: &Graph,
    inner: &Graph,
    used: &Use,
    end: NodeId,
) -> Result<bool, ComposeFault>
    requires { has_long inner.now used.now end ≡ false }
    ensures answer { IfOk result (λ b. b ≡ clashes graph.now inner.now used.now end) }
    ensures memory { IfErr result (λ e. e ≡ ComposeFault.OutOfMemory) }
{
    let vars = has_var(alloc, graph, inner, used)?;
    let nodes = has_node(alloc, graph, inner, used, end)?;
    let edges = has_edge(alloc, graph, inner, used)?;
    Ok(vars || nodes || edges)
}

fn has_var(alloc: Global, graph: &Graph, inner: &Graph, used: &Use) -> Result<bool, ComposeFault>
    requires { list_any (λ v. is_long (inner_name used.now v.name)) inner.now.variables ≡ false }
    ensures answer { IfOk result (λ b. b ≡ list_any (λ v. has_text (inner_name used.now v.name) (variable_names graph.now)) inner.now.variables) }
    ensures memory { IfErr result (λ e. e ≡ ComposeFault.OutOfMemory) }
{
    for number in 0..inner.vars() {
        let name = inner_name(alloc, used, &inner.var_name(Var(number)))?;
        if names_var(graph, &name) {
            return Ok(true);
        }
    }
    Ok(false)
}

fn has_node(
    alloc: Global,
    graph: &Graph,
    inner: &Graph,
    used: &Use,
    end: NodeId,
) -> Result<bool, ComposeFault>
    requires { list_any (λ x. is_long (inner_name used.now (node_name inner.now x))) (inside inner.now end) ≡ false }
    ensures answer { IfOk result (λ b. b ≡ list_any (λ x. has_text (inner_name used.now (node_name inner.now x)) (node_names graph.now)) (inside inner.now end)) }
    ensures memory { IfErr result (λ e. e ≡ ComposeFault.OutOfMemory) }
{
    for number in 0..inner.nodes() {
        let there = is_there(alloc, graph, inner, used, end, NodeId(number))?;
        if there {
            return Ok(true);
        }
    }
    Ok(false)
}

// The node is inside, and its name is there.
fn is_there(
    alloc: Global,
    graph: &Graph,
    inner: &Graph,
    used: &Use,
    end: NodeId,
    node: NodeId,
) -> Result<bool, ComposeFault>
    requires there { node < length inner.now.nodes }
    requires short { (is_inside end node && is_long (inner_name used.now (node_name inner.now node))) ≡ false }
    ensures answer { IfOk result (λ b. b ≡ (is_inside end node && has_text (inner_name used.now (node_name inner.now node)) (node_names graph.now))) }
    ensures memory { IfErr result (λ e. e ≡ ComposeFault.OutOfMemory) }
{
    if !is_inside(end, node) {
        return Ok(false);
    }
    let name = inner_name(alloc, used, &inner.node_name(node))?;
    Ok(names_node(graph, &name))
}

fn names_var(graph: &Graph, name: &Name) -> bool
    ensures { result ≡ has_text name.now (variable_names graph.now) }
{
    graph.find_var(name).is_some()
}

fn names_node(graph: &Graph, name: &Name) -> bool
    ensures { result ≡ has_text name.now (node_names graph.now) }
{
    graph.find_node(name).is_some()
}

fn names_edge(graph: &Graph, name: &Name) -> bool
    ensures { result ≡ has_text name.now (edge_names graph.now) }
{
    graph.find_edge(name).is_some()
}

fn has_edge(alloc: Global, graph: &Graph, inner: &Graph, used: &Use) -> Result<bool, ComposeFault>
    requires { list_any (λ e. is_long (inner_name used.now e.name)) inner.now.edges ≡ false }
    ensures answer { IfOk result (λ b. b ≡ list_any (λ e. has_text (inner_name used.now e.name) (edge_names graph.now)) inner.now.edges) }
    ensures memory { IfErr result (λ e. e ≡ ComposeFault.OutOfMemory) }
{
    for number in 0..inner.edges() {
        let name = inner_name(alloc, used, &inner.edge_name(Label(number)))?;
        if names_edge(graph, &name) {
            return Ok(true);
        }
    }
    Ok(false)
}

// There would be more variables, nodes or edges than a graph has.
pub fn too_large(graph: &Graph, inner: &Graph, end: NodeId) -> bool
    requires late { 0 < end }
    requires there { end < length inner.now.nodes }
    ensures { result ≡ too_large graph.now inner.now end }
{
    has_many_vars(graph, inner) || has_many_nodes(graph, inner, end) || has_many_edges(graph, inner)
}

fn has_many_vars(graph: &Graph, inner: &Graph) -> bool
    ensures { result ≡ nat_lt 32 (length graph.now.variables + length inner.now.variables) }
{
    graph.vars() + inner.vars() > 32
}

#[tactic(auto, using(crate::proofs::Ends::inside_length))]
fn has_many_nodes(graph: &Graph, inner: &Graph, end: NodeId) -> bool
    requires late { 0 < end }
    requires there { end < length inner.now.nodes }
    ensures { result ≡ nat_lt 256 (length graph.now.nodes + length (inside inner.now end)) }
{
    graph.nodes() + (inner.nodes() - 2) > 256
}

fn has_many_edges(graph: &Graph, inner: &Graph) -> bool
    ensures { result ≡ nat_lt 512 (length graph.now.edges + length inner.now.edges) }
{
    graph.edges() + inner.edges() > 512
}
