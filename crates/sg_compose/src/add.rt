//! What a use adds to a graph.
ghost use Rattle.std.specs.Prelude.{◌≡◌, ◌≢◌, ℕ, ◌+◌, ◌<◌, ◌≤◌, ◌++◌, false, length, map, OnOk, IfErr};
ghost use Rattle.sg_model.specs.Lists.{has_text};
ghost use Rattle.sg_protocol.specs.Graph.{AreNames, IsGraph, node_name};
ghost use Rattle.sg_graph.specs.Adding.{with_variable, with_node, with_edge};
ghost use Rattle.sg_graph.specs.Parts.{edge_at, edge_names, node_names, variable_at, variable_names};
ghost use Rattle.sg_compose.specs.Expansion.{inner_name, inside, is_long, new_edge, new_node, new_nodes, new_variable, new_variables, player, with_use};

use crate::fault::ComposeFault;
use crate::rename::{inner_name, is_inside, player, players, replaced, shifted};
use sg_base::{Label, NodeId, Var};
use sg_graph::{AddFault, Graph};
use sg_parse::Use;
use std::alloc::Global;

// Adds what the use puts in, which gives a graph: its names are new and there is room, so only memory can lack.
pub fn add_use(
    alloc: Global,
    graph: &mut Graph,
    inner: &Graph,
    used: &Use,
    end: NodeId,
) -> Result<(), ComposeFault>
    requires late { 0 < end }
    requires there { end < length inner.now.nodes }
    requires from { used.now.from < length graph.old.nodes }
    requires to { used.now.to < length graph.old.nodes }
    requires players { (r : ℕ) → player used.now r < length graph.old.roles }
    requires graph { IsGraph (with_use graph.old inner.now used.now end) }
    ensures added { OnOk result (graph.new ≡ with_use graph.old inner.now used.now end) }
    ensures memory { IfErr result (λ e. e ≡ ComposeFault.OutOfMemory) }
{
    let vars = graph.vars();
    let nodes = graph.nodes();
    add_vars(alloc, graph, inner, used)?;
    add_nodes(alloc, graph, inner, used, end)?;
    add_edges(alloc, graph, inner, used, end, vars, nodes)
}

fn add_vars(alloc: Global, graph: &mut Graph, inner: &Graph, used: &Use) -> Result<(), ComposeFault>
    requires players { (r : ℕ) → player used.now r < length graph.old.roles }
    requires names { AreNames (map (λ v. v.name) (graph.old.variables ++ new_variables inner.now used.now)) }
    requires room { length (graph.old.variables ++ new_variables inner.now used.now) ≤ 32 }
    ensures added { OnOk result (graph.new ≡ record graph.old { variables = graph.old.variables ++ new_variables inner.now used.now }) }
    ensures memory { IfErr result (λ e. e ≡ ComposeFault.OutOfMemory) }
{
    for number in 0..inner.vars() {
        add_var(alloc, graph, inner, used, Var(number))?;
    }
    Ok(())
}

fn add_var(
    alloc: Global,
    graph: &mut Graph,
    inner: &Graph,
    used: &Use,
    var: Var,
) -> Result<(), ComposeFault>
    requires var { var < length inner.now.variables }
    requires players { (r : ℕ) → player used.now r < length graph.old.roles }
    requires short { is_long (inner_name used.now (variable_at inner.now var).name) ≡ false }
    requires new { has_text (inner_name used.now (variable_at inner.now var).name) (variable_names graph.old) ≡ false }
    requires room { length graph.old.variables < 32 }
    ensures added { OnOk result (graph.new ≡ with_variable graph.old (new_variable used.now (variable_at inner.now var))) }
    ensures memory { IfErr result (λ e. e ≡ ComposeFault.OutOfMemory) }
{
    let name = inner_name(alloc, used, &inner.var_name(var))?;
    // A graph has at most sixteen roles.
    let _count = graph.roles();
    let _others = inner.roles();
    let writers = players(used, inner.writers(var));
    match graph.add_var(name, inner.var_type(var), writers) {
        Ok(_) => Ok(()),
        Err(fault) => Err(lacking(fault)),
    }
}

fn add_nodes(
    alloc: Global,
    graph: &mut Graph,
    inner: &Graph,
    used: &Use,
    end: NodeId,
) -> Result<(), ComposeFault>
    requires players { (r : ℕ) → player used.now r < length graph.old.roles }
    requires names { AreNames (map (λ n. n.name) (graph.old.nodes ++ new_nodes inner.now used.now end)) }
    requires room { length (graph.old.nodes ++ new_nodes inner.now used.now end) ≤ 256 }
    ensures added { OnOk result (graph.new ≡ record graph.old { nodes = graph.old.nodes ++ new_nodes inner.now used.now end }) }
    ensures memory { IfErr result (λ e. e ≡ ComposeFault.OutOfMemory) }
{
    for number in 0..inner.nodes() {
        if is_inside(end, NodeId(number)) {
            add_node(alloc, graph, inner, used, NodeId(number))?;
        }
    }
    Ok(())
}

fn add_node(
    alloc: Global,
    graph: &mut Graph,
    inner: &Graph,
    used: &Use,
    node: NodeId,
) -> Result<(), ComposeFault>
    requires node { node < length inner.now.nodes }
    requires players { (r : ℕ) → player used.now r < length graph.old.roles }
    requires short { is_long (inner_name used.now (node_name inner.now node)) ≡ false }
    requires new { has_text (inner_name used.now (node_name inner.now node)) (node_names graph.old) ≡ false }
    requires room { length graph.old.nodes < 256 }
    ensures added { OnOk result (graph.new ≡ with_node graph.old (new_node inner.now used.now node)) }
    ensures memory { IfErr result (λ e. e ≡ ComposeFault.OutOfMemory) }
{
    let name = inner_name(alloc, used, &inner.node_name(node))?;
    match graph.add_node(name, player(used, inner.node_role(node))) {
        Ok(_) => Ok(()),
        Err(fault) => Err(lacking(fault)),
    }
}

fn add_edges(
    alloc: Global,
    graph: &mut Graph,
    inner: &Graph,
    used: &Use,
    end: NodeId,
    vars: u8,
    nodes: u16,
) -> Result<(), ComposeFault>
    requires late { 0 < end }
    requires there { end < length inner.now.nodes }
    requires from { used.now.from < nodes }
    requires to { used.now.to < nodes }
    requires nodes { nodes + length (inside inner.now end) ≤ length graph.old.nodes }
    requires vars { vars + length inner.now.variables ≤ length graph.old.variables }
    requires names { AreNames (map (λ e. e.name) (graph.old.edges ++ map (new_edge vars nodes used.now end) inner.now.edges)) }
    requires room { length (graph.old.edges ++ map (new_edge vars nodes used.now end) inner.now.edges) ≤ 512 }
    ensures added { OnOk result (graph.new ≡ record graph.old { edges = graph.old.edges ++ map (new_edge vars nodes used.now end) inner.now.edges }) }
    ensures memory { IfErr result (λ e. e ≡ ComposeFault.OutOfMemory) }
{
    for number in 0..inner.edges() {
        add_edge(alloc, graph, inner, used, end, vars, nodes, Label(number))?;
    }
    Ok(())
}

fn add_edge(
    alloc: Global,
    graph: &mut Graph,
    inner: &Graph,
    used: &Use,
    end: NodeId,
    vars: u8,
    nodes: u16,
    label: Label,
) -> Result<(), ComposeFault>
    requires late { 0 < end }
    requires there { end < length inner.now.nodes }
    requires from { used.now.from < nodes }
    requires to { used.now.to < nodes }
    requires nodes { nodes + length (inside inner.now end) ≤ length graph.old.nodes }
    requires vars { vars + length inner.now.variables ≤ length graph.old.variables }
    requires label { label < length inner.now.edges }
    requires short { is_long (inner_name used.now (edge_at inner.now label).name) ≡ false }
    requires new { has_text (inner_name used.now (edge_at inner.now label).name) (edge_names graph.old) ≡ false }
    requires room { length graph.old.edges < 512 }
    ensures added { OnOk result (graph.new ≡ with_edge graph.old (new_edge vars nodes used.now end (edge_at inner.now label))) }
    ensures memory { IfErr result (λ e. e ≡ ComposeFault.OutOfMemory) }
{
    let name = inner_name(alloc, used, &inner.edge_name(label))?;
    // A graph has at most 32 variables and 256 nodes.
    let _count = graph.vars();
    let _nodes = graph.nodes();
    let _others = inner.nodes();
    let edge = inner.edge(label);
    let source = replaced(nodes, used, end, edge.source);
    let target = replaced(nodes, used, end, edge.target);
    let writes = shifted(vars, edge.writes);
    let reads = shifted(vars, edge.reads);
    match graph.add_edge(name, source, target, writes, reads) {
        Ok(_) => Ok(()),
        Err(fault) => Err(lacking(fault)),
    }
}

// The fault of a part whose name is new and which there is room for.
fn lacking(fault: AddFault) -> ComposeFault
    requires new { fault ≢ AddFault.Twice }
    requires room { fault ≢ AddFault.TooMany }
    ensures { result ≡ ComposeFault.OutOfMemory }
{
    match fault {
        AddFault::OutOfMemory => ComposeFault::OutOfMemory,
        AddFault::Twice | AddFault::TooMany => unreachable!(),
    }
}
