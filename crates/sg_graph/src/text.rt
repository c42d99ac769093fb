//! The canonical text of a graph: one statement on each line.
ghost use Rattle.std.specs.Prelude.{◌≡◌, ◌<◌, ◌++◌, [], ◌∷◌, length, codes, flat_map, map, IfOk, OnOk};
ghost use Rattle.sg_protocol.specs.Graph.{VariableKind, AreNumbers, canonical, clause, edge_line, ended, kind_text, node_line, node_name, role_name, spaced, variable_line, variable_name};
ghost use Rattle.sg_graph.specs.Parts.{kind_of_type, variable_at, node_at, edge_at};

use crate::Graph;
use sg_base::{ByteOut, Label, Name, NodeId, OutOfMemory, Role, RoleSet, Var, VarSet, VarType};
use std::alloc::Global;

/// The canonical text of a graph: its name, its roles, its variables, its nodes and its edges, each a statement on a line of its own, in
/// the order of their numbers. Equal graphs have equal texts.
pub fn canonical_text(alloc: Global, graph: &Graph) -> Result<Vec<u8>, OutOfMemory>
    ensures { IfOk result (λ text. text.items ≡ canonical graph.now) }
{
    let mut out = ByteOut::new(alloc);
    match put_graph(&mut out, graph) {
        Ok(()) => Ok(out.done()),
        Err(fault) => Err(fault),
    }
}

// Each statement of a graph.
fn put_graph(out: &mut ByteOut, graph: &Graph) -> Result<(), OutOfMemory>
    ensures { OnOk result (out.new ≡ out.old ++ canonical graph.now) }
{
    put_statement(out, b"graph ", &graph.name())?;
    put_roles(out, graph)?;
    put_vars(out, graph)?;
    put_nodes(out, graph)?;
    put_edges(out, graph)
}

fn put_end(out: &mut ByteOut) -> Result<(), OutOfMemory>
    ensures { OnOk result (out.new ≡ ended out.old) }
{
    out.bytes(b";\n")
}

fn put_name(out: &mut ByteOut, name: &Name) -> Result<(), OutOfMemory>
    ensures { OnOk result (out.new ≡ out.old ++ name.now) }
{
    out.bytes(name.as_bytes())
}

fn put_statement(out: &mut ByteOut, word: &[u8], name: &Name) -> Result<(), OutOfMemory>
    ensures { OnOk result (out.new ≡ out.old ++ ended (word.now ++ name.now)) }
{
    out.bytes(word)?;
    put_name(out, name)?;
    put_end(out)
}

// How the statement of a variable, a node or an edge begins.
fn put_head(out: &mut ByteOut, word: &[u8], name: &Name) -> Result<(), OutOfMemory>
    ensures { OnOk result (out.new ≡ out.old ++ word.now ++ name.now ++ codes ": ") }
{
    out.bytes(word)?;
    put_name(out, name)?;
    out.bytes(b": ")
}

fn put_spaced(out: &mut ByteOut, name: &Name) -> Result<(), OutOfMemory>
    ensures { OnOk result (out.new ≡ out.old ++ 32 ∷ name.now) }
{
    out.u8(b' ')?;
    put_name(out, name)
}

fn put_roles(out: &mut ByteOut, graph: &Graph) -> Result<(), OutOfMemory>
    ensures { OnOk result (out.new ≡ out.old ++ flat_map (λ r. ended (codes "role " ++ r)) graph.now.roles) }
{
    for number in 0..graph.roles() {
        put_statement(out, b"role ", &graph.role_name(Role(number)))?;
    }
    Ok(())
}

fn put_vars(out: &mut ByteOut, graph: &Graph) -> Result<(), OutOfMemory>
    ensures { OnOk result (out.new ≡ out.old ++ flat_map (variable_line graph.now) graph.now.variables) }
{
    for number in 0..graph.vars() {
        put_var(out, graph, Var(number))?;
    }
    Ok(())
}

fn put_var(out: &mut ByteOut, graph: &Graph, var: Var) -> Result<(), OutOfMemory>
    requires { var < length graph.now.variables }
    ensures { OnOk result (out.new ≡ out.old ++ variable_line graph.now (variable_at graph.now var)) }
{
    put_head(out, b"var ", &graph.var_name(var))?;
    put_type(out, graph.var_type(var))?;
    out.bytes(b" by")?;
    put_roles_of(out, graph, graph.writers(var))?;
    put_end(out)
}

fn put_type(out: &mut ByteOut, kind: VarType) -> Result<(), OutOfMemory>
    ensures { OnOk result (out.new ≡ out.old ++ kind_text (kind_of_type kind)) }
{
    match kind {
        VarType::Int => out.bytes(b"int"),
        VarType::Text => out.bytes(b"text"),
    }
}

fn put_roles_of(out: &mut ByteOut, graph: &Graph, roles: RoleSet) -> Result<(), OutOfMemory>
    requires { AreNumbers (length graph.now.roles) roles }
    ensures { OnOk result (out.new ≡ out.old ++ spaced (map (role_name graph.now) roles)) }
{
    for number in 0..graph.roles() {
        let role = Role(number);
        if roles.has(role) {
            put_spaced(out, &graph.role_name(role))?;
        }
    }
    Ok(())
}

fn put_nodes(out: &mut ByteOut, graph: &Graph) -> Result<(), OutOfMemory>
    ensures { OnOk result (out.new ≡ out.old ++ flat_map (node_line graph.now) graph.now.nodes) }
{
    for number in 0..graph.nodes() {
        put_node(out, graph, NodeId(number))?;
    }
    Ok(())
}

fn put_node(out: &mut ByteOut, graph: &Graph, node: NodeId) -> Result<(), OutOfMemory>
    requires { node < length graph.now.nodes }
    ensures { OnOk result (out.new ≡ out.old ++ node_line graph.now (node_at graph.now node)) }
{
    put_head(out, b"node ", &graph.node_name(node))?;
    put_name(out, &graph.role_name(graph.node_role(node)))?;
    put_end(out)
}

fn put_edges(out: &mut ByteOut, graph: &Graph) -> Result<(), OutOfMemory>
    ensures { OnOk result (out.new ≡ out.old ++ flat_map (edge_line graph.now) graph.now.edges) }
{
    for number in 0..graph.edges() {
        put_edge(out, graph, Label(number))?;
    }
    Ok(())
}

fn put_edge(out: &mut ByteOut, graph: &Graph, label: Label) -> Result<(), OutOfMemory>
    requires { label < length graph.now.edges }
    ensures { OnOk result (out.new ≡ out.old ++ edge_line graph.now (edge_at graph.now label)) }
{
    let edge = graph.edge(label);
    put_head(out, b"edge ", &graph.edge_name(label))?;
    put_arrow(out, graph, edge.source, edge.target)?;
    put_clause(out, graph, b" writes", edge.writes)?;
    put_clause(out, graph, b" reads", edge.reads)?;
    put_end(out)
}

fn put_arrow(
    out: &mut ByteOut,
    graph: &Graph,
    source: NodeId,
    target: NodeId,
) -> Result<(), OutOfMemory>
    requires source { source < length graph.now.nodes }
    requires target { target < length graph.now.nodes }
    ensures { OnOk result (out.new ≡ out.old ++ node_name graph.now source ++ codes " -> " ++ node_name graph.now target) }
{
    put_name(out, &graph.node_name(source))?;
    out.bytes(b" -> ")?;
    put_name(out, &graph.node_name(target))
}

fn put_clause(
    out: &mut ByteOut,
    graph: &Graph,
    word: &[u8],
    vars: VarSet,
) -> Result<(), OutOfMemory>
    requires { AreNumbers (length graph.now.variables) vars }
    ensures { OnOk result (out.new ≡ out.old ++ clause word.now (map (variable_name graph.now) vars)) }
{
    if vars.is_empty() {
        return Ok(());
    }
    out.bytes(word)?;
    put_vars_of(out, graph, vars)
}

fn put_vars_of(out: &mut ByteOut, graph: &Graph, vars: VarSet) -> Result<(), OutOfMemory>
    requires { AreNumbers (length graph.now.variables) vars }
    ensures { OnOk result (out.new ≡ out.old ++ spaced (map (variable_name graph.now) vars)) }
{
    for number in 0..graph.vars() {
        let var = Var(number);
        if vars.has(var) {
            put_spaced(out, &graph.var_name(var))?;
        }
    }
    Ok(())
}
