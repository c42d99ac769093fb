//! Names of what a graph has by number, appended to what is there.
ghost use Rattle.std.specs.Prelude.{◌≡◌, ◌++◌, ◌∷◌, OnErr, OnOk, length, take};
ghost use Rattle.sg_protocol.specs.Graph.{role_name, variable_name, node_name};
ghost use Rattle.sg_graph.specs.NamesOfGraph.{label_and_var_text, walk_text};
ghost use Rattle.sg_graph.specs.Parts.{edge_name};

use crate::Graph;
use sg_base::{ByteOut, Label, NodeId, OutOfMemory, Role, Var};

/// Writes the name of a label's edge, nothing if no edge has the label. If memory runs out, what was there
/// still stands first.
pub fn put_label(out: &mut ByteOut, graph: &Graph, label: Label) -> Result<(), OutOfMemory>
    ensures ok { OnOk result (out.new ≡ out.old ++ edge_name graph.now label) }
    ensures prefix { OnErr result (take (length out.old) out.new ≡ out.old) }
{
    if label.0 >= graph.edges() {
        return Ok(());
    }
    out.bytes(graph.edge_name(label).as_bytes())
}

/// Writes the name of a node, nothing if the graph has no such node. If memory runs out, what was there
/// still stands first.
pub fn put_node(out: &mut ByteOut, graph: &Graph, node: NodeId) -> Result<(), OutOfMemory>
    ensures ok { OnOk result (out.new ≡ out.old ++ node_name graph.now node) }
    ensures prefix { OnErr result (take (length out.old) out.new ≡ out.old) }
{
    if node.0 >= graph.nodes() {
        return Ok(());
    }
    out.bytes(graph.node_name(node).as_bytes())
}

/// Writes the name of a role, nothing if the graph has no such role. If memory runs out, what was there
/// still stands first.
pub fn put_role(out: &mut ByteOut, graph: &Graph, role: Role) -> Result<(), OutOfMemory>
    ensures ok { OnOk result (out.new ≡ out.old ++ role_name graph.now role) }
    ensures prefix { OnErr result (take (length out.old) out.new ≡ out.old) }
{
    if role.0 >= graph.roles() {
        return Ok(());
    }
    out.bytes(graph.role_name(role).as_bytes())
}

/// Writes the name of a variable, nothing if the graph has no such variable. If memory runs out, what was there
/// still stands first.
pub fn put_var(out: &mut ByteOut, graph: &Graph, var: Var) -> Result<(), OutOfMemory>
    ensures ok { OnOk result (out.new ≡ out.old ++ variable_name graph.now var) }
    ensures prefix { OnErr result (take (length out.old) out.new ≡ out.old) }
{
    if var.0 >= graph.vars() {
        return Ok(());
    }
    out.bytes(graph.var_name(var).as_bytes())
}

/// Writes the names of a label's edge and of a variable, with a space between them.
pub fn put_label_and_var(
    out: &mut ByteOut,
    graph: &Graph,
    label: Label,
    var: Var,
) -> Result<(), OutOfMemory>
    ensures { OnOk result (out.new ≡ out.old ++ label_and_var_text graph.now label var) }
{
    put_label(out, graph, label)?;
    out.u8(b' ')?;
    put_var(out, graph, var)
}

/// Writes the names of the edges of a walk, each after a space.
pub fn put_walk(out: &mut ByteOut, graph: &Graph, walk: &[Label]) -> Result<(), OutOfMemory>
    ensures { OnOk result (out.new ≡ out.old ++ walk_text graph.now walk.now) }
{
    for label in walk {
        put_next(out, graph, *label)?;
    }
    Ok(())
}

// Writes the name of the next edge of a walk.
fn put_next(out: &mut ByteOut, graph: &Graph, label: Label) -> Result<(), OutOfMemory>
    ensures { OnOk result (out.new ≡ out.old ++ 32 ∷ edge_name graph.now label) }
{
    out.u8(b' ')?;
    put_label(out, graph, label)
}
