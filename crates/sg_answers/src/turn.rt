//! What can be done in a session.
ghost use Rattle.std.specs.Prelude.{◌≡◌, ◌<◌, ◌++◌, ◌∷◌, OnOk, flat_map, length};
ghost use Rattle.sg_protocol.specs.Graph.{AreNumbers, kind_text};
ghost use Rattle.sg_graph.specs.Edges.{leaving_from};
ghost use Rattle.sg_graph.specs.Parts.{kind_of_type};
ghost use Rattle.sg_answers.specs.Answers.{bracketed, label_text, opened, turn_text, variable_text};

use crate::line::put_session;
use sg_base::{ByteOut, Label, NodeId, OutOfMemory, Var, VarSet, VarType};
use sg_graph::{Graph, put_label, put_node, put_var};

/// Writes what can be done at a node in the session of this number: the labels of the edges that leave it, each with what it writes.
pub fn put_turn(
    out: &mut ByteOut,
    session: u32,
    graph: &Graph,
    node: NodeId,
) -> Result<(), OutOfMemory>
    ensures { OnOk result (out.new ≡ out.old ++ turn_text session graph.now node) }
{
    out.bytes(b"turn ")?;
    put_session(out, session)?;
    out.bytes(b" at ")?;
    put_node(out, graph, node)?;
    out.u8(b':')?;
    put_labels(out, graph, node)?;
    out.u8(b'\n')
}

// Writes the labels of the edges that leave a node, each after a space.
fn put_labels(out: &mut ByteOut, graph: &Graph, node: NodeId) -> Result<(), OutOfMemory>
    ensures { OnOk result (out.new ≡ out.old ++ flat_map (λ e. 32 ∷ label_text graph.now e) (leaving_from graph.now node)) }
{
    let labels = graph.edges_from(node);
    for label in labels {
        out.u8(b' ')?;
        put_with_variables(out, graph, *label)?;
    }
    Ok(())
}

// Writes a label, and the variables that its edge writes between brackets, if there are some.
fn put_with_variables(out: &mut ByteOut, graph: &Graph, label: Label) -> Result<(), OutOfMemory>
    requires { label < length graph.now.edges }
    ensures { OnOk result (out.new ≡ out.old ++ label_text graph.now label) }
{
    put_label(out, graph, label)?;
    put_bracketed(out, graph, graph.edge(label).writes)
}

// Writes variables with their types between brackets, if there are some.
fn put_bracketed(out: &mut ByteOut, graph: &Graph, vars: VarSet) -> Result<(), OutOfMemory>
    requires { AreNumbers (length graph.now.variables) vars }
    ensures { OnOk result (out.new ≡ out.old ++ bracketed graph.now vars) }
{
    if vars.is_empty() {
        return Ok(());
    }
    put_variables(out, graph, vars)?;
    out.u8(b')')
}

// Writes variables with their types, the first after a bracket and the others after commas.
fn put_variables(out: &mut ByteOut, graph: &Graph, vars: VarSet) -> Result<(), OutOfMemory>
    requires { AreNumbers (length graph.now.variables) vars }
    ensures { OnOk result (out.new ≡ out.old ++ opened graph.now vars) }
{
    let mut mark = b'(';
    for number in 0..graph.vars() {
        let var = Var(number);
        if vars.has(var) {
            put_marked(out, mark, graph, var)?;
            mark = b',';
        }
    }
    Ok(())
}

// Writes a mark, and a variable with its type.
fn put_marked(out: &mut ByteOut, mark: u8, graph: &Graph, var: Var) -> Result<(), OutOfMemory>
    requires { var < length graph.now.variables }
    ensures { OnOk result (out.new ≡ out.old ++ mark ∷ variable_text graph.now var) }
{
    out.u8(mark)?;
    put_var(out, graph, var)?;
    out.u8(b':')?;
    put_type(out, graph.var_type(var))
}

fn put_type(out: &mut ByteOut, kind: VarType) -> Result<(), OutOfMemory>
    ensures { OnOk result (out.new ≡ out.old ++ kind_text (kind_of_type kind)) }
{
    match kind {
        VarType::Int => out.bytes(b"int"),
        VarType::Text => out.bytes(b"text"),
    }
}
