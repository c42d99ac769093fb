//! Stored walks.
ghost use Rattle.std.specs.Prelude.{◌≡◌, ◌<◌, ◌++◌, ◌∷◌, [], All, OnErr, OnOk, codes, flat_map, if◌then◌else◌, length, map, option_map, take};
ghost use Rattle.sg_base.specs.Model.{value_of};
ghost use Rattle.sg_model.specs.Lists.{is_in};
ghost use Rattle.sg_walk.specs.Model.{step_of, steps_of, writes_of};
ghost use Rattle.sg_text.specs.Walks.{HasSteps, step_text, walk_line, write_text, written};

use crate::value::put_assigned;
use sg_base::{ByteOut, OutOfMemory, RoleSet, Value, Var};
use sg_graph::Graph;
use sg_walk::{StoredStep, StoredWalk};

/// Appends the line of a walk in a session of this name, with `*` before each step of a role that isn't honest. If memory runs out,
/// what was there still stands first.
pub fn put_walk(
    out: &mut ByteOut,
    session: &[u8],
    graph: &Graph,
    honest: RoleSet,
    walk: &StoredWalk,
) -> Result<(), OutOfMemory>
    requires { HasSteps graph.now (steps_of walk.now) }
    ensures ok { OnOk result (out.new ≡ out.old ++ walk_line session.now graph.now (λ r. is_in r honest) (steps_of walk.now)) }
    ensures prefix { OnErr result (take (length out.old) out.new ≡ out.old) }
{
    out.bytes(b"walk ")?;
    out.bytes(session)?;
    out.u8(b':')?;
    put_steps(out, graph, honest, walk.steps.as_slice())?;
    out.u8(b'\n')
}

// Writes steps, each after a space.
fn put_steps(
    out: &mut ByteOut,
    graph: &Graph,
    honest: RoleSet,
    steps: &[StoredStep],
) -> Result<(), OutOfMemory>
    requires { All (λ s. s.label < length graph.now.edges) steps.now }
    ensures ok { OnOk result (out.new ≡ out.old ++ flat_map (step_text graph.now (λ r. is_in r honest)) (map step_of steps.now)) }
    ensures prefix { OnErr result (take (length out.old) out.new ≡ out.old) }
{
    'steps: for step in steps {
        put_step(out, graph, honest, step)?;
    }
    Ok(())
}

fn put_step(
    out: &mut ByteOut,
    graph: &Graph,
    honest: RoleSet,
    step: &StoredStep,
) -> Result<(), OutOfMemory>
    requires { step.now.label < length graph.now.edges }
    ensures ok { OnOk result (out.new ≡ out.old ++ step_text graph.now (λ r. is_in r honest) (step_of step.now)) }
    ensures prefix { OnErr result (take (length out.old) out.new ≡ out.old) }
{
    out.bytes(mark(honest.has(graph.sender(step.label))))?;
    out.bytes(graph.edge_name(step.label).as_bytes())?;
    put_writes(out, graph, step.writes.as_slice())
}

// What stands before the label of a step whose sender is honest, or isn't.
fn mark(honest: bool) -> &'static [u8]
    ensures { result.now ≡ 32 ∷ (if honest then [] else codes "*") }
{
    if honest { b" " } else { b" *" }
}

// Writes what a step writes.
fn put_writes(
    out: &mut ByteOut,
    graph: &Graph,
    writes: &[(Var, Option<Value>)],
) -> Result<(), OutOfMemory>
    ensures ok { OnOk result (out.new ≡ out.old ++ written graph.now (writes_of writes.now)) }
    ensures prefix { OnErr result (take (length out.old) out.new ≡ out.old) }
{
    match writes {
        [] => Ok(()),
        [first, rest @ ..] => put_bracketed(out, graph, first, rest),
    }
}

// Writes the first variable and further ones, between brackets.
fn put_bracketed(
    out: &mut ByteOut,
    graph: &Graph,
    first: &(Var, Option<Value>),
    rest: &[(Var, Option<Value>)],
) -> Result<(), OutOfMemory>
    ensures ok { OnOk result (out.new ≡ out.old ++ written graph.now (writes_of (first.now ∷ rest.now))) }
    ensures prefix { OnErr result (take (length out.old) out.new ≡ out.old) }
{
    out.u8(b'(')?;
    put_write(out, graph, first)?;
    put_more(out, graph, rest)?;
    out.u8(b')')
}

// Writes further variables, each after a comma.
fn put_more(
    out: &mut ByteOut,
    graph: &Graph,
    writes: &[(Var, Option<Value>)],
) -> Result<(), OutOfMemory>
    ensures ok { OnOk result (out.new ≡ out.old ++ flat_map (λ t. 44 ∷ t) (map (write_text graph.now) (writes_of writes.now))) }
    ensures prefix { OnErr result (take (length out.old) out.new ≡ out.old) }
{
    'writes: for write in writes {
        out.u8(b',')?;
        put_write(out, graph, write)?;
    }
    Ok(())
}

// Writes a variable and its value, a hidden one as `?`.
fn put_write(
    out: &mut ByteOut,
    graph: &Graph,
    write: &(Var, Option<Value>),
) -> Result<(), OutOfMemory>
    ensures ok { OnOk result (out.new ≡ out.old ++ write_text graph.now (write.now.0, option_map value_of write.now.1)) }
    ensures prefix { OnErr result (take (length out.old) out.new ≡ out.old) }
{
    put_assigned(out, graph, write.0, write.1.as_ref())
}
