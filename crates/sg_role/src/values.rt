//! Whether a step can be sent with the values that it is given.
ghost use Rattle.std.specs.Prelude.{◌≡◌, ◌≢◌, Err, ◌<◌, ◌≤◌, ◌+◌, ◌==◌, ℕ, false, ◌&&◌, ◌||◌, nat_lt, not, drop, IsTrue, None, Some, length, IfOk, IfErr};
ghost use Rattle.sg_model.specs.Lists.{first_some, is_in, keys_of};
ghost use Rattle.sg_protocol.specs.Acting.{is_bad, is_out_of_order, is_typed};
ghost use Rattle.std.specs.List.{list_all, list_any, AllByRecursion};
ghost use Rattle.sg_base.specs.Model.{value_of};
ghost use Rattle.sg_model.specs.Bytes.{AreBytes};
ghost use Rattle.sg_protocol.specs.Frame.{IsValue};
ghost use Rattle.sg_protocol.specs.Ranges.{AreValues};
ghost use Rattle.sg_model.specs.Shape.{source};
ghost use Rattle.sg_protocol.specs.Graph.{shape};
ghost use Rattle.sg_walk.specs.Model.{values_of};
ghost use Rattle.sg_role.specs.Faults.{RefusesToSend};
ghost use Rattle.sg_role.specs.Model.{state_of};
ghost use Rattle.sg_role.specs.Stepping.{first_bad, send_rows};

use crate::SendFault;
use crate::kept_state::KeptState;
use sg_base::{Label, Value, Var, facts_of_bytes};
use sg_graph::Graph;

const LAST: u32 = 1_000_000;

/// Whether a step along the label can be sent with these values. It takes no memory.
pub(crate) fn check_step(
    kept: &KeptState,
    label: Label,
    values: &[(Var, Value)],
) -> Result<(), SendFault>
    ensures right { IfOk result (λ u. first_some (send_rows (state_of kept.now).program (state_of kept.now).held label (values_of values.now)) ≡ None) }
    ensures early { result ≢ Err SendFault.OutOfMemory }
    ensures wrong { IfErr result (RefusesToSend (first_some (send_rows (state_of kept.now).program (state_of kept.now).held label (values_of values.now)))) }
{
    if !leaves(kept, label) {
        return Err(SendFault::NoSuchLabel);
    }
    if let Some(var) = bad_value(kept.program.graph(), label, values) {
        return Err(SendFault::BadValues { var });
    }
    if LAST <= kept.time.0 {
        return Err(SendFault::TimeSpent);
    }
    Ok(())
}

// The label leaves the place.
fn leaves(kept: &KeptState, label: Label) -> bool
    ensures leaves { result ≡ (nat_lt label (length (state_of kept.now).program.graph.edges) && source (shape (state_of kept.now).program.graph) label == kept.now.place) }
    ensures there { IsTrue result → label < length (state_of kept.now).program.graph.edges }
{
    let graph = kept.program.graph();
    label.0 < graph.edges() && graph.edge(label).source == kept.place
}

// The least variable that is missing, not written by the edge, repeated, out of order or of another type.
fn bad_value(graph: &Graph, label: Label, values: &[(Var, Value)]) -> Option<Var>
    requires { label < length graph.now.edges }
    ensures { result ≡ first_bad graph.now label (values_of values.now) }
{
    let most = bound(graph, label, values);
    for number in 0..most {
        let var = numbered(number);
        if is_bad(graph, label, values, var) {
            return Some(var);
        }
    }
    None
}

// From here on no variable is written by the edge or given a value.
fn bound(graph: &Graph, label: Label, values: &[(Var, Value)]) -> u16
    requires { label < length graph.now.edges }
    ensures most { result ≤ 256 }
    ensures none { (x : ℕ) → result ≤ x → x < 256 → is_bad graph.now label (values_of values.now) x ≡ false }
{
    let count = graph.vars();
    let _writes = graph.edge(label).writes;
    if are_below(values, count) {
        count as u16
    } else {
        256
    }
}

// Each variable is below this number.
fn are_below(values: &[(Var, Value)], count: u8) -> bool
    ensures { result ≡ list_all (λ w. nat_lt w.0 count) (values_of values.now) }
{
    for at in 0..values.len() {
        let given = &values[at];
        if given.0.0 >= count {
            return false;
        }
    }
    true
}

// The variable of this number.
fn numbered(number: u16) -> Var
    requires { number < 256 }
    ensures { result ≡ number }
{
    Var(number as u8)
}

// The variable is missing, not written by the edge, repeated, out of order or of another type.
#[tactic(auto, using(crate::proofs::ValueLaws::bad_unwritten, crate::proofs::ValueLaws::bad_written, crate::proofs::ValueLaws::number_in))]
fn is_bad(graph: &Graph, label: Label, values: &[(Var, Value)], var: Var) -> bool
    requires { label < length graph.now.edges }
    ensures { result ≡ is_bad graph.now label (values_of values.now) var }
{
    let given = is_given(values, var);
    if !graph.edge(label).writes.has(var) {
        return given;
    }
    !given || is_out_of_order(values, var) || has_other_type(graph, values, var)
}

// A value is given for the variable.
fn is_given(values: &[(Var, Value)], var: Var) -> bool
    ensures { result ≡ is_in var (keys_of (values_of values.now)) }
{
    for at in 0..values.len() {
        if values[at].0 == var {
            return true;
        }
    }
    false
}

// The variable stands after one that is not less.
fn is_out_of_order(values: &[(Var, Value)], var: Var) -> bool
    ensures { result ≡ is_out_of_order var (keys_of (values_of values.now)) }
{
    for at in 0..values.len() {
        if represents_after(values, at, var) {
            return true;
        }
    }
    false
}

// The variable stands after the index, at which one stands that is not less.
fn represents_after(values: &[(Var, Value)], at: usize, var: Var) -> bool
    requires { at < length values.now }
    ensures { is_out_of_order var (keys_of (values_of (drop at values.now))) ≡ (result || is_out_of_order var (keys_of (values_of (drop (at + 1) values.now)))) }
{
    let other = values[at].0;
    var.0 <= other.0 && is_given(&values[at + 1..], var)
}

// A value of another type is given for the variable.
fn has_other_type(graph: &Graph, values: &[(Var, Value)], var: Var) -> bool
    requires { var < length graph.now.variables }
    ensures { result ≡ list_any (λ w. (w.0 == var) && not (is_typed graph.now w)) (values_of values.now) }
{
    let kind = graph.var_type(var);
    for at in 0..values.len() {
        if values[at].0 == var && values[at].1.kind() != kind {
            return true;
        }
    }
    false
}

/// What the types say of values and of the bytes that hide them. Nothing is done.
pub fn facts_of_values(values: &[(Var, Value)], confounders: &[[u8; 16]])
    requires { length confounders.now ≡ length values.now }
    ensures { AreValues (values_of values.now) confounders.now }
{
    facts_of_each(values);
    facts_of_confounders(confounders);
}

/// What the types say of each of these values. Nothing is done.
pub fn facts_of_each(values: &[(Var, Value)])
    ensures { AllByRecursion (λ w. (w.0 < 256) × IsValue w.1) (values_of values.now) }
{
    for at in 0..values.len() {
        let given = &values[at];
        facts_of_var(given.0);
        facts_of_value(&given.1);
    }
}

// What the type `Var` says of this.
fn facts_of_var(var: Var)
    ensures { var < 256 }
{
    let _number = var.0;
}

// What the type `Value` says of this.
fn facts_of_value(value: &Value)
    ensures { IsValue (value_of value.now) }
{
    match value {
        Value::Int(number) => {
            let _number = *number;
        }
        Value::Text(text) => {
            facts_of_bytes(text.as_bytes());
        }
    }
}

// What the type `u8` says of each of these.
fn facts_of_confounders(confounders: &[[u8; 16]])
    ensures { AllByRecursion (AreBytes 16) confounders.now }
{
    for at in 0..confounders.len() {
        facts_of_bytes(&confounders[at]);
    }
}
