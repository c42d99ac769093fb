//! Lists of variables with values, and the edges that name their variables.
ghost use Rattle.std.specs.Prelude.{◌≡◌, ◌<◌, ◌↔◌, map, drop, length, Some, None, option_map, unwrap_or, not, ◌&&◌, ◌||◌, IsTrue};
ghost use Rattle.sg_model.specs.Lists.{is_in, value_at};
ghost use Rattle.sg_protocol.specs.Graph.{AreNumbers};
ghost use Rattle.sg_protocol.specs.Walk.{shown};
ghost use Rattle.sg_base.specs.Model.{value_of};
ghost use Rattle.sg_graph.specs.Edges.{edge_of_label};
ghost use Rattle.sg_explain.specs.Matching.{is_next};
ghost use Rattle.sg_walk.specs.Model.{values_of, writes_of};

use sg_base::{Label, Role, RoleSet, Value, Var, VarSet};
use sg_graph::{Edge, Graph};

/// The edge of a label. There are at most 32 variables.
pub(super) fn edge_of(graph: &Graph, label: Label) -> Edge
    requires { label < length graph.now.edges }
    ensures edge { result ≡ edge_of_label graph.now label }
    ensures writes { AreNumbers 32 result.writes }
    ensures reads { AreNumbers 32 result.reads }
{
    let _count = graph.vars();
    *graph.edge(label)
}

/// Whether the receipt of a step by the role counts: of an honest role, and, if it is the last one, taken.
pub(super) fn counts(honest: RoleSet, role: Role, taken: bool, is_last: bool) -> bool
    ensures { result ≡ (is_in role honest && (taken || not is_last)) }
{
    honest.has(role) && (taken || !is_last)
}

/// Whether the variables of the pairs are those of the set, in rising order.
pub(super) fn has_keys<T>(vars: VarSet, pairs: &[(Var, T)]) -> bool
    requires { AreNumbers 32 vars }
    ensures { IsTrue result ↔ (map (λ w. w.0) pairs.now ≡ vars) }
{
    let mut index: usize = 0;
    for number in 0..32u8 {
        if vars.has(Var(number)) {
            if !has_key(pairs, index, Var(number)) {
                return false;
            }
            index += 1;
        }
    }
    index == pairs.len()
}

fn has_key<T>(pairs: &[(Var, T)], index: usize, var: Var) -> bool
    ensures key { result ≡ is_next (map (λ w. w.0) (drop index pairs.now)) var }
    ensures there { IsTrue result → index < length pairs.now }
{
    index < pairs.len() && pairs[index].0 == var
}

/// Whether the values are what is written, and nothing of it is hidden.
pub(super) fn are_shown(values: &[(Var, Value)], writes: &[(Var, Option<Value>)]) -> bool
    ensures { IsTrue result ↔ (shown (values_of values.now) ≡ writes_of writes.now) }
{
    if values.len() != writes.len() {
        return false;
    }
    for index in 0..values.len() {
        let value = &values[index];
        let write = &writes[index];
        if value.0 != write.0 || !is_value(&write.1, &value.1) {
            return false;
        }
    }
    true
}

/// Whether the value is there and this one.
fn is_value(found: &Option<Value>, value: &Value) -> bool
    ensures { IsTrue result ↔ (Some (value_of value.now) ≡ option_map value_of found.now) }
{
    match found {
        Some(found) => found.same(value),
        None => false,
    }
}

/// Whether the value is written to the variable.
pub(super) fn writes_value(writes: &[(Var, Option<Value>)], var: Var, value: &Value) -> bool
    ensures { IsTrue result ↔ (Some (value_of value.now) ≡ unwrap_or (value_at (writes_of writes.now) var) None) }
{
    for write in writes {
        if write.0 == var {
            return is_value(&write.1, value);
        }
    }
    false
}

/// The variable's index among all.
pub(super) fn index_of(var: Var) -> usize
    ensures { result ≡ var }
{
    var.0 as usize
}
