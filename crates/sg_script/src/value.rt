//! The values of a choice.
ghost use Rattle.std.specs.Prelude.{◌≡◌, ◌<◌, codes, filter_map, if◌then◌else◌, length, nat_le, option_map, Some, None, IfOk};
ghost use Rattle.toml.specs.Data.{get_member};
ghost use Rattle.toml.specs.View.{view, table_view};
ghost use Rattle.sg_model.specs.Limits.{most_text_bytes};
ghost use Rattle.sg_base.specs.Model.{value_of};
ghost use Rattle.sg_graph.specs.Parts.{variable_names};
ghost use Rattle.sg_model.specs.Lists.{below};
ghost use Rattle.sg_model.specs.Values.{TextValue};
ghost use Rattle.sg_walk.specs.Model.{values_of};
ghost use Rattle.sg_script.specs.Format.{all_there, given, spelled_value, values_in, values_or_none};

use crate::graph::has_variables_alone;
use sg_base::{Chars, CharsFault, OutOfMemory, Seq, Value, Var};
use sg_graph::Graph;
use sg_keys::value_at;
use std::alloc::{AllocError, Global};
use toml::{Table, Value as Entry};

/// What the variables of a graph are given at `values`, in rising order; none if it is missing.
pub(crate) fn values_at(
    alloc: Global,
    graph: &Graph,
    table: &Table,
) -> Result<Option<Seq<(Var, Value)>>, OutOfMemory>
    ensures { IfOk result (λ o. option_map values_of o ≡ values_or_none (variable_names graph.now) (get_member (codes "values") (table_view table.now))) }
{
    let Some(value) = value_at(table, "values") else {
        return Ok(Some(Seq::new(alloc)));
    };
    match value.as_table() {
        Some(values) => values_in(alloc, graph, values),
        None => Ok(None),
    }
}

// What the variables of a graph are given, if the table has no other key.
fn values_in(
    alloc: Global,
    graph: &Graph,
    table: &Table,
) -> Result<Option<Seq<(Var, Value)>>, OutOfMemory>
    ensures { IfOk result (λ o. option_map values_of o ≡ values_in (variable_names graph.now) (table_view table.now)) }
{
    if !has_variables_alone(graph, table) {
        return Ok(None);
    }
    all_given(alloc, graph, table)
}

// What the variables of a graph are given, in rising order.
fn all_given(
    alloc: Global,
    graph: &Graph,
    table: &Table,
) -> Result<Option<Seq<(Var, Value)>>, OutOfMemory>
    ensures { IfOk result (λ o. option_map values_of o
        ≡ all_there (filter_map (given (variable_names graph.now) (table_view table.now)) (below (length (variable_names graph.now))))) }
{
    let mut values = Seq::new(alloc);
    for number in 0..graph.vars() {
        let var = Var(number);
        match given(alloc, graph, table, var)? {
            Some(Some(value)) => values.push((var, value))?,
            Some(None) => return Ok(None),
            None => {}
        }
    }
    Ok(Some(values))
}

// What a variable is given, if its name is a key.
fn given(
    alloc: Global,
    graph: &Graph,
    table: &Table,
    var: Var,
) -> Result<Option<Option<Value>>, OutOfMemory>
    requires { var < length graph.now.variables }
    ensures { IfOk result (λ o. option_map (option_map (λ v. (var, value_of v))) o ≡ given (variable_names graph.now) (table_view table.now) var) }
{
    match value_at(table, graph.var_name(var).as_str()) {
        Some(value) => Ok(Some(read_value(alloc, value)?)),
        None => Ok(None),
    }
}

// An integer, or a text of at most 1,024 bytes.
fn read_value(alloc: Global, value: &Entry) -> Result<Option<Value>, OutOfMemory>
    ensures { IfOk result (λ o. option_map value_of o ≡ spelled_value (view value.now)) }
{
    match value {
        Entry::Integer(number) => Ok(Some(Value::Int(*number))),
        Entry::String(text) => read_text(alloc, text.as_str()),
        _ => Ok(None),
    }
}

// A text of at most 1,024 bytes.
fn read_text(alloc: Global, text: &str) -> Result<Option<Value>, OutOfMemory>
    ensures { IfOk result (λ o. option_map value_of o ≡ (if nat_le (length text.now) most_text_bytes then Some (TextValue text.now) else None)) }
{
    match Chars::new(alloc, text.as_bytes()) {
        Ok(text) => Ok(Some(Value::Text(text))),
        Err(CharsFault::TooLong { .. }) => Ok(None),
        Err(CharsFault::NotText) => unreachable!(),
        Err(CharsFault::OutOfMemory) => Err(AllocError),
    }
}
