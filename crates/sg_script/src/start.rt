//! The starts of a script.
ghost use Rattle.std.specs.Prelude.{◌≡◌, codes, map, option_and_then, IfOk};
ghost use Rattle.toml.specs.Data.{get_member, as_array};
ghost use Rattle.toml.specs.View.{view, table_view};
ghost use Rattle.sg_keys.specs.KeyFile.{list_of};
ghost use Rattle.sg_script.specs.Format.{all_there, cast_in, cast_of, name_of};

use crate::entry::Entry;
use crate::graph::has_graph;
use crate::table::{name_of, number_or};
use crate::{ScriptFault, ScriptStart};
use sg_base::{Name, OutOfMemory, Seq};
use sg_keys::{has_keys_alone, name_at, value_at};
use sg_program::Programs;
use std::alloc::Global;
use toml::{Table, Value};

impl Entry for ScriptStart {
    ghost use Rattle.sg_script.specs.Format.{start_in};
    ghost use Rattle.sg_script.specs.declared.fault.ScriptFault.TheVariants.{BadStart};

    ghost in_table = { start_in };

    ghost fault_at = { BadStart };

    fn read(
        alloc: Global,
        programs: &Programs,
        table: &Table,
    ) -> Result<Option<ScriptStart>, OutOfMemory> {
        if !has_keys_alone(table, &["graph", "cast", "version"]) {
            return Ok(None);
        }
        let Some(graph) = name_at(table, "graph") else {
            return Ok(None);
        };
        let Some(version) = number_or(table, "version", 1, 1, 2) else {
            return Ok(None);
        };
        let Some(cast) = cast_at(alloc, table)? else {
            return Ok(None);
        };
        if !has_graph(programs, &graph) {
            return Ok(None);
        }
        Ok(Some(ScriptStart {
            graph,
            version: version as u8,
            cast,
        }))
    }

    fn fault(number: usize) -> ScriptFault {
        ScriptFault::BadStart { number }
    }
}

// The cast of a table.
fn cast_at(alloc: Global, table: &Table) -> Result<Option<Seq<Name>>, OutOfMemory>
    ensures { IfOk result (λ o. o ≡ cast_of (get_member (codes "cast") (table_view table.now))) }
{
    match value_at(table, "cast") {
        Some(value) => cast_of(alloc, value),
        None => Ok(None),
    }
}

// The cast that a value is.
fn cast_of(alloc: Global, value: &Value) -> Result<Option<Seq<Name>>, OutOfMemory>
    ensures { IfOk result (λ o. o ≡ option_and_then (λ items. cast_in (list_of items)) (as_array (view value.now))) }
{
    match value.as_array() {
        Some(array) => cast_in(alloc, array.as_slice()),
        None => Ok(None),
    }
}

// Names in order, 2 to 16.
fn cast_in(alloc: Global, values: &[Value]) -> Result<Option<Seq<Name>>, OutOfMemory>
    ensures { IfOk result (λ o. o ≡ cast_in (map view values.now)) }
{
    if values.len() < 2 || values.len() > 16 {
        return Ok(None);
    }
    names_in(alloc, values)
}

// The name that each value is, in order.
fn names_in(alloc: Global, values: &[Value]) -> Result<Option<Seq<Name>>, OutOfMemory>
    ensures { IfOk result (λ o. o ≡ all_there (map name_of (map view values.now))) }
{
    let mut names = Seq::new(alloc);
    for value in values {
        match name_of(value) {
            Some(name) => names.push(name)?,
            None => return Ok(None),
        }
    }
    Ok(Some(names))
}
