//! The choices of a script.
ghost use Rattle.std.specs.Prelude.{◌≡◌, IfOk};
ghost use Rattle.toml.specs.View.{table_view};
ghost use Rattle.sg_script.specs.Format.{choice_at};

use crate::entry::Entry;
use crate::graph::{graph_named, label_at, node_at};
use crate::table::number_or;
use crate::value::values_at;
use crate::{ScriptChoice, ScriptFault};
use sg_base::{Name, OutOfMemory};
use sg_graph::Graph;
use sg_keys::{has_keys_alone, name_at};
use sg_program::Programs;
use std::alloc::Global;
use toml::Table;

impl Entry for ScriptChoice {
    ghost use Rattle.sg_script.specs.Format.{choice_in};
    ghost use Rattle.sg_script.specs.declared.fault.ScriptFault.TheVariants.{BadChoice};

    ghost in_table = { choice_in };

    ghost fault_at = { BadChoice };

    fn read(
        alloc: Global,
        programs: &Programs,
        table: &Table,
    ) -> Result<Option<ScriptChoice>, OutOfMemory> {
        if !has_keys_alone(table, &["graph", "node", "label", "values", "times"]) {
            return Ok(None);
        }
        let Some(name) = name_at(table, "graph") else {
            return Ok(None);
        };
        match graph_named(programs, &name) {
            Some(graph) => choice_at(alloc, table, name, graph),
            None => Ok(None),
        }
    }

    fn fault(number: usize) -> ScriptFault {
        ScriptFault::BadChoice { number }
    }
}

// The choice of a table in this graph.
fn choice_at(
    alloc: Global,
    table: &Table,
    name: Name,
    graph: &Graph,
) -> Result<Option<ScriptChoice>, OutOfMemory>
    ensures { IfOk result (λ o. o ≡ choice_at (table_view table.now) name graph.now) }
{
    let Some(node) = node_at(graph, table) else {
        return Ok(None);
    };
    let Some(label) = label_at(graph, table) else {
        return Ok(None);
    };
    let Some(values) = values_at(alloc, graph, table)? else {
        return Ok(None);
    };
    let Some(times) = number_or(table, "times", 1, 1, 1_000_000) else {
        return Ok(None);
    };
    Ok(Some(ScriptChoice {
        graph: name,
        node,
        label,
        values,
        times,
    }))
}
