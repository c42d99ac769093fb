//! What a script names of the programs' graphs.
ghost use Rattle.std.specs.Prelude.{◌≡◌, ◌<◌, codes, is_some, option_copied, string_bytes};
ghost use Rattle.std.specs.BTreeMap.{keys};
ghost use Rattle.std.specs.List.{list_all};
ghost use Rattle.toml.specs.View.{table_view};
ghost use Rattle.sg_graph.specs.Parts.{variable_names, node_names, edge_names};
ghost use Rattle.sg_keys.specs.KeyFile.{all_keys, at};
ghost use Rattle.sg_script.specs.Format.{graph_named, number_of};

use crate::table::read_name;
use sg_base::{Label, Name, NodeId, Var};
use sg_graph::Graph;
use sg_keys::text_at;
use sg_program::Programs;
use toml::Table;

/// The graph of this name, as the first program of such a graph has it.
pub(crate) fn graph_named<'a>(programs: &'a Programs, name: &Name) -> Option<&'a Graph>
    ensures { option_copied result ≡ graph_named programs.now name.now }
{
    match programs.by_name(name) {
        Some(program) => Some(program.graph()),
        None => None,
    }
}

/// Whether a program of a graph of this name is there.
pub(crate) fn has_graph(programs: &Programs, name: &Name) -> bool
    ensures { result ≡ is_some (graph_named programs.now name.now) }
{
    graph_named(programs, name).is_some()
}

// The node that a text names.
fn node_of(graph: &Graph, text: &str) -> Option<NodeId>
    ensures { result ≡ number_of (node_names graph.now) text.now }
{
    let name = read_name(text)?;
    // The names of its nodes differ, so the index is this one.
    let _count = graph.nodes();
    graph.find_node(&name)
}

// The label that a text names.
fn label_of(graph: &Graph, text: &str) -> Option<Label>
    ensures { result ≡ number_of (edge_names graph.now) text.now }
{
    let name = read_name(text)?;
    let _count = graph.edges();
    graph.find_edge(&name)
}

// The variable that a text names.
fn variable_of(graph: &Graph, text: &str) -> Option<Var>
    ensures { result ≡ number_of (variable_names graph.now) text.now }
{
    let name = read_name(text)?;
    let _count = graph.vars();
    graph.find_var(&name)
}

/// The node that the text at `node` names.
pub(crate) fn node_at(graph: &Graph, table: &Table) -> Option<NodeId>
    ensures { result ≡ at (number_of (node_names graph.now)) (codes "node") (table_view table.now) }
{
    node_of(graph, text_at(table, "node")?)
}

/// The label that the text at `label` names.
pub(crate) fn label_at(graph: &Graph, table: &Table) -> Option<Label>
    ensures { result ≡ at (number_of (edge_names graph.now)) (codes "label") (table_view table.now) }
{
    label_of(graph, text_at(table, "label")?)
}

fn is_variable(graph: &Graph, text: &str) -> bool
    ensures { result ≡ is_some (number_of (variable_names graph.now) text.now) }
{
    variable_of(graph, text).is_some()
}

/// Whether each key of the table is the name of a variable.
pub(crate) fn has_variables_alone(graph: &Graph, table: &Table) -> bool
    ensures { result ≡ all_keys (λ k. is_some (number_of (variable_names graph.now) k)) (table_view table.now) }
{
    are_variables(graph, table)
}

fn are_variables(graph: &Graph, table: &Table) -> bool
    ensures { result ≡ list_all (λ k. is_some (number_of (variable_names graph.now) (string_bytes k))) (keys table.now) }
{
    table.keys().all(|key| is_variable(graph, key.as_str()))
}
