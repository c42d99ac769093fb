//! Variables with what a line gives them.
ghost use Rattle.std.specs.Prelude.{◌≡◌, ◌<◌, if◌then◌else◌, option_map, Some, None, IfOk, IfSome};
ghost use Rattle.sg_graph.specs.Parts.{variable_names, edge_names};
ghost use Rattle.sg_sched.specs.Format.Values.{spelled_value};
ghost use Rattle.sg_base.specs.Model.{value_of};
ghost use Rattle.sg_audit.specs.LineContents.{numbered, both_assigned};
ghost use Rattle.sg_audit.specs.Reading.{assigned, all_assigned, shown_or_hidden};
ghost use Rattle.sg_audit.specs.TakingLines.{assigned_values, assigned_writes};

use crate::lines::is_word;
use sg_base::{Label, Name, OutOfMemory, Role, Seq, Value, Var};
use sg_graph::Graph;
use sg_sched::{Words, read_value, split_at};
use std::alloc::Global;

/// Those variables of a line that the graph declares, in the order of the line, and whether it declares all.
#[derive(Drop)]
pub(crate) struct Assignments<T> {
    pub pairs: Seq<(Var, T)>,
    pub known: bool,
}

// The number of a variable's name.
fn variable_named(graph: &Graph, name: &Name) -> Option<Var>
    ensures { result ≡ numbered (variable_names graph.now) name.now }
{
    // The names of its variables differ, so the index is this one.
    let _count = graph.vars();
    graph.find_var(name)
}

/// The number of a label's name.
pub(crate) fn label_named(graph: &Graph, name: &Name) -> Option<Label>
    ensures { result ≡ numbered (edge_names graph.now) name.now }
{
    let _count = graph.edges();
    graph.find_edge(name)
}

/// The number of a role's name.
pub(crate) fn role_named(graph: &Graph, name: &Name) -> Option<Role>
    ensures number { result ≡ numbered graph.now.roles name.now }
    ensures few { IfSome result (λ r. r < 16) }
{
    let _count = graph.roles();
    graph.find_role(name)
}

/// All words that are left, each as `VAR=VALUE`.
pub(crate) fn read_values(
    alloc: Global,
    graph: &Graph,
    words: &mut Words<'_>,
) -> Result<Option<Assignments<Value>>, OutOfMemory>
    ensures { IfOk result (λ o. option_map assigned_values o ≡ all_assigned (variable_names graph.now) spelled_value words.old) }
{
    let mut given = Assignments {
        pairs: Seq::new(alloc),
        known: true,
    };
    'words: while let Some(word) = words.next() {
        if !put_value(alloc, graph, &mut given, word)? {
            return Ok(None);
        }
    }
    Ok(Some(given))
}

// Takes a word as `VAR=VALUE`, if it is of this form.
#[tactic(auto, unfolding(crate::specs::Reading::assigned))]
fn put_value(
    alloc: Global,
    graph: &Graph,
    given: &mut Assignments<Value>,
    word: &[u8],
) -> Result<bool, OutOfMemory>
    ensures { IfOk result (λ b. (if b then Some (assigned_values given.new) else None) ≡ option_map (both_assigned (assigned_values given.old)) (assigned (variable_names graph.now) spelled_value word.now)) }
{
    let Some((name, text)) = split_at(b'=', word) else {
        return Ok(false);
    };
    let Some(name) = Name::new(name) else {
        return Ok(false);
    };
    let Some(value) = read_value(alloc, text)? else {
        return Ok(false);
    };
    match variable_named(graph, &name) {
        Some(var) => given.pairs.push((var, value))?,
        None => given.known = false,
    }
    Ok(true)
}

// Takes a part as `VAR=VALUE` or `VAR=?`, if it is of this form.
#[tactic(auto, unfolding(crate::specs::Reading::assigned))]
pub(crate) fn put_write(
    alloc: Global,
    graph: &Graph,
    given: &mut Assignments<Option<Value>>,
    word: &[u8],
) -> Result<bool, OutOfMemory>
    ensures { IfOk result (λ b. (if b then Some (assigned_writes given.new) else None) ≡ option_map (both_assigned (assigned_writes given.old)) (assigned (variable_names graph.now) shown_or_hidden word.now)) }
{
    let Some((name, text)) = split_at(b'=', word) else {
        return Ok(false);
    };
    let Some(name) = Name::new(name) else {
        return Ok(false);
    };
    let Some(value) = read_write(alloc, text)? else {
        return Ok(false);
    };
    match variable_named(graph, &name) {
        Some(var) => given.pairs.push((var, value))?,
        None => given.known = false,
    }
    Ok(true)
}

// A value, or `?` for a hidden one.
#[tactic(auto, unfolding(crate::specs::Reading::shown_or_hidden))]
fn read_write(alloc: Global, word: &[u8]) -> Result<Option<Option<Value>>, OutOfMemory>
    ensures { IfOk result (λ o. option_map (option_map value_of) o ≡ shown_or_hidden word.now) }
{
    if is_word(word, b"?") {
        return Ok(Some(None));
    }
    match read_value(alloc, word)? {
        Some(value) => Ok(Some(Some(value))),
        None => Ok(None),
    }
}
