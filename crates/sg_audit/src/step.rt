//! Steps of a walk, from their words.
ghost use Rattle.std.specs.Prelude.{◌≡◌, ◌<◌, ◌≤◌, [], ◌∷◌, false, length, map, option_map, Some, None, IfOk, IfSome, MatchOption};
ghost use Rattle.sg_graph.specs.Parts.{variable_names};
ghost use Rattle.sg_audit.specs.Reading.{all_assigned, labelled, part_end, parts, shown_or_hidden, step, steps, unclosed, unstarred, written};
ghost use Rattle.sg_audit.specs.TakingLines.{assigned_writes, step_in_line};

use crate::assignments::{Assignments, label_named, put_write};
use sg_base::{Label, Name, OutOfMemory, Seq, Value};
use sg_graph::Graph;
use sg_sched::{Words, split_at};
use std::alloc::Global;

/// A step: its label, if the graph has it, and what it writes.
#[derive(Drop)]
pub(crate) struct LogStep {
    pub label: Option<Label>,
    pub writes: Assignments<Option<Value>>,
}

/// All words that are left, each as a step.
pub(crate) fn read_steps(
    alloc: Global,
    graph: &Graph,
    words: &mut Words<'_>,
) -> Result<Option<Seq<LogStep>>, OutOfMemory>
    ensures { IfOk result (λ o. option_map (map step_in_line) o ≡ steps graph.now words.old) }
{
    let mut all = Seq::new(alloc);
    'words: while let Some(word) = words.next() {
        match read_step(alloc, graph, word)? {
            Some(step) => all.push(step)?,
            None => return Ok(None),
        }
    }
    Ok(Some(all))
}

// A step, with or without `*`.
#[tactic(auto, unfolding(crate::specs::Reading::step))]
fn read_step(alloc: Global, graph: &Graph, word: &[u8]) -> Result<Option<LogStep>, OutOfMemory>
    ensures { IfOk result (λ o. option_map step_in_line o ≡ step graph.now word.now) }
{
    let word = unstarred(word);
    match split_at(b'(', word) {
        Some((name, rest)) => written_step(alloc, graph, name, rest),
        None => Ok(bare_step(alloc, graph, word)),
    }
}

fn unstarred(word: &[u8]) -> &[u8]
    ensures { result.now ≡ unstarred word.now }
{
    match word {
        [b'*', rest @ ..] => rest,
        _ => word,
    }
}

// A label alone.
fn bare_step(alloc: Global, graph: &Graph, word: &[u8]) -> Option<LogStep>
    ensures { option_map step_in_line result ≡ labelled graph.now word.now None }
{
    let name = Name::new(word)?;
    Some(LogStep {
        label: label_named(graph, &name),
        writes: Assignments {
            pairs: Seq::new(alloc),
            known: true,
        },
    })
}

// A label, and what stands after its `(`.
fn written_step(
    alloc: Global,
    graph: &Graph,
    name: &[u8],
    rest: &[u8],
) -> Result<Option<LogStep>, OutOfMemory>
    ensures { IfOk result (λ o. option_map step_in_line o ≡ labelled graph.now name.now (Some (name.now, rest.now))) }
{
    let Some(name) = Name::new(name) else {
        return Ok(None);
    };
    match read_written(alloc, graph, rest)? {
        Some(writes) => Ok(Some(LogStep {
            label: label_named(graph, &name),
            writes,
        })),
        None => Ok(None),
    }
}

// What a step writes, after its `(`.
fn read_written(
    alloc: Global,
    graph: &Graph,
    word: &[u8],
) -> Result<Option<Assignments<Option<Value>>>, OutOfMemory>
    ensures { IfOk result (λ o. option_map assigned_writes o ≡ written (variable_names graph.now) word.now) }
{
    match unclosed(word) {
        Some(inner) => read_writes(alloc, graph, inner),
        None => Ok(None),
    }
}

fn unclosed(word: &[u8]) -> Option<&[u8]>
    ensures { MatchOption result (unclosed word.now ≡ None) (λ inner. unclosed word.now ≡ Some inner.now) }
{
    match word {
        [inner @ .., b')'] => Some(inner),
        _ => None,
    }
}

// Each part between commas as `VAR=VALUE` or `VAR=?`.
fn read_writes(
    alloc: Global,
    graph: &Graph,
    inner: &[u8],
) -> Result<Option<Assignments<Option<Value>>>, OutOfMemory>
    ensures { IfOk result (λ o. option_map assigned_writes o ≡ all_assigned (variable_names graph.now) shown_or_hidden (parts false inner.now)) }
{
    let mut given = Assignments {
        pairs: Seq::new(alloc),
        known: true,
    };
    let mut left = inner;
    'parts: loop {
        let (part, more) = split_part(left);
        if !put_write(alloc, graph, &mut given, part)? {
            return Ok(None);
        }
        match more {
            Some(rest) => left = rest,
            None => return Ok(Some(given)),
        }
    }
}

// The first part, and what stands after its comma, if one ends it.
fn split_part(bytes: &[u8]) -> (&[u8], Option<&[u8]>)
    ensures split { MatchOption result.1 (parts false bytes.now ≡ result.0.now ∷ []) (λ rest. parts false bytes.now ≡ result.0.now ∷ parts false rest.now) }
    ensures shorter { IfSome result.1 (λ rest. length rest.now < length bytes.now) }
{
    let (prefix, rest) = bytes.split_at(part_end(bytes));
    match rest {
        [_, rest @ ..] => (prefix, Some(rest)),
        [] => (prefix, None),
    }
}

// The offset of the first comma outside double quotes, or the length.
fn part_end(bytes: &[u8]) -> usize
    ensures index { result ≡ part_end false bytes.now }
    ensures within { result ≤ length bytes.now }
{
    let mut quoted = false;
    'bytes: for at in 0..bytes.len() {
        if bytes[at] == b'"' {
            quoted = !quoted;
        } else if !quoted && bytes[at] == b',' {
            return at;
        }
    }
    bytes.len()
}
