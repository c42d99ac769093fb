//! What a line says, from its words.
ghost use Rattle.std.specs.Prelude.{◌≡◌, option_map, true, false, Some, IfOk, IfSome};
ghost use Rattle.sg_base.specs.Words.{name};
ghost use Rattle.sg_audit.specs.Reading.{event_form, form, log_form, session_form, time, walk_form};
ghost use Rattle.sg_audit.specs.TakingLines.{Fits, statement};
ghost use Rattle.sg_sched.specs.Format.Reading.{after, ended, word};

use crate::assignments::{Assignments, label_named, read_values, role_named};
use crate::lines::is_word;
use crate::step::{LogStep, read_steps};
use sg_base::{Label, Name, OutOfMemory, Role, Seq, Time, Value, read_number};
use sg_graph::Graph;
use sg_sched::Words;
use std::alloc::Global;

/// What a line says of a graph. A role or a label is `None` if the graph has none of the name.
#[derive(Drop)]
pub(crate) enum LogLine {
    Session(Name),
    Log(Option<Role>),
    Event {
        sent: bool,
        label: Option<Label>,
        time: Time,
        values: Assignments<Value>,
    },
    Walk(Seq<LogStep>),
}

/// What the words of a line say, if they are of a form.
#[tactic(auto, unfolding(crate::specs::Reading::form))]
pub(crate) fn read_line(
    alloc: Global,
    graph: &Graph,
    words: &mut Words<'_>,
) -> Result<Option<LogLine>, OutOfMemory>
    ensures statement { IfOk result (λ o. option_map statement o ≡ form graph.now words.old) }
    ensures fits { IfOk result (λ o. IfSome o Fits) }
{
    let Some(first) = words.next() else {
        return Ok(None);
    };
    if is_word(first, b"session") {
        Ok(session(words))
    } else if is_word(first, b"log") {
        Ok(log(graph, words))
    } else if is_word(first, b"sent") {
        event(alloc, graph, true, words)
    } else if is_word(first, b"received") {
        event(alloc, graph, false, words)
    } else if is_word(first, b"walk") {
        walk(alloc, graph, words)
    } else {
        Ok(None)
    }
}

// `NAME` of a session.
fn session(words: &mut Words<'_>) -> Option<LogLine>
    ensures statement { option_map statement result ≡ session_form words.old }
    ensures fits { IfSome result Fits }
{
    match last_name(words) {
        Some(name) => Some(LogLine::Session(name)),
        None => None,
    }
}

// `ROLE` of a log.
fn log(graph: &Graph, words: &mut Words<'_>) -> Option<LogLine>
    ensures statement { option_map statement result ≡ log_form graph.now words.old }
    ensures fits { IfSome result Fits }
{
    match last_name(words) {
        Some(name) => Some(LogLine::Log(role_named(graph, &name))),
        None => None,
    }
}

// A name, with which the line ends.
#[tactic(auto, unfolding(sg_base::specs::Words::name, sg_sched::specs::Format::Reading::word))]
fn last_name(words: &mut Words<'_>) -> Option<Name>
    ensures { result ≡ after (word name) (λ n. ended (Some n)) words.old }
{
    let name = Name::new(words.next()?)?;
    if words.is_empty() { Some(name) } else { None }
}

// `LABEL TIME VAR=VALUE ..` of an event.
#[tactic(auto, unfolding(crate::specs::Reading::event_form, sg_base::specs::Words::name, sg_sched::specs::Format::Reading::word))]
fn event(
    alloc: Global,
    graph: &Graph,
    sent: bool,
    words: &mut Words<'_>,
) -> Result<Option<LogLine>, OutOfMemory>
    ensures statement { IfOk result (λ o. option_map statement o ≡ event_form graph.now sent words.old) }
    ensures fits { IfOk result (λ o. IfSome o Fits) }
{
    let Some(name) = words.next() else {
        return Ok(None);
    };
    let Some(name) = Name::new(name) else {
        return Ok(None);
    };
    let Some(word) = words.next() else {
        return Ok(None);
    };
    let Some(time) = read_time(word) else {
        return Ok(None);
    };
    match read_values(alloc, graph, words)? {
        Some(values) => Ok(Some(LogLine::Event {
            sent,
            label: label_named(graph, &name),
            time,
            values,
        })),
        None => Ok(None),
    }
}

// A time, from 1 to 1,000,000.
#[tactic(auto, unfolding(crate::specs::Reading::time))]
fn read_time(word: &[u8]) -> Option<Time>
    ensures { result ≡ time word.now }
{
    let number = read_number(word, 1_000_000)?;
    if number == 0 {
        return None;
    }
    Some(Time(number as u32))
}

// The steps of a walk.
#[tactic(auto, unfolding(crate::specs::Reading::walk_form))]
fn walk(alloc: Global, graph: &Graph, words: &mut Words<'_>) -> Result<Option<LogLine>, OutOfMemory>
    ensures statement { IfOk result (λ o. option_map statement o ≡ walk_form graph.now words.old) }
    ensures fits { IfOk result (λ o. IfSome o Fits) }
{
    match read_steps(alloc, graph, words)? {
        Some(steps) => Ok(Some(LogLine::Walk(steps))),
        None => Ok(None),
    }
}
