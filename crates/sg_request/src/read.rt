//! The request of a line.
ghost use Rattle.std.specs.Prelude.{◌≡◌, IfOk};
ghost use Rattle.sg_base.specs.Words.{name};
ghost use Rattle.sg_sched.specs.Format.Reading.{word};
ghost use Rattle.sg_sched.specs.Format.CraftReading.{cast};
ghost use Rattle.sg_sched.specs.Format.Model.{taken};
ghost use Rattle.sg_request.specs.Request.{act_form, content, form, quit_form, receive_form, request_of, session, session_form, short_form, start_form, version};

use crate::request::Request;
use sg_base::{Name, OutOfMemory, Seq, read_number};
use sg_sched::word::{read_name, read_numbered};
use sg_sched::{Words, read_assignments, read_cast};
use std::alloc::Global;

/// What a line asks for, given without its line feed, or `None` if it is of no form. It takes memory for the names of a `start` and for
/// the values of an `act`.
pub fn read_request<'a>(alloc: Global, line: &'a [u8]) -> Result<Option<Request<'a>>, OutOfMemory>
    ensures { IfOk result (λ o. o ≡ request_of line.now) }
{
    read_words(alloc, Words::new(content(line)))
}

// The line without a carriage return at its end.
fn content(line: &[u8]) -> &[u8]
    ensures { result.now ≡ content line.now }
{
    match line {
        [prefix @ .., b'\r'] => prefix,
        _ => line,
    }
}

#[tactic(auto, unfolding(crate::specs::Request::form))]
fn read_words<'a>(alloc: Global, mut words: Words<'a>) -> Result<Option<Request<'a>>, OutOfMemory>
    ensures { IfOk result (λ o. o ≡ form words.entry) }
{
    let Some(first) = words.next() else {
        return Ok(None);
    };
    let words = &mut words;
    if first == b"start".as_slice() {
        start(alloc, words)
    } else if first == b"act".as_slice() {
        act(alloc, words)
    } else {
        Ok(short(first, words))
    }
}

// A form of one word or two.
#[tactic(auto, unfolding(crate::specs::Request::short_form))]
fn short<'a>(first: &[u8], words: &mut Words) -> Option<Request<'a>>
    ensures { result ≡ short_form first.now words.old }
{
    if first == b"recv".as_slice() {
        receive(words)
    } else if first == b"turn".as_slice() {
        Some(Request::Turn(one_session(words)?))
    } else if first == b"abandon".as_slice() {
        Some(Request::Abandon(one_session(words)?))
    } else if first == b"again".as_slice() {
        Some(Request::Again(one_session(words)?))
    } else if first == b"id".as_slice() {
        Some(Request::Id(one_session(words)?))
    } else if first == b"quit".as_slice() {
        quit(words)
    } else {
        None
    }
}

#[tactic(auto, unfolding(sg_sched::specs::Format::Reading::word))]
fn take_name(words: &mut Words) -> Option<Name>
    ensures { word name words.old ≡ taken result words.new }
{
    read_name(words.next()?)
}

// `s` and a session's number.
#[tactic(auto, unfolding(crate::specs::Request::session))]
fn read_session(word: &[u8]) -> Option<u32>
    ensures { result ≡ session word.now }
{
    read_numbered(b's', word)
}

#[tactic(auto, unfolding(sg_sched::specs::Format::Reading::word))]
fn take_session(words: &mut Words) -> Option<u32>
    ensures { word session words.old ≡ taken result words.new }
{
    read_session(words.next()?)
}

#[tactic(auto, unfolding(crate::specs::Request::version))]
fn read_version(word: &[u8]) -> Option<u8>
    ensures { result ≡ version word.now }
{
    if word == b"1".as_slice() {
        Some(1)
    } else if word == b"2".as_slice() {
        Some(2)
    } else {
        None
    }
}

#[tactic(auto, unfolding(sg_sched::specs::Format::Reading::word))]
fn take_version(words: &mut Words) -> Option<u8>
    ensures { word version words.old ≡ taken result words.new }
{
    read_version(words.next()?)
}

#[tactic(auto, unfolding(sg_sched::specs::Format::Reading::word))]
fn take_cast(alloc: Global, words: &mut Words) -> Result<Option<Seq<Name>>, OutOfMemory>
    ensures { IfOk result (λ o. word cast words.old ≡ taken o words.new) }
{
    match words.next() {
        Some(word) => read_cast(alloc, word),
        None => Ok(None),
    }
}

// `GRAPH VERSION NAME,..,NAME` of a start.
#[tactic(auto, unfolding(crate::specs::Request::start_form))]
fn start<'a>(alloc: Global, words: &mut Words) -> Result<Option<Request<'a>>, OutOfMemory>
    ensures { IfOk result (λ o. o ≡ start_form words.old) }
{
    let Some(graph) = take_name(words) else {
        return Ok(None);
    };
    let Some(version) = take_version(words) else {
        return Ok(None);
    };
    let Some(names) = take_cast(alloc, words)? else {
        return Ok(None);
    };
    if !words.is_empty() {
        return Ok(None);
    }
    Ok(Some(Request::Start {
        graph,
        version,
        names,
    }))
}

// `sN LABEL VAR=VALUE ..` of an act.
#[tactic(auto, unfolding(crate::specs::Request::act_form))]
fn act<'a>(alloc: Global, words: &mut Words<'a>) -> Result<Option<Request<'a>>, OutOfMemory>
    ensures { IfOk result (λ o. o ≡ act_form words.old) }
{
    let Some(session) = take_session(words) else {
        return Ok(None);
    };
    let Some(label) = take_name(words) else {
        return Ok(None);
    };
    match read_assignments(alloc, words)? {
        Some(values) => Ok(Some(Request::Act {
            session,
            label,
            values,
        })),
        None => Ok(None),
    }
}

// `MS` of a wait, or nothing.
#[tactic(auto, unfolding(crate::specs::Request::receive_form, sg_sched::specs::Format::Reading::word))]
fn receive<'a>(words: &mut Words) -> Option<Request<'a>>
    ensures { result ≡ receive_form words.old }
{
    let Some(word) = words.next() else {
        return Some(Request::Receive(None));
    };
    let within = read_number(word, 86_400_000)?;
    if !words.is_empty() {
        return None;
    }
    Some(Request::Receive(Some(within as u32)))
}

// No more words, of an end.
#[tactic(auto, unfolding(crate::specs::Request::quit_form))]
fn quit<'a>(words: &Words) -> Option<Request<'a>>
    ensures { result ≡ quit_form words.now }
{
    if !words.is_empty() {
        return None;
    }
    Some(Request::Quit)
}

// `sN`, and no more.
#[tactic(auto, unfolding(crate::specs::Request::session_form))]
fn one_session(words: &mut Words) -> Option<u32>
    ensures { result ≡ session_form words.old }
{
    let number = take_session(words)?;
    if !words.is_empty() {
        return None;
    }
    Some(number)
}
