//! The forms of a line, each read after its first word.
ghost use Rattle.std.specs.Prelude.{◌≡◌, ◌≤◌, codes, IfOk, IsNone, IsOk, IfSome, option_map, option_copied};
ghost use Rattle.sg_base.specs.Words.{name, number};
ghost use Rattle.sg_sched.specs.Words.{names, frame};
ghost use Rattle.sg_sched.specs.Format.Reading.{word, hex_of, hex, version, block_form, edge_form, honest_form, key_form, session_form, in_session, start_form, abandon_form, frame_form, what_form, deliver_form};
ghost use Rattle.sg_sched.specs.Format.CraftReading.{exactly};
ghost use Rattle.sg_sched.specs.Format.Early.{deliver_beginning, session_beginning};
ghost use Rattle.sg_sched.specs.Format.Model.{statement, taken};

use crate::line::{Delivered, Line};
use crate::names::read_names;
use crate::text::Words;
use crate::value::{is_hex, is_key};
use crate::word::{read_frame, read_name};
use sg_base::{Name, OutOfMemory, read_number};
use sg_parse::NameSet;
use std::alloc::Global;

#[tactic(auto, unfolding(crate::specs::Format::Reading::word))]
pub(crate) fn take_name(words: &mut Words) -> Option<Name>
    ensures { word name words.old ≡ taken result words.new }
{
    read_name(words.next()?)
}

#[tactic(auto, unfolding(crate::specs::Format::Reading::word))]
pub(crate) fn take_number(words: &mut Words, most: u64) -> Option<u64>
    ensures taken { word (number most) words.old ≡ taken result words.new }
    ensures within { IfSome result (λ n. n ≤ most) }
{
    read_number(words.next()?, most)
}

/// `{`, of a line that begins a block.
#[tactic(auto, unfolding(crate::specs::Format::Reading::block_form))]
pub(crate) fn block<'a>(words: &mut Words<'a>) -> Option<Line<'a>>
    ensures { option_map statement result ≡ block_form words.old }
{
    if words.next()? == b"{".as_slice() && words.is_empty() {
        return Some(Line::Block);
    }
    None
}

/// `LABEL FROM TO` of an edge.
#[tactic(auto, unfolding(crate::specs::Format::Reading::edge_form))]
pub(crate) fn edge<'a>(words: &mut Words<'a>) -> Option<Line<'a>>
    ensures { option_map statement result ≡ edge_form words.old }
{
    let label = take_name(words)?;
    let from = take_number(words, 255)?;
    let to = take_number(words, 255)?;
    if !words.is_empty() {
        return None;
    }
    if label.reserved() {
        return None;
    }
    if from % 2 == to % 2 {
        return None;
    }
    Some(Line::Edge {
        label,
        from: from as u8,
        to: to as u8,
    })
}

/// `NAME` of an honest principal.
#[tactic(auto, unfolding(crate::specs::Format::Reading::honest_form))]
pub(crate) fn honest<'a>(words: &mut Words<'a>) -> Option<Line<'a>>
    ensures { option_map statement result ≡ honest_form words.old }
{
    let who = take_name(words)?;
    if !words.is_empty() {
        return None;
    }
    Some(Line::Honest(who))
}

#[tactic(auto, unfolding(crate::specs::Format::Reading::word, crate::specs::Format::Reading::hex_of))]
fn take_key<'a>(words: &mut Words<'a>) -> Option<&'a [u8]>
    ensures { word (hex_of 32) words.old ≡ taken (option_copied result) words.new }
{
    let digits = words.next()?;
    if is_key(digits) { Some(digits) } else { None }
}

/// `NAME NAME HEX` of a key.
#[tactic(auto, unfolding(crate::specs::Format::Reading::key_form))]
pub(crate) fn key<'a>(words: &mut Words<'a>) -> Option<Line<'a>>
    ensures { option_map statement result ≡ key_form words.old }
{
    let one = take_name(words)?;
    let two = take_name(words)?;
    let digits = take_key(words)?;
    if !words.is_empty() {
        return None;
    }
    if one.as_bytes() == two.as_bytes() {
        return None;
    }
    Some(Line::Key { one, two, digits })
}

#[tactic(auto, unfolding(crate::specs::Format::Reading::word))]
fn take_names(alloc: Global, words: &mut Words) -> Result<Option<NameSet>, OutOfMemory>
    ensures { IfOk result (λ o. word names words.old ≡ taken o words.new) }
{
    match words.next() {
        Some(word) => read_names(alloc, word),
        None => Ok(None),
    }
}

/// The version of a session's frames: 1, or 2 if the word `v2` stands.
#[tactic(auto, unfolding(crate::specs::Format::Reading::version))]
fn take_version(words: &mut Words) -> Option<u8>
    ensures { version words.old ≡ taken result words.new }
{
    match words.next() {
        None => Some(1),
        Some(word) if word == b"v2".as_slice() => Some(2),
        Some(_) => None,
    }
}

/// `NAME GRAPH NONCE NAME,NAME,..` and maybe `v2` of a session.
#[tactic(auto, unfolding(crate::specs::Format::Reading::session_form, crate::specs::Format::Early::session_beginning))]
pub(crate) fn session<'a>(
    alloc: Global,
    words: &mut Words<'a>,
) -> Result<Option<Line<'a>>, OutOfMemory>
    ensures form { IfOk result (λ line. option_map statement line ≡ session_form words.old) }
    ensures early { IsNone (session_beginning words.old) → IsOk result }
{
    let Some(name) = take_name(words) else {
        return Ok(None);
    };
    let Some(graph) = take_name(words) else {
        return Ok(None);
    };
    let Some(nonce) = take_number(words, u64::MAX) else {
        return Ok(None);
    };
    let Some(names) = take_names(alloc, words)? else {
        return Ok(None);
    };
    let Some(version) = take_version(words) else {
        return Ok(None);
    };
    if !words.is_empty() {
        return Ok(None);
    }
    Ok(Some(Line::Session {
        name,
        graph,
        nonce,
        names,
        version,
    }))
}

/// `NAME SESSION`, and no more.
#[tactic(auto, unfolding(crate::specs::Format::Reading::in_session))]
fn in_session(words: &mut Words) -> Option<(Name, Name)>
    ensures { result ≡ in_session words.old }
{
    let who = take_name(words)?;
    let session = take_name(words)?;
    if !words.is_empty() {
        return None;
    }
    Some((who, session))
}

/// `NAME SESSION` of a start.
#[tactic(auto, unfolding(crate::specs::Format::Reading::start_form))]
pub(crate) fn start<'a>(words: &mut Words<'a>) -> Option<Line<'a>>
    ensures { option_map statement result ≡ start_form words.old }
{
    let (who, session) = in_session(words)?;
    Some(Line::Start { who, session })
}

/// `NAME SESSION` of an abandonment.
#[tactic(auto, unfolding(crate::specs::Format::Reading::abandon_form))]
pub(crate) fn abandon<'a>(words: &mut Words<'a>) -> Option<Line<'a>>
    ensures { option_map statement result ≡ abandon_form words.old }
{
    let (who, session) = in_session(words)?;
    Some(Line::Abandon { who, session })
}

/// `fN` and `flip I` or `cut I` after it.
#[tactic(auto, unfolding(crate::specs::Format::Reading::frame_form))]
fn frame<'a>(who: Name, number: u32, words: &mut Words<'a>) -> Option<Line<'a>>
    ensures { option_map statement result ≡ frame_form who number words.old }
{
    let Some(change) = words.next() else {
        return Some(Line::Deliver {
            who,
            what: Delivered::Frame(number),
        });
    };
    if change == b"flip".as_slice() {
        let at = take_number(words, u64::from(u32::MAX))? as u32;
        if !words.is_empty() {
            return None;
        }
        Some(Line::Deliver {
            who,
            what: Delivered::Flipped { number, at },
        })
    } else if change == b"cut".as_slice() {
        let len = take_number(words, u64::from(u32::MAX))? as u32;
        if !words.is_empty() {
            return None;
        }
        Some(Line::Deliver {
            who,
            what: Delivered::Cut { number, len },
        })
    } else {
        None
    }
}

#[tactic(auto, unfolding(crate::specs::Format::Reading::word, crate::specs::Format::Reading::hex))]
fn take_hex<'a>(alloc: Global, words: &mut Words<'a>) -> Result<Option<&'a [u8]>, OutOfMemory>
    ensures { IfOk result (λ o. word hex words.old ≡ taken (option_copied o) words.new) }
{
    let Some(digits) = words.next() else {
        return Ok(None);
    };
    if is_hex(alloc, digits)? {
        Ok(Some(digits))
    } else {
        Ok(None)
    }
}

/// `hex HEX`, or `fN` and what becomes of it.
#[tactic(auto, unfolding(crate::specs::Format::Reading::what_form, crate::specs::Format::Reading::word))]
fn what<'a>(
    alloc: Global,
    who: Name,
    words: &mut Words<'a>,
) -> Result<Option<Line<'a>>, OutOfMemory>
    ensures form { IfOk result (λ line. option_map statement line ≡ what_form who words.old) }
    ensures early { IsNone (word (exactly (codes "hex")) words.old) → IsOk result }
{
    let Some(first) = words.next() else {
        return Ok(None);
    };
    if first != b"hex".as_slice() {
        return match read_frame(first) {
            Some(number) => Ok(frame(who, number, words)),
            None => Ok(None),
        };
    }
    let Some(digits) = take_hex(alloc, words)? else {
        return Ok(None);
    };
    if !words.is_empty() {
        return Ok(None);
    }
    Ok(Some(Line::Deliver {
        who,
        what: Delivered::Bytes(digits),
    }))
}

/// `NAME` and what is delivered.
#[tactic(auto, unfolding(crate::specs::Format::Reading::deliver_form, crate::specs::Format::Early::deliver_beginning))]
pub(crate) fn deliver<'a>(
    alloc: Global,
    words: &mut Words<'a>,
) -> Result<Option<Line<'a>>, OutOfMemory>
    ensures form { IfOk result (λ line. option_map statement line ≡ deliver_form words.old) }
    ensures early { IsNone (deliver_beginning words.old) → IsOk result }
{
    match take_name(words) {
        Some(who) => what(alloc, who, words),
        None => Ok(None),
    }
}
