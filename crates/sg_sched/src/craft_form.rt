//! The form of a craft.
ghost use Rattle.std.specs.Prelude.{◌≡◌, ◌<◌, ◌∷◌, Some, None, true, false, IfOk, IsNone, IsOk, MatchOption, codes, option_map};
ghost use Rattle.sg_base.specs.Words.{name, number};
ghost use Rattle.sg_sched.specs.Words.{frame};
ghost use Rattle.sg_sched.specs.Format.Reading.{Taker, word};
ghost use Rattle.sg_sched.specs.Format.CraftReading.{split_last, committed, name_list, cast, exactly, time, run, few, listed, copy_source, source, repeated, tag, item, is_next, optional, join_parts, join, opened, seal_form, ends, items, lists, craft_form};
ghost use Rattle.sg_sched.specs.Format.Early.{craft_beginning};
ghost use Rattle.sg_sched.specs.Format.Sources.{from_of};
ghost use Rattle.sg_sched.specs.Format.Model.{statement, taken};

use crate::act::split_at;
use crate::craft::CraftJoin;
use crate::form::{take_name, take_number};
use crate::line::{Committed, CraftLine, ItemLine, Line, TagLine, TagSource};
use crate::names::split_part;
use crate::text::Words;
use crate::value::is_value;
use crate::word::{read_frame, read_name};
use sg_base::{Name, OutOfMemory, Seq, read_number};
use std::alloc::Global;

/// What stands before the last byte `mark` and after it.
fn split_last(mark: u8, word: &[u8]) -> Option<(&[u8], &[u8])>
    ensures { MatchOption result (split_last mark word.now ≡ None) (λ p. split_last mark word.now ≡ Some (p.0.now, p.1.now)) }
{
    let mut at = word.len();
    'bytes: while at > 0 {
        at -= 1;
        if word[at] == mark {
            return Some((&word[..at], &word[at + 1..]));
        }
    }
    None
}

/// `VAR=VALUE#K`.
#[tactic(auto, unfolding(crate::specs::Format::CraftReading::committed, sg_base::specs::Words::name))]
fn read_committed<'a>(alloc: Global, word: &'a [u8]) -> Result<Option<Committed<'a>>, OutOfMemory>
    ensures { IfOk result (λ o. o ≡ committed word.now) }
{
    let Some((variable, rest)) = split_at(b'=', word) else {
        return Ok(None);
    };
    let Some((value, step)) = split_last(b'#', rest) else {
        return Ok(None);
    };
    let Some(variable) = read_name(variable) else {
        return Ok(None);
    };
    if !is_value(alloc, value)? {
        return Ok(None);
    }
    match read_number(step, u64::MAX) {
        Some(step) => Ok(Some(Committed {
            variable,
            value,
            step,
        })),
        None => Ok(None),
    }
}

/// Takes the word `first` off, if it is the next one.
fn take_word(first: &[u8], words: &mut Words) -> bool
    ensures there { result ≡ true → words.old ≡ first.now ∷ words.new }
    ensures other { result ≡ false → (words.new ≡ words.old) × (is_next first.now words.old ≡ false) }
{
    let mut ahead = words.copy();
    let Some(word) = ahead.next() else {
        return false;
    };
    if word != first {
        return false;
    }
    *words = ahead;
    true
}

/// The commitments that stand first, which are taken off.
fn take_run<'a>(alloc: Global, words: &mut Words<'a>) -> Result<Seq<Committed<'a>>, OutOfMemory>
    ensures { IfOk result (λ found. run words.old ≡ (found, words.new)) }
{
    let mut found = Seq::new(alloc);
    'words: loop {
        let mut ahead = words.copy();
        let Some(word) = ahead.next() else {
            return Ok(found);
        };
        let Some(one) = read_committed(alloc, word)? else {
            return Ok(found);
        };
        found.push(one)?;
        *words = ahead;
    }
}

/// The word and one commitment or more after it, or nothing.
#[tactic(auto, using(crate::proofs::RunLaws::listed_first, crate::proofs::RunLaws::listed_other))]
fn take_listed<'a>(
    alloc: Global,
    first: &[u8],
    words: &mut Words<'a>,
) -> Result<Option<Seq<Committed<'a>>>, OutOfMemory>
    ensures { IfOk result (λ o. listed first.now words.old ≡ taken o words.new) }
{
    if !take_word(first, words) {
        return Ok(Some(Seq::new(alloc)));
    }
    let found = take_run(alloc, words)?;
    if found.len() == 0 {
        return Ok(None);
    }
    Ok(Some(found))
}

/// At most 32 openings after the word `open`, or nothing.
fn take_opened<'a>(
    alloc: Global,
    words: &mut Words<'a>,
) -> Result<Option<Seq<Committed<'a>>>, OutOfMemory>
    ensures { IfOk result (λ o. opened words.old ≡ taken o words.new) }
{
    let Some(openings) = take_listed(alloc, b"open", words)? else {
        return Ok(None);
    };
    if openings.len() > 32 {
        return Ok(None);
    }
    Ok(Some(openings))
}

/// `seal`, or `I ROLE`.
#[tactic(auto, unfolding(crate::specs::Format::CraftReading::copy_source))]
fn take_copy(frame: u32, words: &mut Words) -> Option<TagSource>
    ensures { copy_source frame words.old ≡ taken (option_map from_of result) words.new }
{
    let word = words.next()?;
    if word == b"seal".as_slice() {
        return Some(TagSource::Seal { frame });
    }
    let item = read_number(word, u64::from(u32::MAX))? as u32;
    let role = take_name(words)?;
    Some(TagSource::Item { frame, item, role })
}

#[tactic(auto, unfolding(crate::specs::Format::Reading::word))]
fn take_frame(words: &mut Words) -> Option<u32>
    ensures { word frame words.old ≡ taken result words.new }
{
    read_frame(words.next()?)
}

/// Where a tag comes from.
#[tactic(auto, unfolding(crate::specs::Format::CraftReading::source))]
fn take_source(words: &mut Words) -> Option<TagSource>
    ensures { source words.old ≡ taken (option_map from_of result) words.new }
{
    let word = words.next()?;
    if word == b"key".as_slice() {
        let one = take_name(words)?;
        let two = take_name(words)?;
        Some(TagSource::Key { one, two })
    } else if word == b"copy".as_slice() {
        let frame = take_frame(words)?;
        take_copy(frame, words)
    } else if word == b"zero".as_slice() {
        Some(TagSource::Zero)
    } else {
        None
    }
}

/// A tag, after its first word.
#[tactic(auto, unfolding(crate::specs::Format::CraftReading::tag))]
fn take_tag(words: &mut Words) -> Option<TagLine>
    ensures { tag words.old ≡ taken result words.new }
{
    let role = take_name(words)?;
    let from = take_source(words)?;
    Some(TagLine { role, from })
}

/// What may stand several times, each time after the same word.
trait AfterWord<'a>: Sized {
    /// What is taken off behind the word.
    ghost taker: { Taker Self };

    /// Takes one off, after its word.
    fn take(alloc: Global, words: &mut Words<'a>) -> Result<Option<Self>, OutOfMemory>
        ensures { IfOk result (λ o. taker words.old ≡ taken o words.new) };
}

impl<'a> AfterWord<'a> for TagLine {
    ghost taker = { tag };

    fn take(_alloc: Global, words: &mut Words<'a>) -> Result<Option<TagLine>, OutOfMemory> {
        Ok(take_tag(words))
    }
}

impl<'a> AfterWord<'a> for ItemLine<'a> {
    ghost taker = { item };

    fn take(alloc: Global, words: &mut Words<'a>) -> Result<Option<ItemLine<'a>>, OutOfMemory> {
        take_item(alloc, words)
    }
}

/// All that stand next, up to `most`, each after the word `first`.
fn take_repeated<'a, T: AfterWord<'a> + Drop>(
    alloc: Global,
    first: &[u8],
    most: u16,
    words: &mut Words<'a>,
) -> Result<Option<Seq<T>>, OutOfMemory>
    ensures { IfOk result (λ o. repeated first.now T.taker most words.old ≡ taken o words.new) }
{
    let mut found = Seq::new(alloc);
    let mut left = most;
    'words: while left > 0 {
        if !take_word(first, words) {
            return Ok(Some(found));
        }
        let Some(one) = T::take(alloc, words)? else {
            return Ok(None);
        };
        found.push(one)?;
        left -= 1;
    }
    Ok(Some(found))
}

/// Tags, up to 14, each after the word `tag`.
fn take_tags(alloc: Global, words: &mut Words) -> Result<Option<Seq<TagLine>>, OutOfMemory>
    ensures { IfOk result (λ o. repeated (codes "tag") tag 14 words.old ≡ taken o words.new) }
{
    take_repeated(alloc, b"tag", 14, words)
}

#[tactic(auto, unfolding(crate::specs::Format::CraftReading::time))]
fn read_time(word: &[u8]) -> Option<u32>
    ensures { result ≡ time word.now }
{
    let time = read_number(word, 1_000_000)?;
    if time == 0 {
        return None;
    }
    Some(time as u32)
}

#[tactic(auto, unfolding(crate::specs::Format::Reading::word))]
fn take_time(words: &mut Words) -> Option<u32>
    ensures { word time words.old ≡ taken result words.new }
{
    read_time(words.next()?)
}

/// The commitments that stand first, if they are at most 32.
fn take_delta<'a>(
    alloc: Global,
    words: &mut Words<'a>,
) -> Result<Option<Seq<Committed<'a>>>, OutOfMemory>
    ensures { IfOk result (λ o. few (run words.old) ≡ taken o words.new) }
{
    let delta = take_run(alloc, words)?;
    if delta.len() > 32 {
        return Ok(None);
    }
    Ok(Some(delta))
}

/// An item, after its first word.
#[tactic(auto, unfolding(crate::specs::Format::CraftReading::item))]
fn take_item<'a>(alloc: Global, words: &mut Words<'a>) -> Result<Option<ItemLine<'a>>, OutOfMemory>
    ensures { IfOk result (λ o. item words.old ≡ taken o words.new) }
{
    let Some(label) = take_name(words) else {
        return Ok(None);
    };
    let Some(time) = take_time(words) else {
        return Ok(None);
    };
    let Some(delta) = take_delta(alloc, words)? else {
        return Ok(None);
    };
    let Some(tags) = take_tags(alloc, words)? else {
        return Ok(None);
    };
    Ok(Some(ItemLine {
        label,
        time,
        delta,
        tags,
    }))
}

/// Items, one or more and up to 65,535, each after the word `item`.
fn take_items<'a>(
    alloc: Global,
    words: &mut Words<'a>,
) -> Result<Option<Seq<ItemLine<'a>>>, OutOfMemory>
    ensures { IfOk result (λ o. items words.old ≡ taken o words.new) }
{
    let Some(items) = take_repeated(alloc, b"item", 65_535, words)? else {
        return Ok(None);
    };
    if items.len() == 0 {
        return Ok(None);
    }
    Ok(Some(items))
}

/// The nonce after the word `nonce`, or nothing.
#[tactic(auto, using(crate::proofs::RunLaws::optional_first, crate::proofs::RunLaws::optional_other))]
fn take_nonce(words: &mut Words) -> Option<Option<u64>>
    ensures { optional (codes "nonce") (number 18446744073709551615) words.old ≡ taken result words.new }
{
    if !take_word(b"nonce", words) {
        return Some(None);
    }
    let nonce = take_number(words, u64::MAX)?;
    Some(Some(nonce))
}

/// 2 to 16 names with commas between them, equal ones allowed, or `None` if the word isn't so.
#[tactic(auto, unfolding(crate::specs::Format::CraftReading::cast))]
pub fn read_cast(alloc: Global, word: &[u8]) -> Result<Option<Seq<Name>>, OutOfMemory>
    ensures { IfOk result (λ o. o ≡ cast word.now) }
{
    let Some(names) = read_list(alloc, word)? else {
        return Ok(None);
    };
    if names.len() < 2 || names.len() > 16 {
        return Ok(None);
    }
    Ok(Some(names))
}

/// Names with commas between them.
fn read_list(alloc: Global, word: &[u8]) -> Result<Option<Seq<Name>>, OutOfMemory>
    ensures { IfOk result (λ o. o ≡ name_list word.now) }
{
    let mut found = Seq::new(alloc);
    let mut left = word;
    'parts: loop {
        let (part, rest) = split_part(left);
        let Some(name) = Name::new(part) else {
            return Ok(None);
        };
        found.push(name)?;
        match rest {
            Some(rest) => left = rest,
            None => return Ok(Some(found)),
        }
    }
}

/// The names after the word `cast`, or nothing.
#[tactic(auto, using(crate::proofs::RunLaws::optional_first, crate::proofs::RunLaws::optional_other), unfolding(crate::specs::Format::Reading::word))]
fn take_cast(alloc: Global, words: &mut Words) -> Result<Option<Option<Seq<Name>>>, OutOfMemory>
    ensures { IfOk result (λ o. optional (codes "cast") cast words.old ≡ taken o words.new) }
{
    if !take_word(b"cast", words) {
        return Ok(Some(None));
    }
    let Some(word) = words.next() else {
        return Ok(None);
    };
    match read_cast(alloc, word)? {
        Some(names) => Ok(Some(Some(names))),
        None => Ok(None),
    }
}

/// `nonce N` and `cast NAME,..`, each of which may be missing.
#[tactic(auto, unfolding(crate::specs::Format::CraftReading::join_parts))]
fn take_parts(alloc: Global, words: &mut Words) -> Result<Option<CraftJoin>, OutOfMemory>
    ensures { IfOk result (λ o. join_parts words.old ≡ taken (option_map Some o) words.new) }
{
    let Some(nonce) = take_nonce(words) else {
        return Ok(None);
    };
    let Some(names) = take_cast(alloc, words)? else {
        return Ok(None);
    };
    Ok(Some(CraftJoin { nonce, names }))
}

/// The word `join` and what is after it, or nothing.
#[tactic(auto, using(crate::proofs::RunLaws::join_first, crate::proofs::RunLaws::join_other))]
fn take_join(alloc: Global, words: &mut Words) -> Result<Option<Option<CraftJoin>>, OutOfMemory>
    ensures { IfOk result (λ o. join words.old ≡ taken o words.new) }
{
    if !take_word(b"join", words) {
        return Ok(Some(None));
    }
    match take_parts(alloc, words)? {
        Some(parts) => Ok(Some(Some(parts))),
        None => Ok(None),
    }
}

#[tactic(auto, unfolding(crate::specs::Format::Reading::word))]
fn take_exactly(first: &[u8], words: &mut Words) -> Option<()>
    ensures { word (exactly first.now) words.old ≡ taken result words.new }
{
    if words.next()? == first {
        Some(())
    } else {
        None
    }
}

/// `seal SOURCE`, and no more.
#[tactic(auto, unfolding(crate::specs::Format::CraftReading::seal_form))]
fn take_seal(words: &mut Words) -> Option<TagSource>
    ensures { option_map from_of result ≡ seal_form words.old }
{
    take_exactly(b"seal", words)?;
    let seal = take_source(words)?;
    if !words.is_empty() {
        return None;
    }
    Some(seal)
}

/// `SESSION from ROLE to ROLE`.
#[tactic(auto, unfolding(crate::specs::Format::CraftReading::ends))]
fn take_ends(words: &mut Words) -> Option<(Name, Name, Name)>
    ensures { ends words.old ≡ taken result words.new }
{
    let session = take_name(words)?;
    take_exactly(b"from", words)?;
    let from = take_name(words)?;
    take_exactly(b"to", words)?;
    let to = take_name(words)?;
    if from.as_bytes() == to.as_bytes() {
        return None;
    }
    Some((session, from, to))
}

/// The commitments that are known, the items and the openings.
#[tactic(auto, unfolding(crate::specs::Format::CraftReading::lists))]
fn take_lists<'a>(
    alloc: Global,
    words: &mut Words<'a>,
) -> Result<Option<(Seq<Committed<'a>>, Seq<ItemLine<'a>>, Seq<Committed<'a>>)>, OutOfMemory>
    ensures { IfOk result (λ o. lists words.old ≡ taken o words.new) }
{
    let Some(know) = take_listed(alloc, b"know", words)? else {
        return Ok(None);
    };
    let Some(items) = take_items(alloc, words)? else {
        return Ok(None);
    };
    let Some(openings) = take_opened(alloc, words)? else {
        return Ok(None);
    };
    Ok(Some((know, items, openings)))
}

/// A craft, after its first word.
#[tactic(auto, unfolding(crate::specs::Format::CraftReading::craft_form, crate::specs::Format::Early::craft_beginning))]
pub(crate) fn craft<'a>(
    alloc: Global,
    words: &mut Words<'a>,
) -> Result<Option<Line<'a>>, OutOfMemory>
    ensures form { IfOk result (λ line. option_map statement line ≡ craft_form words.old) }
    ensures early { IsNone (craft_beginning words.old) → IsOk result }
{
    let Some((session, from, to)) = take_ends(words) else {
        return Ok(None);
    };
    let Some(join) = take_join(alloc, words)? else {
        return Ok(None);
    };
    let Some((know, items, openings)) = take_lists(alloc, words)? else {
        return Ok(None);
    };
    match take_seal(words) {
        Some(seal) => Ok(Some(Line::Craft(CraftLine {
            session,
            from,
            to,
            join,
            know,
            items,
            openings,
            seal,
        }))),
        None => Ok(None),
    }
}
