//! The form of an act.
ghost use Rattle.std.specs.Prelude.{◌≡◌, IfOk, IsNone, IsOk, option_map, Some, None, MatchOption, ◌<◌};
ghost use Rattle.sg_sched.specs.Format.Reading.{split_at, given, assignments, act_form};
ghost use Rattle.sg_sched.specs.Format.Early.{act_beginning};
ghost use Rattle.sg_sched.specs.Format.Model.{statement};

use crate::form::take_name;
use crate::line::{Assignment, Line};
use crate::text::{Words, index_of};
use crate::value::is_value;
use crate::word::read_name;
use sg_base::{OutOfMemory, Seq};
use std::alloc::Global;

/// What stands before the first byte `mark` and after it.
pub fn split_at(mark: u8, word: &[u8]) -> Option<(&[u8], &[u8])>
    ensures { MatchOption result (split_at mark word.now ≡ None) (λ p. split_at mark word.now ≡ Some (p.0.now, p.1.now)) }
{
    let at = index_of(mark, word);
    let (prefix, rest) = word.split_at(at);
    match rest {
        [_, rest @ ..] => Some((prefix, rest)),
        [] => None,
    }
}

/// `VAR=VALUE`.
#[tactic(auto, unfolding(crate::specs::Format::Reading::given, sg_base::specs::Words::name))]
pub fn read_assignment<'a>(
    alloc: Global,
    word: &'a [u8],
) -> Result<Option<Assignment<'a>>, OutOfMemory>
    ensures { IfOk result (λ o. o ≡ given word.now) }
{
    let Some((variable, value)) = split_at(b'=', word) else {
        return Ok(None);
    };
    let Some(variable) = read_name(variable) else {
        return Ok(None);
    };
    if is_value(alloc, value)? {
        Ok(Some(Assignment { variable, value }))
    } else {
        Ok(None)
    }
}

/// Each word that is left as `VAR=VALUE`, with a written value that spells one, or `None` if a word isn't so.
pub fn read_assignments<'a>(
    alloc: Global,
    words: &mut Words<'a>,
) -> Result<Option<Seq<Assignment<'a>>>, OutOfMemory>
    ensures { IfOk result (λ o. o ≡ assignments words.old) }
{
    let mut values = Seq::new(alloc);
    'words: while let Some(word) = words.next() {
        match read_assignment(alloc, word)? {
            Some(value) => values.push(value)?,
            None => return Ok(None),
        }
    }
    Ok(Some(values))
}

/// `NAME SESSION LABEL VAR=VALUE ..` of an act.
#[tactic(auto, unfolding(crate::specs::Format::Reading::act_form, crate::specs::Format::Early::act_beginning))]
pub(crate) fn act<'a>(alloc: Global, words: &mut Words<'a>) -> Result<Option<Line<'a>>, OutOfMemory>
    ensures form { IfOk result (λ line. option_map statement line ≡ act_form words.old) }
    ensures early { IsNone (act_beginning words.old) → IsOk result }
{
    let Some(who) = take_name(words) else {
        return Ok(None);
    };
    let Some(session) = take_name(words) else {
        return Ok(None);
    };
    let Some(label) = take_name(words) else {
        return Ok(None);
    };
    match read_assignments(alloc, words)? {
        Some(values) => Ok(Some(Line::Act {
            who,
            session,
            label,
            values,
        })),
        None => Ok(None),
    }
}
