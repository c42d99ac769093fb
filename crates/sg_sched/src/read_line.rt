//! What a line says, by its first word.
ghost use Rattle.std.specs.Prelude.{◌≡◌, ◌==◌, ◌&&◌, ◌||◌, nat_lt, length, IfOk, IsNone, IsOk, MatchOption, option_map};
ghost use Rattle.std.specs.List.{list_all};
ghost use Rattle.sg_sched.specs.Text.{content, words};
ghost use Rattle.sg_sched.specs.Format.Early.{line_beginning};
ghost use Rattle.sg_sched.specs.Format.Form.{form};
ghost use Rattle.sg_sched.specs.Format.Model.{statement};
ghost use Rattle.sg_sched.specs.Format.LineContents.{LineContent};
ghost use Rattle.sg_sched.specs.Format.Forms.{SaysLine, is_comment};

use crate::act::act;
use crate::craft_form::craft;
use crate::form::{abandon, block, deliver, edge, honest, key, session, start};
use crate::line::Line;
use crate::text::{Words, line_content};
use sg_base::OutOfMemory;
use std::alloc::Global;

/// Whether a line's text is skipped: it is blank, or its first byte is `#`, and all its bytes are ASCII.
pub fn is_skipped(text: &[u8]) -> bool
    ensures { result ≡ (list_all (λ b. nat_lt b 128) text.now && (is_comment text.now || length (words text.now) == 0)) }
{
    is_ascii(text) && (is_comment(text) || Words::new(text).is_empty())
}

fn is_comment(text: &[u8]) -> bool
    ensures { result ≡ is_comment text.now }
{
    matches!(text, [b'#', ..])
}

fn is_ascii(text: &[u8]) -> bool
    ensures { result ≡ list_all (λ b. nat_lt b 128) text.now }
{
    text.iter().all(|byte| *byte < 128)
}

/// What a line with these words says, or `None` if it is of no form.
#[tactic(auto, unfolding(crate::specs::Format::Form::form, crate::specs::Format::Early::line_beginning))]
pub fn read_line<'a>(alloc: Global, mut words: Words<'a>) -> Result<Option<Line<'a>>, OutOfMemory>
    ensures form { IfOk result (λ line. option_map statement line ≡ form words.entry) }
    ensures early { IsNone (line_beginning words.entry) → IsOk result }
{
    let Some(first) = words.next() else {
        return Ok(None);
    };
    let words = &mut words;
    if first == b"start".as_slice() {
        Ok(start(words))
    } else if first == b"act".as_slice() {
        act(alloc, words)
    } else if first == b"deliver".as_slice() {
        deliver(alloc, words)
    } else if first == b"craft".as_slice() {
        craft(alloc, words)
    } else if first == b"abandon".as_slice() {
        Ok(abandon(words))
    } else if first == b"session".as_slice() {
        session(alloc, words)
    } else if first == b"key".as_slice() {
        Ok(key(words))
    } else if first == b"honest".as_slice() {
        Ok(honest(words))
    } else if first == b"edge".as_slice() {
        Ok(edge(words))
    } else if first == b"graph".as_slice() {
        Ok(block(words))
    } else {
        Ok(None)
    }
}

/// What a line says, or `None` if it is of no form: there is nothing that its words say, with each field as it may be.
pub fn read_statement<'a>(alloc: Global, line: &'a [u8]) -> Result<Option<Line<'a>>, OutOfMemory>
    ensures says { IfOk result (λ o. MatchOption o ((s : LineContent) → SaysLine line.now s → ⊥) (λ l. SaysLine line.now (statement l))) }
    ensures form { IfOk result (λ o. option_map statement o ≡ form (words (content line.now))) }
    ensures early { IsNone (line_beginning (words (content line.now))) → IsOk result }
{
    read_line(alloc, Words::new(line_content(line)))
}
