//! The lines of a text with their numbers.
ghost use Rattle.std.specs.Prelude.{◌≡◌, ◌<◌, ◌+◌, ◌^◌, ◌∷◌, [], bytes_eq, length, MatchOption};
ghost use Rattle.sg_sched.specs.Format.Spells.{closes};
ghost use Rattle.sg_sched.specs.Text.{lines, words};
ghost use Rattle.sg_audit.specs.Read.{opens};

use sg_sched::{Words, line_content, split_line};
use std::marker::Model;

/// The lines that are left of a text, and the number of those before, counted from 1.
#[derive(Drop)]
pub(crate) struct Lines<'a> {
    rest: &'a [u8],
    number: u32,
}

impl<'a> Model for Lines<'a> {
    ghost use Rattle.std.specs.Prelude.{◌<◌, ◌+◌, ◌^◌, length};
    ghost use Rattle.sg_sched.specs.Text.{lines};
    ghost use Rattle.sg_audit.specs.Read.{LinesLeft};

    ghost Value = { LinesLeft };

    ghost view = { λ l. record { lines = lines l.rest.now; number = l.number } };

    ghost invariant = { λ l. l.number + length l.rest.now + 1 < 2 ^ 32 };
}

impl<'a> Lines<'a> {
    /// All lines of a text.
    pub fn new(bytes: &'a [u8]) -> Lines<'a>
        requires { length bytes.now + 1 < 2 ^ 32 }
        ensures { result ≡ record { lines = lines bytes.now; number = 0 } }
    {
        Lines {
            rest: bytes,
            number: 0,
        }
    }

    /// The next line with its line end, which is taken off.
    pub fn next(&mut self) -> Option<&'a [u8]>
        ensures { MatchOption result ((self.old.lines ≡ []) × (self.new ≡ self.old)) (λ line. (self.old.lines ≡ line.now ∷ self.new.lines) × (self.new.number ≡ self.old.number + 1)) }
    {
        if self.rest.is_empty() {
            return None;
        }
        let (line, rest) = split_line(self.rest);
        self.rest = rest;
        self.number += 1;
        Some(line)
    }

    /// The text of the lines that are left. It takes no memory.
    pub fn rest(&self) -> &'a [u8]
        ensures { self.now.lines ≡ lines result.now }
    {
        self.rest
    }

    /// The number of lines that were taken off.
    pub fn number(&self) -> u32
        ensures number { result ≡ self.now.number }
        ensures more { result + 1 < 2 ^ 32 }
    {
        self.number
    }
}

/// Whether the line is `graph {`.
#[tactic(auto, unfolding(crate::specs::Read::opens))]
pub(crate) fn opens(line: &[u8]) -> bool
    ensures { result ≡ opens line.now }
{
    let mut words = Words::new(line_content(line));
    let Some(first) = words.next() else {
        return false;
    };
    let Some(second) = words.next() else {
        return false;
    };
    is_word(first, b"graph") && is_word(second, b"{") && words.is_empty()
}

/// Whether the line is `}` alone.
pub(crate) fn closes(line: &[u8]) -> bool
    ensures { result ≡ closes line.now }
{
    is_word(line_content(line), b"}")
}

/// Whether the word is this one.
pub(crate) fn is_word(word: &[u8], text: &[u8]) -> bool
    ensures { result ≡ bytes_eq word.now text.now }
{
    word == text
}
