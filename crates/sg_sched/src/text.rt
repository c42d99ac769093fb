//! The lines of a text, and the words of a line.
ghost use Rattle.std.specs.Prelude.{◌≡◌, ◌<◌, ◌≤◌, ◌==◌, ◌≢◌, [], ◌∷◌, length, MatchOption};
ghost use Rattle.std.specs.List.{position_or_len};
ghost use Rattle.sg_sched.specs.Text.{lines, content, words};

use std::marker::Model;

/// The offset of the first byte `mark`, or the length if there is none.
pub(crate) fn index_of(mark: u8, bytes: &[u8]) -> usize
    ensures first { result ≡ position_or_len (λ b. b == mark) bytes.now }
    ensures within { result ≤ length bytes.now }
{
    'bytes: for at in 0..bytes.len() {
        if bytes[at] == mark {
            return at;
        }
    }
    bytes.len()
}

/// The first line with its line end, and what follows it.
pub fn split_line(bytes: &[u8]) -> (&[u8], &[u8])
    requires { 0 < length bytes.now }
    ensures split { lines bytes.now ≡ result.0.now ∷ lines result.1.now }
    ensures shorter { length result.1.now < length bytes.now }
{
    let at = index_of(b'\n', bytes);
    bytes.split_at((at + 1).min(bytes.len()))
}

/// What stands on a line, without its line end and a carriage return before that.
pub fn line_content(line: &[u8]) -> &[u8]
    ensures { result.now ≡ content line.now }
{
    match line {
        [prefix @ .., b'\r', b'\n'] => prefix,
        [prefix @ .., b'\n'] => prefix,
        _ => line,
    }
}

/// The words of a line that are left: the parts between spaces that aren't empty. A clause sees them as their list.
#[derive(Drop)]
pub struct Words<'a> {
    rest: &'a [u8],
}

impl<'a> Model for Words<'a> {
    ghost use Rattle.std.specs.Prelude.{ℕ, List};
    ghost use Rattle.sg_sched.specs.Text.{words};

    ghost Value = { List (List ℕ) };

    ghost view = { λ w. words w.rest.now };
}

impl<'a> Words<'a> {
    /// The words of a text.
    pub fn new(text: &'a [u8]) -> Words<'a>
        ensures { result ≡ words text.now }
    {
        Words { rest: text }
    }

    /// The same words once more.
    pub fn copy(&self) -> Words<'a>
        ensures { result ≡ self.now }
    {
        Words { rest: self.rest }
    }

    /// The next word, which is taken off.
    pub fn next(&mut self) -> Option<&'a [u8]>
        ensures { MatchOption result ((self.old ≡ []) × (self.new ≡ [])) (λ w. self.old ≡ w.now ∷ self.new) }
    {
        match split_word(self.rest) {
            Some((word, rest)) => {
                self.rest = rest;
                Some(word)
            }
            None => None,
        }
    }

    /// Whether no word is left.
    pub fn is_empty(&self) -> bool
        ensures { result ≡ (length self.now == 0) }
    {
        match split_word(self.rest) {
            Some(_) => false,
            None => true,
        }
    }
}

/// The first word and what follows it.
fn split_word(text: &[u8]) -> Option<(&[u8], &[u8])>
    ensures { MatchOption result (words text.now ≡ []) (λ p. words text.now ≡ p.0.now ∷ words p.1.now) }
{
    let text = without_spaces(text);
    if text.is_empty() {
        return None;
    }
    let at = index_of(b' ', text);
    Some(text.split_at(at))
}

/// The text from its first byte that is no space.
fn without_spaces(text: &[u8]) -> &[u8]
    ensures same { words result.now ≡ words text.now }
    ensures begins { 0 < length result.now → position_or_len (λ b. b == 32) result.now ≢ 0 }
{
    'bytes: for at in 0..text.len() {
        if text[at] != b' ' {
            return &text[at..];
        }
    }
    &text[text.len()..]
}
