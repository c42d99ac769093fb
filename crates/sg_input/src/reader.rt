//! A reader of lines.
ghost use Rattle.std.specs.Prelude.{◌≡◌, ◌⊎◌, ◌==◌, ℕ, ◌+◌, ◌<◌, ◌≤◌, [], ◌∷◌, ◌++◌, List, None, Some, Ok, length, take, drop, slice_range, IfOk, OnErr};
ghost use Rattle.std.specs.List.{position};
ghost use Rattle.sg_base.specs.Outside.{HasRisen, TakesFirst};
ghost use Rattle.std.specs.Option.{option_map};
ghost use Rattle.sg_input.specs.Input.{BeginsWith};
ghost use Rattle.sg_input.specs.Lines.{Line, Whole, TooLong, NoFeed, most_line_bytes, lines_of, lines_left};

use crate::Input;
use sg_base::{Failed, OutOfMemory};
use std::alloc::Global;
use std::marker::Model;
use thiserror::Error;

// The bytes of a line, without its line feed.
const MOST_BYTES: usize = 262_144;

// The bytes of a reader's buffer.
const ROOM: usize = 262_144 + 65_536;

/// What a reader found.
#[derive(Clone, Copy, PartialEq, Eq)]
pub enum LineFound {
    /// A line, whose bytes [`LineReader::line`] gives.
    Line,
    /// A line of more than 262,144 bytes, of which nothing is kept.
    TooLong,
}

/// Why a reader gave no line.
#[derive(Debug, Clone, Copy, PartialEq, Eq, Error)]
pub enum InputFault {
    /// The input failed.
    #[error("the input failed")]
    Failed,
    /// Out of memory: one line took 2^64 reads, which nobody lives to see.
    #[error("out of memory")]
    OutOfMemory,
}

/// Reads the lines of an input, one at each call. A clause sees the bytes of the line that it found last, and the bytes that it read
/// and did not give yet.
///
/// It takes no memory after `new`. A line stays where it was read, unless the buffer ends within it: then what was read of it is moved to the
/// buffer's start, once.
#[derive(Drop)]
pub struct LineReader {
    // The line that was found last is from `from` to `to`, and what was not given yet from `start` to `end`, with no line
    // feed up to `seen`.
    buffer: Vec<u8>,
    from: usize,
    to: usize,
    start: usize,
    seen: usize,
    end: usize,
}

impl Model for LineReader {
    ghost use Rattle.std.specs.Prelude.{◌≡◌, ◌≤◌, length, slice_range};
    ghost use Rattle.sg_input.specs.Lines.{NoFeed};
    ghost use Rattle.sg_input.specs.Model.{Reading};

    ghost Value = { Reading };

    ghost view = { λ r. record { line = slice_range r.buffer.items r.from r.to; unread = slice_range r.buffer.items r.start r.end } };

    ghost invariant = { λ r. (r.from ≤ r.to) × (r.to ≤ length r.buffer.items) × (r.start ≤ r.seen) × (r.seen ≤ r.end) × (r.end ≤ length r.buffer.items) × (length r.buffer.items ≡ 327680) × NoFeed (slice_range r.buffer.items r.start r.seen) };
}

impl LineReader {
    /// A reader that has read nothing.
    pub fn new(alloc: Global) -> Result<LineReader, OutOfMemory>
        ensures { IfOk result (λ r. r ≡ record { line = []; unread = [] }) }
    {
        Ok(LineReader {
            buffer: vec![in alloc; 0u8; ROOM]?,
            from: 0,
            to: 0,
            start: 0,
            seen: 0,
            end: 0,
        })
    }

    /// The bytes of the line that the last call of `next` found, without its line feed.
    pub fn line(&self) -> &[u8]
        ensures { result.now ≡ self.now.line }
    {
        &self.buffer[self.from..self.to]
    }

    /// Finds the next line, or gives `None` at the end of all.
    pub fn next<I: Input>(&mut self, input: &mut I) -> Result<Option<LineFound>, InputFault>
        ensures never_falls { I.faults input.old ≤ I.faults input.new }
        ensures failed { result ≡ Err InputFault.Failed → HasRisen (I.faults input.old) (I.faults input.new) }
        ensures fits { length self.new.line ≤ most_line_bytes }
        ensures one { NoFeed self.new.line }

        // What each answer says of the lines that are left, if they are known.
        ensures line { result ≡ Ok (Some LineFound.Line) → TakesFirst (lines_left self.old.unread (I.coming input.old)) (lines_left self.new.unread (I.coming input.new)) (Whole self.new.line) }
        ensures too_long { result ≡ Ok (Some LineFound.TooLong) → TakesFirst (lines_left self.old.unread (I.coming input.old)) (lines_left self.new.unread (I.coming input.new)) TooLong }
        ensures at_end { result ≡ Ok None → (all : List Line) → lines_left self.old.unread (I.coming input.old) ≡ Some all → all ≡ [] }
        ensures kept_at_end { result ≡ Ok None → lines_left self.new.unread (I.coming input.new) ≡ lines_left self.old.unread (I.coming input.old) }
        ensures kept { OnErr result (lines_left self.new.unread (I.coming input.new) ≡ lines_left self.old.unread (I.coming input.old)) }
    {
        self.from = 0;
        self.to = 0;
        for _ in 0..u64::MAX {
            if let Some(found) = self.take_line() {
                return Ok(Some(found));
            }
            match self.fill(input) {
                Ok(0) => return Ok(None),
                Ok(_) => {}
                Err(_) => return Err(InputFault::Failed),
            }
        }
        Err(InputFault::OutOfMemory)
    }

    // Takes the first line off the bytes that were read, if it is there whole.
    fn take_line(&mut self) -> Option<LineFound>
        ensures fits { length self.new.line ≤ most_line_bytes }
        ensures one { NoFeed self.new.line }
        ensures line { result ≡ Some LineFound.Line → (more : List ℕ) → lines_of (self.old.unread ++ more) ≡ Whole self.new.line ∷ lines_of (self.new.unread ++ more) }
        ensures too_long { result ≡ Some LineFound.TooLong → (more : List ℕ) → lines_of (self.old.unread ++ more) ≡ TooLong ∷ lines_of (self.new.unread ++ more) }
        ensures none { result ≡ None → (self.new.unread ≡ self.old.unread) × NoFeed self.old.unread × (self.new.line ≡ []) }
    {
        let Some(at) = find_feed(&self.buffer[self.seen..self.end]) else {
            self.from = 0;
            self.to = 0;
            self.seen = self.end;
            return None;
        };
        let from = self.start;
        let to = self.seen + at;
        self.start = to + 1;
        self.seen = to + 1;
        if to - from > MOST_BYTES {
            self.from = 0;
            self.to = 0;
            return Some(LineFound::TooLong);
        }
        self.from = from;
        self.to = to;
        Some(LineFound::Line)
    }

    // Reads more bytes behind those that were read, and gives their number, which is 0 at the end of all alone. Of a line that is too long
    // already as much is kept as shows it.
    fn fill<I: Input>(&mut self, input: &mut I) -> Result<usize, InputFault>
        requires { NoFeed self.old.unread }
        ensures never_falls { I.faults input.old ≤ I.faults input.new }
        ensures failed { OnErr result (HasRisen (I.faults input.old) (I.faults input.new)) }
        ensures same { lines_left self.new.unread (I.coming input.new) ≡ lines_left self.old.unread (I.coming input.old) }
        ensures at_end { result ≡ Ok 0 → (all : List Line) → lines_left self.old.unread (I.coming input.old) ≡ Some all → all ≡ [] }
        ensures line { self.new.line ≡ [] }
    {
        self.from = 0;
        self.to = 0;
        let kept = make_room(&mut self.buffer, self.start, self.end);
        self.start = kept.start;
        self.seen = kept.end;
        self.end = kept.end;
        match read_behind(&mut self.buffer, kept.end, input) {
            Ok(count) => {
                self.end = kept.end + count;
                Ok(count)
            }
            Err(_) => Err(InputFault::Failed),
        }
    }
}

// Where the bytes that are kept begin and end.
#[derive(Clone, Copy)]
struct KeptRange {
    start: usize,
    end: usize,
}

// Makes room behind the prefix of a line that was read, which is between two offsets and of which as much is kept as a line may have, and one byte more.
fn make_room(buffer: &mut Vec<u8>, start: usize, end: usize) -> KeptRange
    requires within { start ≤ end }
    requires fits { end ≤ length buffer.old.items }
    requires whole { length buffer.old.items ≡ 327680 }
    requires no_feed { NoFeed (slice_range buffer.old.items start end) }
    ensures within { result.start ≤ result.end }
    ensures room { result.end < length buffer.new.items }
    ensures whole { length buffer.new.items ≡ 327680 }
    ensures no_feed { NoFeed (slice_range buffer.new.items result.start result.end) }
    ensures same { (more : List ℕ) → lines_of (slice_range buffer.new.items result.start result.end ++ more) ≡ lines_of (slice_range buffer.old.items start end ++ more) }
{
    let count = kept_bytes(end - start);
    if start == 0 || (start < end && end < ROOM && end - start <= MOST_BYTES) {
        return KeptRange {
            start,
            end: start + count,
        };
    }
    move_prefix(buffer, start, count);
    KeptRange {
        start: 0,
        end: count,
    }
}

// How many bytes of the prefix of a line are kept, if it has so many.
fn kept_bytes(len: usize) -> usize
    ensures within { result ≤ len }
    ensures most { result ≤ 262145 }
    ensures enough { (result ≡ len) ⊎ (262144 < result) }
{
    if len > MOST_BYTES {
        MOST_BYTES + 1
    } else {
        len
    }
}

// Moves bytes from an offset on to the start.
fn move_prefix(buffer: &mut Vec<u8>, start: usize, count: usize)
    requires { start + count ≤ length buffer.old.items }
    ensures whole { length buffer.new.items ≡ length buffer.old.items }
    ensures moved { take count buffer.new.items ≡ slice_range buffer.old.items start (start + count) }
{
    buffer.copy_within(start..start + count, 0);
}

// Reads more bytes to an offset of the buffer, and gives their number.
fn read_behind<I: Input>(buffer: &mut Vec<u8>, at: usize, input: &mut I) -> Result<usize, Failed>
    requires { at < length buffer.old.items }
    ensures never_falls { I.faults input.old ≤ I.faults input.new }
    ensures failed { OnErr result (HasRisen (I.faults input.old) (I.faults input.new)) }
    ensures whole { length buffer.new.items ≡ length buffer.old.items }
    ensures prefix { take at buffer.new.items ≡ take at buffer.old.items }
    ensures fits { IfOk result (λ count. at + count ≤ length buffer.new.items) }
    ensures first { IfOk result (λ count. BeginsWith (I.coming input.old) (slice_range buffer.new.items at (at + count))) }
    ensures taken { IfOk result (λ count. I.coming input.new ≡ option_map (drop count) (I.coming input.old)) }
    ensures at_end { result ≡ Ok 0 → (all : List ℕ) → I.coming input.old ≡ Some all → all ≡ [] }
    ensures kept { OnErr result (I.coming input.new ≡ I.coming input.old) }
{
    input.read(&mut buffer[at..])
}

// The offset of the first line feed.
fn find_feed(bytes: &[u8]) -> Option<usize>
    ensures { result ≡ position (λ b. b == 10) bytes.now }
{
    bytes.iter().position(|b| *b == b'\n')
}
