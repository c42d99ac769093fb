//! What was taken in and is not handed out yet.
ghost use Rattle.std.specs.Prelude.{◌≡◌, ℕ, ◌+◌, ◌*◌, ◌<◌, ◌≤◌, ◌==◌, [], ◌∷◌, ◌++◌, List, drop, length, slice_get, Some, None, IfOk, IfSome, IfNone, IsTrue, vec_capacity};
ghost use Rattle.std.specs.VecDeque.{deque_capacity};
ghost use Rattle.std.specs.List.{list_any};
ghost use Rattle.sg_link.specs.Inbox.{HasRoom, behind_first};

use std::alloc::{AllocError, Global};
use std::collections::VecDeque;
use std::marker::Model;

/// The most bytes of a piece.
pub(crate) const PIECE: usize = 16_384;

/// How many bytes there is room for.
const MOST_BYTES: usize = 4_194_304;

/// How many pieces there is room for.
const MOST_PIECES: usize = 65_536;

/// Pieces in the order in which they came, an empty one where a connection ends. All room is made beforehand: 4,194,304 bytes, and
/// 65,536 pieces.
///
/// Bytes that were handed out stay where they are until they are at least half of what is held, so that the work is in proportion to the
/// bytes, and there is room for twice as many.
#[derive(Drop)]
pub(crate) struct Inbox {
    lens: VecDeque<usize>,
    bytes: Vec<u8>,
    taken: usize,
}

impl Model for Inbox {
    ghost use Rattle.std.specs.Prelude.{ℕ, ◌≡◌, ◌+◌, ◌≤◌, List, drop, length, vec_capacity};
    ghost use Rattle.std.specs.VecDeque.{deque_capacity};
    ghost use Rattle.sg_link.specs.Inbox.{cut, total};

    ghost Value = { List (List ℕ) };

    ghost view = { λ b. cut b.lens.items (drop b.taken b.bytes.items) };

    ghost invariant = { λ b. (total b.lens.items + b.taken ≡ length b.bytes.items) × (total b.lens.items ≤ 4194304) × (65536 ≤ deque_capacity b.lens) × (8388608 ≤ vec_capacity b.bytes) };
}

impl Inbox {
    /// No pieces, and the room for them.
    pub(crate) fn new(alloc: Global) -> Result<Inbox, AllocError>
        ensures { IfOk result (λ b. b ≡ []) }
    {
        Ok(Inbox {
            lens: VecDeque::with_capacity(alloc, MOST_PIECES)?,
            bytes: Vec::with_capacity(alloc, 2 * MOST_BYTES)?,
            taken: 0,
        })
    }

    /// Whether there is room for one more piece.
    pub(crate) fn has_room(&self) -> bool
        ensures { IsTrue result → HasRoom self.now }
    {
        if self.lens.len() >= MOST_PIECES {
            return false;
        }
        let held = self.bytes.len() - self.taken;
        if held > MOST_BYTES - PIECE {
            return false;
        }
        true
    }

    /// Puts a piece at the end. It takes no memory.
    pub(crate) fn push(&mut self, piece: &[u8])
        requires room { HasRoom self.old }
        requires fits { length piece.now ≤ 16384 }
        ensures { self.new ≡ self.old ++ piece.now ∷ [] }
    {
        move_to_front(&mut self.bytes, &mut self.taken);
        append(&mut self.bytes, piece);
        put_last(&mut self.lens, piece.len());
    }

    /// The first piece, if there is one.
    pub(crate) fn first(&self) -> Option<&[u8]>
        ensures some { IfSome result (λ piece. self.now ≡ piece.now ∷ drop 1 self.now) }
        ensures none { IfNone result (self.now ≡ []) }
    {
        let len = *self.lens.front()?;
        Some(&self.bytes[self.taken..self.taken + len])
    }

    /// Removes the first piece.
    pub(crate) fn remove_first(&mut self)
        ensures { self.new ≡ drop 1 self.old }
    {
        if let Some(len) = self.lens.pop_front() {
            self.taken += len;
        }
    }

    /// Removes the pieces of the first connection, with its end, and returns whether that was there.
    pub(crate) fn remove_connection(&mut self) -> bool
        ensures pieces { self.new ≡ behind_first self.old }
        ensures ended { result ≡ list_any (λ p. length p == 0) self.old }
    {
        while let Some(piece) = self.first() {
            let ends = piece.is_empty();
            self.remove_first();
            if ends {
                return true;
            }
        }
        false
    }
}

// Moves the bytes that were not handed out to the front, if they are the lesser half of all.
fn move_to_front(bytes: &mut Vec<u8>, taken: &mut usize)
    requires { taken.old ≤ length bytes.old.items }
    ensures within { taken.new ≤ length bytes.new.items }
    ensures same { drop taken.new bytes.new.items ≡ drop taken.old bytes.old.items }
    ensures half { length bytes.new.items ≤ 2 * length (drop taken.new bytes.new.items) }
    ensures capacity { vec_capacity bytes.old ≤ vec_capacity bytes.new }
{
    let gone = *taken;
    let left = bytes.len() - gone;
    if gone >= left {
        bytes.copy_within(gone.., 0);
        bytes.truncate(left);
        *taken = 0;
    }
}

// Puts bytes at the end, if there is room.
fn append(bytes: &mut Vec<u8>, piece: &[u8])
    requires { length bytes.old.items + length piece.now ≤ vec_capacity bytes.old }
    ensures items { bytes.new.items ≡ bytes.old.items ++ piece.now }
    ensures capacity { vec_capacity bytes.old ≤ vec_capacity bytes.new }
{
    let _ = bytes.extend_from_slice(piece);
}

// Puts a length at the end, if there is room.
fn put_last(lens: &mut VecDeque<usize>, len: usize)
    requires { length lens.old.items < deque_capacity lens.old }
    ensures items { lens.new.items ≡ lens.old.items ++ len ∷ [] }
    ensures capacity { deque_capacity lens.old ≤ deque_capacity lens.new }
{
    let _ = lens.push_back(len);
}
