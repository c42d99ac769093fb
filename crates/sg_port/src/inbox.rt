//! The frames that were taken in while a send waited.
ghost use Rattle.std.specs.Prelude.{◌≡◌, ◌<◌, ◌≤◌, [], ◌∷◌, ◌++◌, length, IfOk, IfSome, IfNone, IsTrue};
ghost use Rattle.std.specs.VecDeque.{deque_capacity};
ghost use Rattle.sg_port.specs.Inbox.{HasRoom};

use std::alloc::{AllocError, Global};
use std::collections::VecDeque;
use std::marker::Model;

/// How many bytes there is room for.
const MOST_BYTES: usize = 4_194_304;

/// How many frames there is room for.
const MOST_FRAMES: usize = 65_536;

/// The most bytes of a frame.
const FRAME: usize = 60_000;

/// Whole frames in the order in which they came: at most 65,536 of them, and 4,194,304 bytes. Their slots are made beforehand.
#[derive(Drop)]
pub(crate) struct Inbox {
    frames: VecDeque<Vec<u8>>,
    held: usize,
}

impl Model for Inbox {
    ghost use Rattle.std.specs.Prelude.{ℕ, ◌≡◌, ◌≤◌, List, map, length};
    ghost use Rattle.std.specs.List.{concat};
    ghost use Rattle.std.specs.VecDeque.{deque_capacity};

    ghost Value = { List (List ℕ) };

    ghost view = { λ b. map (λ f. f.items) b.frames.items };

    ghost invariant = { λ b. (length (concat (map (λ f. f.items) b.frames.items)) ≡ b.held) × (b.held ≤ 4194304) × (65536 ≤ deque_capacity b.frames) };
}

impl Inbox {
    /// No frames, and the slots for them.
    pub(crate) fn new(alloc: Global) -> Result<Inbox, AllocError>
        ensures { IfOk result (λ b. b ≡ []) }
    {
        Ok(Inbox {
            frames: VecDeque::with_capacity(alloc, MOST_FRAMES)?,
            held: 0,
        })
    }

    /// Whether there is room for one more frame.
    pub(crate) fn has_room(&self) -> bool
        ensures { IsTrue result → HasRoom self.now }
    {
        if self.frames.len() >= MOST_FRAMES {
            return false;
        }
        if self.held > MOST_BYTES - FRAME {
            return false;
        }
        true
    }

    /// Puts a frame at the end. It takes no memory.
    pub(crate) fn push(&mut self, frame: Vec<u8>)
        requires room { HasRoom self.old }
        requires fits { length frame.items ≤ 60000 }
        ensures { self.new ≡ self.old ++ frame.items ∷ [] }
    {
        self.held += frame.len();
        put_last(&mut self.frames, frame);
    }

    /// Takes the first frame.
    pub(crate) fn pop(&mut self) -> Option<Vec<u8>>
        ensures some { IfSome result (λ frame. self.old ≡ frame.items ∷ self.new) }
        ensures none { IfNone result (self.old ≡ []) }
    {
        let frame = self.frames.pop_front()?;
        self.held -= frame.len();
        Some(frame)
    }
}

// Puts a frame at the end, if there is room for it.
fn put_last(frames: &mut VecDeque<Vec<u8>>, frame: Vec<u8>)
    requires { length frames.old.items < deque_capacity frames.old }
    ensures items { frames.new.items ≡ frames.old.items ++ frame ∷ [] }
    ensures capacity { deque_capacity frames.old ≤ deque_capacity frames.new }
{
    let _ = frames.push_back(frame);
}
