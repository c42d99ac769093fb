//! A frame that may be sent again.
ghost use Rattle.std.specs.Prelude.{◌≡◌, ◌<◌, ◌≤◌, length};
ghost use Rattle.sg_model.specs.Limits.{most_frame_bytes};
ghost use Rattle.sg_again.specs.LastFrames.{SentFrame};

use sg_base::{Addr, Name};
use std::marker::Model;

/// A frame of 1 to 60,000 bytes that a session sent: its number among the principal's frames, the name of its receiver, and the address
/// that it goes to. A clause sees it as these.
#[derive(Drop)]
pub struct LastFrame {
    number: u64,
    to: Name,
    at: Addr,
    bytes: Vec<u8>,
}

impl Model for LastFrame {
    ghost use Rattle.std.specs.Prelude.{◌≤◌, ◌<◌, length};
    ghost use Rattle.sg_model.specs.Limits.{most_frame_bytes};
    ghost use Rattle.sg_again.specs.LastFrames.{SentFrame};

    ghost Value = { SentFrame };

    ghost view = { λ f. record { number = f.number; to = f.to; at = f.at; bytes = f.bytes.items } };

    ghost invariant = { λ f. (0 < length f.bytes.items) × (length f.bytes.items ≤ most_frame_bytes) };
}

impl LastFrame {
    /// The frame of these bytes. It takes no memory.
    pub fn new(number: u64, to: Name, at: Addr, bytes: Vec<u8>) -> LastFrame
        requires some { 0 < length bytes.items }
        requires fits { length bytes.items ≤ most_frame_bytes }
        ensures { result ≡ record { number = number; to = to; at = at; bytes = bytes.items } }
    {
        LastFrame {
            number,
            to,
            at,
            bytes,
        }
    }

    /// Its number.
    pub fn number(&self) -> u64
        ensures { result ≡ self.now.number }
    {
        self.number
    }

    /// The name of its receiver.
    pub fn to(&self) -> Name
        ensures { result ≡ self.now.to }
    {
        self.to
    }

    /// The address that it goes to.
    pub fn at(&self) -> Addr
        ensures { result ≡ self.now.at }
    {
        self.at
    }

    /// Its bytes.
    pub fn bytes(&self) -> &[u8]
        ensures bytes { result.now ≡ self.now.bytes }
        ensures some { 0 < length self.now.bytes }
        ensures fits { length self.now.bytes ≤ most_frame_bytes }
    {
        self.bytes.as_slice()
    }
}
