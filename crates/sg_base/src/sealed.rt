//! A made frame, which must be spent.
ghost use Rattle.std.specs.Prelude.{◌≡◌, ◌<◌, ◌≤◌, length};
ghost use Rattle.sg_model.specs.Limits.{most_frame_bytes};

use crate::Name;
use std::marker::Model;

/// A made frame of 1 to 60,000 bytes, for the principal of a name. It can't be dropped: send it, or take it apart by `release`. A
/// clause sees it as the pair of the name's bytes and the frame's.
pub struct Sealed {
    to: Name,
    bytes: Vec<u8>,
}

impl Model for Sealed {
    ghost use Rattle.std.specs.Prelude.{◌≤◌, ◌<◌, ℕ, List, length};
    ghost use Rattle.sg_model.specs.Limits.{most_frame_bytes};

    ghost Value = { List ℕ × List ℕ };

    ghost view = { λ s. (s.to, s.bytes.items) };

    ghost invariant = { λ s. (0 < length s.bytes.items) × (length s.bytes.items ≤ most_frame_bytes) };
}

impl Sealed {
    /// The frame of these bytes. It takes no memory.
    pub fn seal(to: Name, bytes: Vec<u8>) -> Sealed
        requires some { 0 < length bytes.items }
        requires fits { length bytes.items ≤ most_frame_bytes }
        ensures { result ≡ (to, bytes.items) }
    {
        Sealed { to, bytes }
    }

    /// The principal that it is for.
    pub fn to(&self) -> Name
        ensures { result ≡ self.now.0 }
    {
        self.to
    }

    /// The frame's bytes.
    pub fn bytes(&self) -> &[u8]
        ensures bytes { result.now ≡ self.now.1 }
        ensures some { 0 < length self.now.1 }
        ensures fits { length self.now.1 ≤ most_frame_bytes }
    {
        self.bytes.as_slice()
    }

    /// Takes the frame apart. It takes no memory.
    pub fn release(self) -> (Name, Vec<u8>)
        ensures to { result.0 ≡ self.0 }
        ensures bytes { result.1.items ≡ self.1 }
        ensures some { 0 < length self.1 }
        ensures fits { length self.1 ≤ most_frame_bytes }
    {
        let Sealed { to, bytes } = self;
        (to, bytes)
    }
}
