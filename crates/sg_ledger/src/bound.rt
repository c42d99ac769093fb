//! The name of the file that a disk is bound to.
ghost use Rattle.std.specs.Prelude.{◌≡◌, ◌↔◌, ◌≤◌, ◌++◌, None, Some, IsTrue, drop, length};

use std::marker::Model;

/// The most bytes of a name: a path of Linux has as many, and a zero behind it.
const MOST_BYTES: usize = 4_095;

/// The name of the file that a disk is bound to, if it is bound to one. It takes no memory, and has room for each path that Linux takes. A
/// clause sees the bytes of the name.
#[derive(Drop)]
pub(crate) struct Bound {
    bytes: [u8; MOST_BYTES],
    count: Option<usize>,
}

impl Model for Bound {
    ghost use Rattle.std.specs.Prelude.{ℕ, List, Option, take};
    ghost use Rattle.std.specs.Option.{option_map};

    ghost Value = { Option (List ℕ) };

    ghost view = { λ b. option_map (λ count. take count b.bytes) b.count };
}

impl Bound {
    /// No name.
    pub(crate) fn new() -> Bound
        ensures { result ≡ None }
    {
        Bound {
            bytes: [0; MOST_BYTES],
            count: None,
        }
    }

    /// Whether there is room for a name.
    pub(crate) fn has_room_for(&self, name: &str) -> bool
        ensures { IsTrue result ↔ (length name.now ≤ 4095) }
    {
        name.len() <= MOST_BYTES
    }

    /// Puts a name in the place of the one before.
    pub(crate) fn put(&mut self, name: &str)
        requires { length name.now ≤ 4095 }
        ensures { self.new ≡ Some name.now }
    {
        put_prefix(&mut self.bytes, name.as_bytes());
        self.count = Some(name.len());
    }
}

fn put_prefix(block: &mut [u8; MOST_BYTES], prefix: &[u8])
    requires { length prefix.now ≤ 4095 }
    ensures { block.new ≡ prefix.now ++ drop (length prefix.now) block.old }
{
    block[..prefix.len()].copy_from_slice(prefix);
}
