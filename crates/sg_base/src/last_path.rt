//! The name of the file for which a call last failed.
ghost use Rattle.std.specs.Prelude.{◌≡◌, ◌≤◌, ◌++◌, None, Some, drop, length};
ghost use Rattle.sg_base.specs.Outside.{as_path};

use std::marker::Model;

/// The most bytes of a name: a path of Linux has as many, and a zero behind it.
const MOST_BYTES: usize = 4_095;

/// The name of the file for which a call last failed, as far as a path may go, if one failed. It takes no memory. A clause sees its bytes.
#[derive(Drop)]
pub(crate) struct LastPath {
    bytes: [u8; MOST_BYTES],
    count: Option<usize>,
}

impl Model for LastPath {
    ghost use Rattle.std.specs.Prelude.{ℕ, List, Option, take};
    ghost use Rattle.std.specs.Option.{option_map};

    ghost Value = { Option (List ℕ) };

    ghost view = { λ b. option_map (λ count. take count b.bytes) b.count };
}

impl LastPath {
    /// No name.
    pub(crate) fn new() -> LastPath
        ensures { result ≡ None }
    {
        LastPath {
            bytes: [0; MOST_BYTES],
            count: None,
        }
    }

    /// Puts a name, as far as a path may go, in the place of the one before.
    pub(crate) fn put(&mut self, name: &str)
        ensures { self.new ≡ Some (as_path name.now) }
    {
        let path = as_path(name.as_bytes());
        put_prefix(&mut self.bytes, path);
        self.count = Some(path.len());
    }
}

// The first bytes of a name, as many as a path may have.
#[tactic(auto, unfolding(crate::specs::Outside::as_path))]
fn as_path(name: &[u8]) -> &[u8]
    ensures path { result.now ≡ as_path name.now }
    ensures fits { length result.now ≤ 4095 }
{
    if name.len() <= MOST_BYTES {
        return name;
    }
    &name[..MOST_BYTES]
}

fn put_prefix(block: &mut [u8; MOST_BYTES], prefix: &[u8])
    requires { length prefix.now ≤ 4095 }
    ensures { block.new ≡ prefix.now ++ drop (length prefix.now) block.old }
{
    block[..prefix.len()].copy_from_slice(prefix);
}
