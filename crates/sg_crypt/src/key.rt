//! Keys that are ready to tag.
ghost use Rattle.std.specs.Prelude.{◌≡◌, ◌++◌, IsTrue, ◌↔◌};
ghost use Rattle.sg_protocol.specs.Texts.{real, padded, key_block, hmac, cut};
ghost use Rattle.sg_protocol.specs.TextLaws.{IsVersion};

use crate::hmac::{cut, key_block, padded, same, tag_from};
use sg_base::Tag;
use sha2::{Digest, Sha256};
use std::marker::Model;

/// A key of 32 bytes, ready to tag: HMAC begins both of its hashes with a block that depends on the key alone, and these two blocks are
/// hashed once, when the key is made (RFC 2104 section 4). A clause sees it as its bytes. It has no `Debug`, which would print them.
#[derive(Drop)]
pub struct Key {
    bytes: [u8; 32],
    inner: Sha256,
    outer: Sha256,
}

impl Model for Key {
    ghost use Rattle.std.specs.Prelude.{List, ℕ};
    ghost use Rattle.sg_crypt.specs.Invariant.{IsReady};

    ghost Value = { List ℕ };

    ghost view = { λ k. k.bytes };

    ghost invariant = { IsReady };
}

impl Key {
    /// The key of these bytes. It takes no memory.
    pub fn new(bytes: [u8; 32]) -> Key
        ensures { result ≡ bytes }
    {
        let block = key_block(&bytes);
        Key {
            bytes,
            inner: Sha256::new_with_prefix(padded(0x36, &block)),
            outer: Sha256::new_with_prefix(padded(0x5C, &block)),
        }
    }

    /// Its bytes. It takes no memory.
    pub fn bytes(&self) -> &[u8; 32]
        ensures { result.now ≡ self.now }
    {
        &self.bytes
    }

    /// The HMAC-SHA-256 of `head` followed by `rest` (RFC 2104 section 2). It takes no memory.
    pub fn tag(&self, head: &[u8], rest: &[u8]) -> Tag
        ensures { result ≡ hmac real self.now (head.now ++ rest.now) }
    {
        tag_from(
            self.inner.clone().unwrap(),
            self.outer.clone().unwrap(),
            head,
            rest,
        )
    }

    /// Whether this is the HMAC of `head` followed by `rest`, as the version sends it. It takes no memory.
    pub fn cut_matches(&self, version: u8, head: &[u8], rest: &[u8], tag: &Tag) -> bool
        requires { IsVersion version }
        ensures { IsTrue result ↔ (cut version (hmac real self.now (head.now ++ rest.now)) ≡ tag.now) }
    {
        same(&cut(version, self.tag(head, rest)), tag)
    }
}
