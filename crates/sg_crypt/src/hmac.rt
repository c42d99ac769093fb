//! Tags.
ghost use Rattle.std.specs.Prelude.{◌≡◌, ◌↔◌, ◌≤◌, ◌++◌, length, drop, IsTrue, List, ℕ};
ghost use Rattle.sha2.specs.Hashers.{Holds256};
ghost use Rattle.sg_protocol.specs.Texts.{real, key_block, padded, hmac, cut};
ghost use Rattle.sg_protocol.specs.TextLaws.{IsVersion};

use sg_base::Tag;
use sha2::{Digest, Sha256};

/// The HMAC-SHA-256 of `head` followed by `rest` under `key` (RFC 2104 section 2, with blocks of 64 bytes). It takes no memory.
pub fn tag(key: &[u8], head: &[u8], rest: &[u8]) -> Tag
    ensures { result ≡ hmac real key.now (head.now ++ rest.now) }
{
    let block = key_block(key);
    let inner = Sha256::new_with_prefix(padded(0x36, &block));
    let outer = Sha256::new_with_prefix(padded(0x5C, &block));
    tag_from(inner, outer, head, rest)
}

// The tag of `head` followed by `rest`, if the hashers hold the key's block under each pad.
pub(crate) fn tag_from(mut inner: Sha256, mut outer: Sha256, head: &[u8], rest: &[u8]) -> Tag
    ensures { (a b : List ℕ) → Holds256 inner a → Holds256 outer b → result ≡ real (b ++ real (a ++ (head.now ++ rest.now))) }
{
    inner.update(head);
    inner.update(rest);
    outer.update(inner.finalize());
    Tag(outer.finalize())
}

/// Whether this is the HMAC of `head` followed by `rest` under `key`. It takes no memory.
pub fn tag_matches(key: &[u8], head: &[u8], rest: &[u8], tag: &Tag) -> bool
    ensures { IsTrue result ↔ (hmac real key.now (head.now ++ rest.now) ≡ tag.now) }
{
    same(&crate::hmac::tag(key, head, rest), tag)
}

/// The tag as a version sends it: whole in version 1; in version 2 its first sixteen bytes, as RFC 2104 section 5 allows, and then
/// zeros. It takes no memory.
pub fn cut(version: u8, tag: Tag) -> Tag
    requires { IsVersion version }
    ensures { result ≡ cut version tag }
{
    if version == 2 {
        let mut bytes = [0u8; 32];
        bytes[..16].copy_from_slice(&tag.0[..16]);
        Tag(bytes)
    } else {
        tag
    }
}

/// Whether this is the HMAC of `head` followed by `rest` under `key`, as the version sends it. It takes no memory.
pub fn cut_matches(version: u8, key: &[u8], head: &[u8], rest: &[u8], tag: &Tag) -> bool
    requires { IsVersion version }
    ensures { IsTrue result ↔ (cut version (hmac real key.now (head.now ++ rest.now)) ≡ tag.now) }
{
    same(&cut(version, crate::hmac::tag(key, head, rest)), tag)
}

// Whether the tags are equal.
pub(crate) fn same(one: &Tag, other: &Tag) -> bool
    ensures { IsTrue result ↔ (one.now ≡ other.now) }
{
    one.0 == other.0
}

// The key as a block of 64 bytes: a longer one hashed, and zeros after it.
pub(crate) fn key_block(key: &[u8]) -> [u8; 64]
    ensures { result ≡ key_block real key.now }
{
    let mut block = [0u8; 64];
    if key.len() > 64 {
        let digest = Sha256::digest(key);
        put_prefix(&mut block, &digest);
    } else {
        put_prefix(&mut block, key);
    }
    block
}

fn put_prefix(block: &mut [u8; 64], prefix: &[u8])
    requires { length prefix.now ≤ 64 }
    ensures { block.new ≡ prefix.now ++ drop (length prefix.now) block.old }
{
    block[..prefix.len()].copy_from_slice(prefix);
}

pub(crate) fn padded(pad: u8, block: &[u8; 64]) -> [u8; 64]
    ensures { result ≡ padded pad block.now }
{
    let mut out = *block;
    'bytes: for i in 0..64 {
        out[i] = pad ^ out[i];
    }
    out
}
