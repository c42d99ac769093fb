//! What words are as arguments, and words that are answers.
ghost use Rattle.std.specs.Prelude.{◌≡◌, ◌↔◌, ◌-◌, ◌^◌, if◌then◌else◌, codes, length, IfSome, IsSome};
ghost use Rattle.sg_base.specs.Words.{number};

use sg_base::{ByteOut, Name, read_number};
use std::alloc::Global;
use std::{fmt, str};

/// A number in decimal digits.
pub fn number(word: &[u8]) -> Option<u32>
    ensures { result ≡ number (2 ^ 32 - 1) word.now }
{
    match read_number(word, 4_294_967_295) {
        Some(number) => Some(number as u32),
        None => None,
    }
}

/// A single byte.
pub fn byte(word: &[u8]) -> Option<u8>
    ensures { IsSome result ↔ (length word.now ≡ 1) }
{
    match word {
        [byte] => Some(*byte),
        _ => None,
    }
}

/// Bytes of this count.
pub fn fixed<const N: usize>(word: &[u8]) -> Option<[u8; N]>
    ensures { IfSome result (λ bytes. bytes ≡ word.now) }
{
    <[u8; N]>::try_from(word).ok()
}

/// A name.
pub fn name(word: &[u8]) -> Option<Name>
    ensures { IfSome result (λ name. name ≡ word.now) }
{
    Name::new(word)
}

/// The parts of a text between commas.
pub fn parts<'w>(alloc: Global, word: &'w [u8]) -> Option<Vec<&'w str>> {
    str::from_utf8(word).ok()?.split(',').collect(alloc).ok()
}

/// An answer of these bytes.
pub fn bytes(alloc: Global, bytes: &[u8]) -> Option<Vec<u8>>
    ensures { IfSome result (λ answer. answer.items ≡ bytes.now) }
{
    bytes.to_vec(alloc).ok()
}

/// An answer of this value's text.
pub fn text<T: fmt::Display>(alloc: Global, value: &T) -> Option<Vec<u8>> {
    let mut out = ByteOut::new(alloc);
    write!(out, "{value}").ok()?;
    Some(out.done())
}

/// The answer `yes` or `no`.
pub fn yes(alloc: Global, is_so: bool) -> Option<Vec<u8>>
    ensures { IfSome result (λ answer. answer.items ≡ (if is_so then codes "yes" else codes "no")) }
{
    bytes(alloc, if is_so { b"yes" } else { b"no" })
}

/// The answer of a name, or `none`.
pub fn name_or_none(alloc: Global, name: Option<Name>) -> Option<Vec<u8>> {
    match name {
        Some(name) => bytes(alloc, name.as_bytes()),
        None => bytes(alloc, b"none"),
    }
}
