//! What written values and hexadecimal digits spell.
ghost use Rattle.hex.specs.Hex.{decode_sized};
ghost use Rattle.std.specs.Result.{result_ok};
ghost use Rattle.std.specs.Prelude.{◌≡◌, ◌≢◌, ◌<◌, IfSome, ◌==◌, [], ◌∷◌, option_map, option_and_then, IfOk, MatchOption, length, Some};
ghost use Rattle.sg_base.specs.Model.{value_of};
ghost use Rattle.sg_sched.specs.Format.Values.{int_value, is_plain, hex_byte, put_before, text_bytes, as_text, spelled_value, hex_bytes, is_hex_of, is_hex, is_value};
ghost use Rattle.sg_base.specs.Words.{number};

use hex::FromHexError;
use sg_base::{Chars, CharsFault, OutOfMemory, Value, read_number};
use std::alloc::{AllocError, Global};

/// The value that a word spells: a text if it begins with `"`, otherwise a number.
pub fn read_value(alloc: Global, word: &[u8]) -> Result<Option<Value>, OutOfMemory>
    ensures { IfOk result (λ o. option_map value_of o ≡ spelled_value word.now) }
{
    match word {
        [b'"', text @ ..] => read_text(alloc, text),
        _ => Ok(read_int(word)),
    }
}

/// Whether the word spells a value.
pub fn is_value(alloc: Global, word: &[u8]) -> Result<bool, OutOfMemory>
    ensures { IfOk result (λ b. b ≡ is_value word.now) }
{
    match read_value(alloc, word)? {
        Some(_) => Ok(true),
        None => Ok(false),
    }
}

/// A number that an `i64` holds, in decimal digits without a needless leading zero; after `-` it isn't 0.
fn read_int(word: &[u8]) -> Option<Value>
    ensures { option_map value_of result ≡ int_value word.now }
{
    let (first, digits) = word.split_first()?;
    if *first == b'-' {
        let number = read_number(digits, 9_223_372_036_854_775_808)?;
        if number == 0 {
            return None;
        }
        Some(Value::Int(-1 - (number - 1) as i64))
    } else {
        let number = read_number(word, 9_223_372_036_854_775_807)?;
        Some(Value::Int(number as i64))
    }
}

/// A text after its first double quote.
fn read_text(alloc: Global, text: &[u8]) -> Result<Option<Value>, OutOfMemory>
    ensures { IfOk result (λ o. option_map value_of o ≡ option_and_then as_text (text_bytes text.now)) }
{
    let Some(bytes) = text_bytes(alloc, text)? else {
        return Ok(None);
    };
    as_text(alloc, &bytes)
}

/// The text of these bytes, if they are UTF-8 and at most 1,024.
fn as_text(alloc: Global, bytes: &[u8]) -> Result<Option<Value>, OutOfMemory>
    ensures { IfOk result (λ o. option_map value_of o ≡ as_text bytes.now) }
{
    match Chars::new(alloc, bytes) {
        Ok(text) => Ok(Some(Value::Text(text))),
        Err(CharsFault::TooLong { .. }) => Ok(None),
        Err(CharsFault::NotText) => Ok(None),
        Err(CharsFault::OutOfMemory) => Err(AllocError),
    }
}

/// The bytes up to the closing double quote, with which the word ends.
fn text_bytes(alloc: Global, text: &[u8]) -> Result<Option<Vec<u8>>, OutOfMemory>
    ensures { IfOk result (λ o. option_map (λ bytes. bytes.items) o ≡ text_bytes text.now) }
{
    let mut bytes = Vec::new(alloc);
    let mut left = text;
    'bytes: loop {
        if left == b"\"".as_slice() {
            return Ok(Some(bytes));
        }
        let Some((byte, rest)) = next_byte(left) else {
            return Ok(None);
        };
        bytes.push(byte)?;
        left = rest;
    }
}

/// The next byte of a text that isn't at its end, and what follows it.
#[tactic(auto, using(crate::proofs::ValueLaws::plain_step, crate::proofs::ValueLaws::other_step))]
fn next_byte(text: &[u8]) -> Option<(u8, &[u8])>
    ensures next { MatchOption result (text.now ≢ 34 ∷ [] → text_bytes text.now ≡ None)
        (λ p. text_bytes text.now ≡ put_before (Some p.0) (text_bytes p.1.now)) }
    ensures shorter { IfSome result (λ p. length p.1.now < length text.now) }
{
    let (first, rest) = text.split_first()?;
    if *first == b'\\' {
        escaped(rest)
    } else if is_plain(*first) {
        Some((*first, rest))
    } else {
        None
    }
}

/// The byte of an escape, after its backslash, and what follows it.
#[tactic(auto, using(crate::proofs::ValueLaws::escape_other, crate::proofs::ValueLaws::escape_step))]
fn escaped(text: &[u8]) -> Option<(u8, &[u8])>
    ensures next { MatchOption result (text_bytes (92 ∷ text.now) ≡ None) (λ p. text_bytes (92 ∷ text.now) ≡ put_before (Some p.0) (text_bytes p.1.now)) }
    ensures shorter { IfSome result (λ p. length p.1.now < length text.now) }
{
    let (x, text) = text.split_first()?;
    let (high, text) = text.split_first()?;
    let (low, text) = text.split_first()?;
    if *x != b'x' {
        return None;
    }
    Some((hex_byte(*high, *low)?, text))
}

fn is_plain(byte: u8) -> bool
    ensures { result ≡ is_plain byte }
{
    matches!(byte, 0x21..=0x7e) && byte != b'"' && byte != b'\\'
}

/// The byte of two hexadecimal digits of either case.
#[tactic(auto, using(crate::proofs::ValueLaws::hex_two))]
fn hex_byte(high: u8, low: u8) -> Option<u8>
    ensures { result ≡ hex_byte high low }
{
    let bytes = one_byte(&[high, low])?;
    Some(bytes[0])
}

fn one_byte(digits: &[u8]) -> Option<[u8; 1]>
    ensures { result ≡ result_ok (decode_sized digits.now 1) }
{
    let mut byte = [0u8; 1];
    match hex::decode_to_slice(digits, &mut byte) {
        Ok(()) => Some(byte),
        Err(_) => None,
    }
}

/// Whether the word is the digits of 32 bytes.
#[tactic(auto, unfolding(sg_base::specs::Words::hex_bytes))]
pub fn is_key(word: &[u8]) -> bool
    ensures { result ≡ is_hex_of 32 word.now }
{
    sg_base::read_hex::<32>(word).is_some()
}

/// The bytes of hexadecimal digits of either case.
pub fn read_hex(alloc: Global, word: &[u8]) -> Result<Option<Vec<u8>>, OutOfMemory>
    ensures { IfOk result (λ o. option_map (λ bytes. bytes.items) o ≡ hex_bytes word.now) }
{
    match hex::decode(alloc, word) {
        Ok(bytes) => Ok(Some(bytes)),
        Err(FromHexError::OutOfMemory) => Err(AllocError),
        Err(_) => Ok(None),
    }
}

/// Whether the word is the digits of one byte or more.
pub fn is_hex(alloc: Global, word: &[u8]) -> Result<bool, OutOfMemory>
    ensures { IfOk result (λ b. b ≡ is_hex word.now) }
{
    match read_hex(alloc, word)? {
        Some(bytes) => Ok(!bytes.is_empty()),
        None => Ok(false),
    }
}
