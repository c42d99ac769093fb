//! What the addresses of a key file spell.
ghost use Rattle.std.specs.Prelude.{◌≡◌, ◌==◌, [], ◌∷◌, MatchOption};
ghost use Rattle.std.specs.List.{slice_split};
ghost use Rattle.sg_base.specs.Words.{number};
ghost use Rattle.sg_keys.specs.Words.{ip, port, address};

use sg_base::{Addr, read_number};

// What stands before the first byte `mark`, and after it.
fn split_once(word: &[u8], mark: u8) -> Option<(&[u8], &[u8])>
    ensures { MatchOption result (slice_split (λ b. b == mark) word.now ≡ word.now ∷ []) (λ parts. slice_split (λ b. b == mark) word.now ≡ parts.0.now ∷ slice_split (λ b. b == mark) parts.1.now) }
{
    'bytes: for at in 0..word.len() {
        if word[at] == mark {
            return Some((&word[..at], &word[at + 1..]));
        }
    }
    None
}

// A number up to 255.
fn read_byte(word: &[u8]) -> Option<u8>
    ensures { result ≡ number 255 word.now }
{
    let number = read_number(word, 255)?;
    Some(number as u8)
}

// Four numbers up to 255 with dots between them.
#[tactic(auto, unfolding(crate::specs::Words::ip))]
fn read_ip(word: &[u8]) -> Option<[u8; 4]>
    ensures { result ≡ ip word.now }
{
    let (first, rest) = split_once(word, b'.')?;
    let (second, rest) = split_once(rest, b'.')?;
    let (third, fourth) = split_once(rest, b'.')?;
    let None = split_once(fourth, b'.') else {
        return None;
    };
    Some([
        read_byte(first)?,
        read_byte(second)?,
        read_byte(third)?,
        read_byte(fourth)?,
    ])
}

// A number from 1 to 65535.
#[tactic(auto, unfolding(crate::specs::Words::port))]
fn read_port(word: &[u8]) -> Option<u16>
    ensures { result ≡ port word.now }
{
    let number = read_number(word, 65_535)?;
    if number == 0 {
        return None;
    }
    Some(number as u16)
}

/// An address: four numbers up to 255 with dots between them, a colon, and a number from 1 to 65535.
#[tactic(auto, unfolding(crate::specs::Words::address))]
pub(crate) fn read_address(word: &[u8]) -> Option<Addr>
    ensures { result ≡ address word.now }
{
    let (host, door) = split_once(word, b':')?;
    let None = split_once(door, b':') else {
        return None;
    };
    let ip = read_ip(host)?;
    let port = read_port(door)?;
    Some(Addr { ip, port })
}
