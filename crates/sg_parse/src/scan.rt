//! One token of the bytes.
ghost use Rattle.std.specs.Prelude.{◌≡◌, ◌<◌, ◌≤◌, ◌+◌, ◌^◌, ◌||◌, ◌==◌, false, true, length, drop, get_or, take_while};
ghost use Rattle.std.specs.List.{prefix_len};
ghost use Rattle.sg_model.specs.Names.{is_letter, is_name_byte, is_name};
ghost use Rattle.sg_parse.specs.Tokens.{tokens_from, leading, Part, has_head, is_separator, mark, word_at};

use crate::token::{Token, TokenAt};
use sg_base::Name;

// The next token from an offset on, and where it ends.
pub fn scan(bytes: &[u8], from: usize) -> (TokenAt, usize)
    requires { from ≤ length bytes.now }
    ensures tokens { tokens_from Part.Apart from (drop from bytes.now) ≡ leading result.0 (tokens_from Part.Apart result.1 (drop result.1 bytes.now)) }
    ensures within { result.1 ≤ length bytes.now }
{
    let at = gap_end(bytes, from);
    if at == bytes.len() {
        return (
            TokenAt {
                token: Token::End,
                at,
            },
            at,
        );
    }
    token_at(bytes, at)
}

// The offset after separators and comments.
fn gap_end(bytes: &[u8], from: usize) -> usize
    requires { from ≤ length bytes.now }
    ensures tokens { tokens_from Part.Apart from (drop from bytes.now) ≡ tokens_from Part.Apart result (drop result bytes.now) }
    ensures within { result ≤ length bytes.now }
    ensures begins { result < length bytes.now → (is_separator (get_or bytes.now result 0) || (get_or bytes.now result 0 == 35)) ≡ false }
{
    let mut at = from;
    'gap: while at < bytes.len() {
        let byte = bytes[at];
        if byte == b'#' {
            at = comment_end(bytes, at + 1);
        } else if is_separator(byte) {
            at += 1;
        } else {
            return at;
        }
    }
    at
}

fn is_separator(byte: u8) -> bool
    ensures { result ≡ is_separator byte }
{
    byte == b' ' || byte == b'\t' || byte == b'\r' || byte == b'\n'
}

// The offset of the line end, or of the text's end, from within a comment.
fn comment_end(bytes: &[u8], from: usize) -> usize
    requires { from ≤ length bytes.now }
    ensures tokens { tokens_from Part.OfComment from (drop from bytes.now) ≡ tokens_from Part.Apart result (drop result bytes.now) }
    ensures forward { from ≤ result }
    ensures within { result ≤ length bytes.now }
{
    let mut at = from;
    'comment: while at < bytes.len() {
        if bytes[at] == b'\n' {
            return at;
        }
        at += 1;
    }
    at
}

// The token that the byte at an offset begins, and where it ends.
fn token_at(bytes: &[u8], at: usize) -> (TokenAt, usize)
    requires there { at < length bytes.now }
    requires begins { (is_separator (get_or bytes.now at 0) || (get_or bytes.now at 0 == 35)) ≡ false }
    ensures tokens { tokens_from Part.Apart at (drop at bytes.now) ≡ leading result.0 (tokens_from Part.Apart result.1 (drop result.1 bytes.now)) }
    ensures within { result.1 ≤ length bytes.now }
{
    if is_letter(bytes[at]) {
        word_at(bytes, at)
    } else {
        mark_at(bytes, at)
    }
}

// The word that begins at an offset, and where it ends.
fn word_at(bytes: &[u8], at: usize) -> (TokenAt, usize)
    requires there { at < length bytes.now }
    requires letter { is_letter (get_or bytes.now at 0) ≡ true }
    ensures token { result.0 ≡ word_at at (take_while is_name_byte (drop at bytes.now)) }
    ensures end { result.1 ≡ at + length (take_while is_name_byte (drop at bytes.now)) }
    ensures within { result.1 ≤ length bytes.now }
{
    let word = name_bytes(tail(bytes, at));
    (word_token(word, at), at + word.len())
}

fn tail(bytes: &[u8], at: usize) -> &[u8]
    requires { at ≤ length bytes.now }
    ensures { result.now ≡ drop at bytes.now }
{
    &bytes[at..]
}

// The bytes from the front on that may stand in a name.
fn name_bytes(bytes: &[u8]) -> &[u8]
    ensures { result.now ≡ take_while is_name_byte bytes.now }
{
    &bytes[..name_len(bytes)]
}

fn name_len(bytes: &[u8]) -> usize
    ensures value { result ≡ prefix_len is_name_byte bytes.now }
    ensures within { result ≤ length bytes.now }
{
    bytes.iter().take_while(|byte| is_name_byte(**byte)).count()
}

// A word, which is a name unless it is too long.
fn word_token(word: &[u8], at: usize) -> TokenAt
    requires fits { at + length word.now < 2 ^ 64 }
    requires named { length word.now ≤ 32 → is_name word.now ≡ true }
    ensures { result ≡ word_at at word.now }
{
    if word.len() > 32 {
        return TokenAt {
            token: Token::Long,
            at: at + 32,
        };
    }
    let token = match Name::new(word) {
        Some(name) => Token::Word(name),
        None => Token::Bad,
    };
    TokenAt { token, at }
}

// The token that begins with a byte that is no letter, and where it ends.
fn mark_at(bytes: &[u8], at: usize) -> (TokenAt, usize)
    requires there { at < length bytes.now }
    requires begins { (is_separator (get_or bytes.now at 0) || (get_or bytes.now at 0 == 35)) ≡ false }
    requires letter { is_letter (get_or bytes.now at 0) ≡ false }
    ensures tokens { tokens_from Part.Apart at (drop at bytes.now) ≡ leading result.0 (tokens_from Part.Apart result.1 (drop result.1 bytes.now)) }
    ensures within { result.1 ≤ length bytes.now }
{
    let head = has_head(bytes, at + 1);
    let token = mark(bytes[at], head);
    if bytes[at] == b'-' && head {
        (TokenAt { token, at }, at + 2)
    } else {
        (TokenAt { token, at }, at + 1)
    }
}

fn mark(byte: u8, head: bool) -> Token
    ensures { result ≡ mark byte head }
{
    match byte {
        b':' => Token::Colon,
        b';' => Token::Semicolon,
        b'-' if head => Token::Arrow,
        _ => Token::Bad,
    }
}

// The byte `>` stands at the offset.
fn has_head(bytes: &[u8], at: usize) -> bool
    requires { at ≤ length bytes.now }
    ensures result { result ≡ has_head (drop at bytes.now) }
    ensures there { result ≡ true → at < length bytes.now }
{
    at < bytes.len() && bytes[at] == b'>'
}

fn is_letter(byte: u8) -> bool
    ensures { result ≡ is_letter byte }
{
    matches!(byte, b'A'..=b'Z' | b'a'..=b'z')
}

fn is_name_byte(byte: u8) -> bool
    ensures { result ≡ is_name_byte byte }
{
    is_letter(byte) || matches!(byte, b'0'..=b'9' | b'_')
}
