//! Tokens.
ghost use Rattle.std.specs.Prelude.{◌≡◌, ◌≢◌, false, is_some, IfSome};
ghost use Rattle.sg_model.specs.Lists.{has_text};
ghost use Rattle.sg_model.specs.Names.{reserved};
ghost use Rattle.sg_parse.specs.Reading.{refusal_of};
ghost use Rattle.sg_parse.specs.Tokens.{is_word, is_named, kept, seen_as, text_of};

use crate::fault::ParseFault;
use sg_base::Name;

// A token of a text, its end, or what is no token.
#[derive(Clone, Copy)]
pub enum Token {
    // A letter, then letters, digits or `_`, at most 32 bytes.
    Word(Name),
    Colon,
    Semicolon,
    Arrow,
    // The further words that a text of parts reserves.
    Use,
    As,
    End,
    // A word of more than 32 bytes, at its 33rd.
    Long,
    // A byte that begins no token.
    Bad,
}

/// Which texts have the token: a text of parts also reserves the words `use` and `as`.
#[derive(Clone, Copy)]
pub enum Language {
    /// A graph, or what is said of one.
    OfGraph,
    /// Parts.
    OfParts,
}

// A token and its offset in bytes.
#[derive(Clone, Copy)]
pub struct TokenAt {
    pub token: Token,
    pub at: usize,
}

// The token as the language has it.
pub fn seen_as(language: Language, token_at: TokenAt) -> TokenAt
    ensures { result ≡ seen_as language token_at }
{
    match language {
        Language::OfGraph => token_at,
        Language::OfParts => TokenAt {
            token: kept(token_at.token),
            at: token_at.at,
        },
    }
}

fn kept(token: Token) -> Token
    ensures { result ≡ kept token }
{
    if is_word(&token, b"use") {
        return Token::Use;
    }
    if is_word(&token, b"as") {
        return Token::As;
    }
    token
}

// The token is this word.
pub fn is_word(token: &Token, word: &[u8]) -> bool
    ensures { result ≡ is_word word.now token.now }
{
    match token {
        Token::Word(name) => name.as_bytes() == word,
        _ => false,
    }
}

// The token is a name, and none of the language's own words.
pub fn is_named(token: &Token) -> bool
    ensures { result ≡ is_named token.now }
{
    match token {
        Token::Word(name) => !name.reserved(),
        _ => false,
    }
}

// The name that the token is.
pub fn name_of(token: &Token) -> Option<Name>
    ensures found { is_some result ≡ is_named token.now }
    ensures value { IfSome result (λ n. n ≡ text_of token.now) }
    ensures free { IfSome result (λ n. has_text n reserved ≡ false) }
{
    match token {
        Token::Word(name) if !name.reserved() => Some(*name),
        _ => None,
    }
}

// The fault at a token that the grammar doesn't have at its position.
pub fn refusal(token_at: &TokenAt) -> ParseFault
    ensures value { result ≡ refusal_of token_at.now.token token_at.now.at }
    ensures early { result ≢ ParseFault.OutOfMemory }
{
    let at = token_at.at;
    match token_at.token {
        Token::Bad => ParseFault::BadByte { at },
        Token::Long => ParseFault::TooMany { at },
        _ => ParseFault::Unexpected { at },
    }
}
