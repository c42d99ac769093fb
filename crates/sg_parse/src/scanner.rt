//! The tokens of a text, one after the other, in one pass over the bytes.
ghost use Rattle.std.specs.Prelude.{◌≡◌, ◌≢◌, Bool, true, false, Ok, Err, IfOk};
ghost use Rattle.sg_model.specs.Lists.{has_text};
ghost use Rattle.sg_model.specs.Names.{reserved};
ghost use Rattle.sg_parse.specs.Owed.{Reads};
ghost use Rattle.sg_parse.specs.Reading.{is_next, skip, token, name, refusal, no_more, read_end};
ghost use Rattle.sg_parse.specs.declared.token.Token.{Token};
ghost use Rattle.sg_parse.specs.Tokens.{tokens, all_seen_as, is_word, is_named, is_colon, is_semicolon, is_arrow, is_use, is_as, is_last};

use crate::fault::ParseFault;
use crate::scan::scan;
use crate::token::{self, Language, Token, TokenAt};
use sg_base::Name;
use std::marker::Model;

/// The tokens of a text that are not taken yet: the next one is at hand, the others are still bytes. A clause sees all of them.
#[derive(Drop)]
pub struct Scanner<'a> {
    bytes: &'a [u8],
    // Where the next token ends.
    end: usize,
    next: TokenAt,
    language: Language,
}

impl<'a> Model for Scanner<'a> {
    ghost use Rattle.std.specs.Prelude.{◌≤◌, List, drop, length};
    ghost use Rattle.sg_parse.specs.Tokens.{tokens_from, leading, all_seen_as, Part};
    ghost use Rattle.sg_parse.specs.declared.token.TokenAt.{TokenAt};

    ghost Value = { List TokenAt };

    ghost view = { λ s. leading s.next (all_seen_as s.language (tokens_from Part.Apart s.end (drop s.end s.bytes.now))) };

    ghost invariant = { λ s. s.end ≤ length s.bytes.now };
}

impl<'a> Scanner<'a> {
    /// All tokens of a text.
    pub fn new(language: Language, bytes: &'a [u8]) -> Scanner<'a>
        ensures { result ≡ all_seen_as language (tokens bytes.now) }
    {
        let (token_at, end) = scan(bytes, 0);
        let next = token::seen_as(language, token_at);
        Scanner {
            bytes,
            end,
            next,
            language,
        }
    }

    /// The next token is this word.
    pub fn at_word(&self, word: &[u8]) -> bool
        ensures { result ≡ is_next (is_word word.now) self.now }
    {
        token::is_word(&self.next.token, word)
    }

    /// The next token is a name, and none of the language's own words.
    pub fn at_name(&self) -> bool
        ensures { result ≡ is_next is_named self.now }
    {
        token::is_named(&self.next.token)
    }

    /// Takes off the next token, after which there are more.
    pub fn skip(&mut self)
        requires { is_next is_last self.old ≡ false }
        ensures { skip self.old ≡ Ok (record { value = tt; rest = self.new }) }
    {
        let (token_at, end) = scan(self.bytes, self.end);
        self.next = token::seen_as(self.language, token_at);
        self.end = end;
    }

    // Takes off the next token, if it is the one that the grammar has here.
    fn take_if(&mut self, expected: bool) -> Result<(), ParseFault>
        requires { expected ≡ true → is_next is_last self.old ≡ false }
        ensures reads { (test : Token → Bool) → is_next test self.old ≡ expected → Reads (token test) self.old self.new result }
        ensures early { result ≢ Err ParseFault.OutOfMemory }
    {
        if !expected {
            return Err(self.refusal());
        }
        self.skip();
        Ok(())
    }

    /// This word.
    pub fn word(&mut self, word: &[u8]) -> Result<(), ParseFault>
        ensures reads { Reads (token (is_word word.now)) self.old self.new result }
        ensures early { result ≢ Err ParseFault.OutOfMemory }
    {
        self.take_if(self.at_word(word))
    }

    /// A `:`.
    pub fn colon(&mut self) -> Result<(), ParseFault>
        ensures { Reads (token is_colon) self.old self.new result }
    {
        let expected = matches!(self.next.token, Token::Colon);
        self.take_if(expected)
    }

    /// A `;`.
    pub fn semicolon(&mut self) -> Result<(), ParseFault>
        ensures reads { Reads (token is_semicolon) self.old self.new result }
        ensures early { result ≢ Err ParseFault.OutOfMemory }
    {
        let expected = matches!(self.next.token, Token::Semicolon);
        self.take_if(expected)
    }

    /// The word `use` is next.
    pub fn at_use(&self) -> bool
        ensures { result ≡ is_next is_use self.now }
    {
        matches!(self.next.token, Token::Use)
    }

    /// The word `use`.
    pub fn use_word(&mut self) -> Result<(), ParseFault>
        ensures { Reads (token is_use) self.old self.new result }
    {
        let expected = matches!(self.next.token, Token::Use);
        self.take_if(expected)
    }

    /// The word `as`.
    pub fn as_word(&mut self) -> Result<(), ParseFault>
        ensures { Reads (token is_as) self.old self.new result }
    {
        let expected = matches!(self.next.token, Token::As);
        self.take_if(expected)
    }

    /// A `->`.
    pub fn arrow(&mut self) -> Result<(), ParseFault>
        ensures { Reads (token is_arrow) self.old self.new result }
    {
        let expected = matches!(self.next.token, Token::Arrow);
        self.take_if(expected)
    }

    /// The end of the text.
    pub fn end(&self) -> Result<(), ParseFault>
        ensures { Reads read_end self.now self.now result }
    {
        match self.next.token {
            Token::End => Ok(()),
            _ => Err(self.refusal()),
        }
    }

    /// A name, and its offset.
    pub fn name(&mut self) -> Result<(Name, usize), ParseFault>
        ensures reads { Reads name self.old self.new result }
        ensures free { IfOk result (λ n. has_text n.0 reserved ≡ false) }
        ensures early { result ≢ Err ParseFault.OutOfMemory }
    {
        let at = self.next.at;
        let Some(name) = token::name_of(&self.next.token) else {
            return Err(self.refusal());
        };
        self.skip();
        Ok((name, at))
    }

    /// The fault at the next token, if the grammar doesn't have it.
    pub fn refusal(&self) -> ParseFault
        ensures value { result ≡ refusal self.now }
        ensures early { result ≢ ParseFault.OutOfMemory }
    {
        token::refusal(&self.next)
    }

    /// This word isn't next: it would begin a statement too many.
    pub fn no_more(&self, word: &[u8]) -> Result<(), ParseFault>
        ensures { Reads (no_more word.now) self.now self.now result }
    {
        if self.at_word(word) {
            return Err(ParseFault::TooMany { at: self.next.at });
        }
        Ok(())
    }
}
