//! Names of roles, variables, nodes, labels, graphs, principals and sessions.
ghost use Rattle.std.specs.Cmp.Rules.{hashing};
ghost use Rattle.std.specs.List.{list_all};
ghost use Rattle.std.specs.Prelude.{◌≡◌, ◌↔◌, ◌≤◌, ◌++◌, ◌∷◌, [], ◌&&◌, nat_le, codes, length, drop, IfSome, IsSome, IsTrue};
ghost use Rattle.sg_model.specs.Lists.{has_text};
ghost use Rattle.sg_model.specs.Names.{is_letter, is_name_byte, is_name, reserved};
ghost use Rattle.std.proofs.Common.{rules};

use std::hash::{Hash, Hasher};
use std::marker::Model;
use std::{fmt, str};

/// An ASCII letter, and after it at most 31 ASCII letters, digits and underscores. A clause sees it as its bytes.
#[derive(Debug, Clone, Copy, PartialEq, Eq)]
pub struct Name {
    bytes: [u8; 32],
    count: u8,
}

impl Model for Name {
    ghost use Rattle.std.specs.Prelude.{ℕ, List};

    ghost Value = { List ℕ };

    ghost use Rattle.sg_base.specs.Fields.{bytes_of, fields_of, HoldsName};
    ghost use Rattle.sg_base.specs.FieldsBack.{fields_of-bytes_of};

    ghost view = { bytes_of };

    ghost invariant = { HoldsName };

    ghost inverse = { fields_of };

    ghost inverse_ok = { fields_of-bytes_of };
}

// Its block of bytes in one piece.
impl Hash for Name {
    ghost use Rattle.sg_base.specs.Fields.{fields_of};

    ghost hash_input = { λ n. (fields_of n).bytes ∷ [] };

    ghost respects_eq = { Prim.search (hashing, rules) };

    fn hash<H: Hasher>(&self, state: &mut H) {
        state.write(&self.bytes);
    }
}

impl fmt::Display for Name {
    ghost use Rattle.std.specs.Prelude.{Some};

    ghost output = { λ name. Some name };

    fn fmt<W: fmt::Write>(&self, f: &mut fmt::Formatter<W>) -> fmt::Result {
        f.write_str(self.as_str())
    }
}

impl Name {
    /// The name of these bytes, or `None` if they are no name. It takes no memory.
    pub fn new(bytes: &[u8]) -> Option<Name>
        ensures found { IsSome result ↔ IsTrue (is_name bytes.now) }
        ensures value { IfSome result (λ n. n ≡ bytes.now) }
    {
        if !spells_name(bytes) {
            return None;
        }
        let mut kept = [0u8; 32];
        put_prefix(&mut kept, bytes);
        Some(Name {
            bytes: kept,
            count: bytes.len() as u8,
        })
    }

    /// The bytes. It takes no memory.
    pub fn as_bytes(&self) -> &[u8]
        ensures bytes { result.now ≡ self.now }
        ensures name { IsTrue (is_name self.now) }
    {
        &self.bytes[..self.count as usize]
    }

    /// The bytes as a text: a name is ASCII. It takes no memory.
    pub fn as_str(&self) -> &str
        ensures { result.now ≡ self.now }
    {
        match str::from_utf8(self.as_bytes()) {
            Ok(text) => text,
            Err(_) => unreachable!(),
        }
    }

    /// Whether the name is a word that the graph text reserves.
    pub fn reserved(&self) -> bool
        ensures { result ≡ has_text self.now reserved }
    {
        let word = self.as_bytes();
        begins_statement(word) || stands_within(word)
    }
}

// The word begins a statement.
fn begins_statement(word: &[u8]) -> bool
    ensures { result ≡ has_text word.now (codes "graph" ∷ codes "role" ∷ codes "var" ∷ codes "node" ∷ codes "edge" ∷ []) }
{
    word == b"graph".as_slice()
        || word == b"role".as_slice()
        || word == b"var".as_slice()
        || word == b"node".as_slice()
        || word == b"edge".as_slice()
}

// The word stands within one.
fn stands_within(word: &[u8]) -> bool
    ensures { result ≡ has_text word.now (codes "int" ∷ codes "text" ∷ codes "by" ∷ codes "writes" ∷ codes "reads" ∷ []) }
{
    word == b"int".as_slice()
        || word == b"text".as_slice()
        || word == b"by".as_slice()
        || word == b"writes".as_slice()
        || word == b"reads".as_slice()
}

fn letter(byte: u8) -> bool
    ensures { result ≡ is_letter byte }
{
    matches!(byte, b'A'..=b'Z' | b'a'..=b'z')
}

fn name_byte(byte: u8) -> bool
    ensures { result ≡ is_name_byte byte }
{
    letter(byte) || matches!(byte, b'0'..=b'9' | b'_')
}

fn spells_name(bytes: &[u8]) -> bool
    ensures { result ≡ is_name bytes.now }
{
    match bytes.split_first() {
        None => false,
        Some((first, rest)) => letter(*first) && continues_name(rest),
    }
}

fn continues_name(rest: &[u8]) -> bool
    ensures { result ≡ list_all is_name_byte rest.now && nat_le (length rest.now) 31 }
{
    are_name_bytes(rest) && rest.len() <= 31
}

fn are_name_bytes(bytes: &[u8]) -> bool
    ensures { result ≡ list_all is_name_byte bytes.now }
{
    bytes.iter().all(|byte| name_byte(*byte))
}

fn put_prefix(block: &mut [u8; 32], prefix: &[u8])
    requires { length prefix.now ≤ 32 }
    ensures { block.new ≡ prefix.now ++ drop (length prefix.now) block.old }
{
    block[..prefix.len()].copy_from_slice(prefix);
}
