//! The first text of each digest.
ghost use Rattle.std.specs.Cmp.Rules.{hashing};
ghost use Rattle.std.specs.Prelude.{◌≡◌, ◌++◌, ℕ, List, None, [], ◌∷◌, IfOk, OnOk};
ghost use Rattle.std.specs.Option.{option_copied, option_or};
ghost use Rattle.std.proofs.Common.{rules};
ghost use Rattle.sg_protocol.specs.Texts.{real};
ghost use Rattle.sg_certify.specs.Collisions.{text_under, other_text, text_if};

use indexmap::IndexMap;
use sg_base::OutOfMemory;
use std::alloc::{AllocError, Global};
use std::hash::{Hash, Hasher};
use std::marker::Model;

// A digest, which is hashed in one piece. A clause sees its bytes.
#[derive(Clone, Copy, PartialEq, Eq)]
struct Under([u8; 32]);

impl Model for Under {
    ghost use Rattle.std.specs.Prelude.{ℕ, List};

    ghost Value = { List ℕ };

    ghost view = { λ d. d.0 };

    ghost inverse = { λ bytes. record { 0 = bytes } };
}

impl Hash for Under {
    ghost hash_input = { λ d. d ∷ [] };

    ghost respects_eq = { Prim.search (hashing, rules) };

    fn hash<H: Hasher>(&self, state: &mut H) {
        state.write(&self.0);
    }
}

/// The first text of each digest. A clause sees the digests in order, each with its text.
#[derive(Drop)]
pub struct Firsts<'t> {
    table: IndexMap<Under, &'t [u8]>,
}

impl<'t> Model for Firsts<'t> {
    ghost use Rattle.std.specs.Prelude.{ℕ, List, map};

    ghost Value = { List (List ℕ × List ℕ) };

    ghost view = { λ f. map (λ e. (e.0, e.1.now)) f.table.entries };
}

impl<'t> Firsts<'t> {
    /// No texts. It takes no memory.
    pub fn new(alloc: Global) -> Firsts<'t>
        ensures { result ≡ [] }
    {
        Firsts {
            table: IndexMap::new(alloc),
        }
    }

    /// Adds a text if it is the first of its digest, which is this. If another one is there, this is returned.
    pub fn add(
        &mut self,
        text: &'t [u8],
        digest: &[u8; 32],
    ) -> Result<Option<&'t [u8]>, OutOfMemory>
        requires { digest.now ≡ real text.now }
        ensures other { IfOk result (λ o. option_copied o ≡ other_text (text_under (real text.now) self.old) text.now) }
        ensures kept { OnOk result ((h : List ℕ) → text_under h self.new ≡ option_or (text_under h self.old) (text_if h text.now)) }
    {
        let under = Under(*digest);
        if let Some(first) = self.find(&under) {
            return Ok(if first == text { None } else { Some(first) });
        }
        self.put(under, text)?;
        Ok(None)
    }

    // The text under a digest.
    fn find(&self, digest: &Under) -> Option<&'t [u8]>
        ensures { option_copied result ≡ text_under digest.now self.now }
    {
        match self.table.get(digest) {
            Some(text) => Some(*text),
            None => None,
        }
    }

    // Puts a text under a digest that has none.
    fn put(&mut self, digest: Under, text: &'t [u8]) -> Result<(), OutOfMemory>
        requires { text_under digest self.old ≡ None }
        ensures { OnOk result (self.new ≡ self.old ++ (digest, text.now) ∷ []) }
    {
        match self.table.insert(digest, text) {
            Ok(_) => Ok(()),
            Err(_) => Err(AllocError),
        }
    }
}
