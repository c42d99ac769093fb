//! Two principals that share a key.
ghost use Rattle.std.specs.Prelude.{◌≡◌, IfOk};
ghost use Rattle.sg_protocol.specs.Notes.{text_before};
ghost use Rattle.sg_crypt.specs.Model.{pair_of};

use sg_base::{Name, OutOfMemory};
use std::alloc::Global;
use std::marker::Model;
use std::rc::Rc;

/// Two principals on the heap, the lesser name first by its bytes, which their notes share. A clause sees the two names.
#[derive(Drop)]
pub struct Pair {
    names: Rc<Names>,
}

#[derive(Clone, Copy)]
struct Names {
    one: Name,
    two: Name,
}

impl Model for Pair {
    ghost use Rattle.std.specs.Prelude.{ℕ, List};

    ghost Value = { List ℕ × List ℕ };

    ghost view = { λ p. (p.names.value.one, p.names.value.two) };
}

impl Pair {
    /// The two principals, in either order.
    pub fn new(alloc: Global, a: Name, b: Name) -> Result<Pair, OutOfMemory>
        ensures { IfOk result (λ p. p ≡ pair_of a b) }
    {
        Ok(Pair {
            names: Rc::new(alloc, pair_of(a, b))?,
        })
    }

    /// The same pair, held once more.
    pub fn share(&self) -> Result<Pair, OutOfMemory>
        ensures { IfOk result (λ p. p ≡ self.now) }
    {
        Ok(Pair {
            names: self.names.clone()?,
        })
    }

    /// The lesser name by its bytes. It takes no memory.
    pub fn one(&self) -> &Name
        ensures { result.now ≡ self.now.0 }
    {
        &self.names.as_ref().one
    }

    /// The greater name by its bytes. It takes no memory.
    pub fn two(&self) -> &Name
        ensures { result.now ≡ self.now.1 }
    {
        &self.names.as_ref().two
    }
}

fn pair_of(a: Name, b: Name) -> Names
    ensures { (result.one, result.two) ≡ pair_of a b }
{
    if before(b.as_bytes(), a.as_bytes()) {
        Names { one: b, two: a }
    } else {
        Names { one: a, two: b }
    }
}

// The bytes of `a` stand before those of `b`.
fn before(a: &[u8], b: &[u8]) -> bool
    ensures { result ≡ text_before a.now b.now }
{
    a < b
}
