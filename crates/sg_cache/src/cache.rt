//! The pairs of session and role that were joined.
ghost use Rattle.std.specs.Prelude.{◌≡◌, ◌≢◌, ◌<◌, ◌≤◌, ◌↔◌, ◌⊎◌, ◌++◌, [], ◌∷◌, length, AllPairs, Contains, IfOk, IsOk, IsTrue, OnErr, OnOk};
ghost use Rattle.indexmap.specs.IndexSet.{spare};
ghost use Rattle.sg_model.specs.Limits.{most_joins};

use crate::Ticket;
use indexmap::IndexSet;
use sg_base::{OutOfMemory, Role, Sid};
use std::alloc::Global;
use std::marker::Model;
use thiserror::Error;

/// The greatest number of pairs.
const MOST_JOINS: usize = 65_536;

/// The pairs of session and role that a principal has joined, in the order of joining, all different, at most 65,536. A clause sees
/// them as a list, with how many further pairs need no memory.
#[derive(Drop)]
pub struct Cache {
    joins: IndexSet<(Sid, Role)>,
}

impl Model for Cache {
    ghost use Rattle.std.specs.Prelude.{◌≤◌, length};
    ghost use Rattle.indexmap.specs.IndexSet.{spare};
    ghost use Rattle.sg_cache.specs.Joins.{Joins};
    ghost use Rattle.sg_model.specs.Limits.{most_joins};

    ghost Value = { Joins };

    ghost view = { λ c. record { pairs = c.joins.keys; spare = spare c.joins } };

    ghost invariant = { λ c. length c.joins.keys ≤ most_joins };
}

/// Why a pair can't be claimed, the first cause that holds.
#[derive(Debug, Clone, Copy, PartialEq, Eq, Error)]
pub enum ClaimFault {
    /// The pair is there.
    #[error("joined already")]
    Joined,
    /// 65,536 pairs are there.
    #[error("the cache is full")]
    CacheFull,
    /// Out of memory.
    #[error("out of memory")]
    OutOfMemory,
}

impl Cache {
    /// A cache without pairs. It takes no memory.
    pub fn new(alloc: Global) -> Cache
        ensures { result.pairs ≡ [] }
    {
        Cache {
            joins: IndexSet::new(alloc),
        }
    }

    /// Makes room for one more pair.
    pub fn reserve(&mut self) -> Result<(), OutOfMemory>
        requires { length self.old.pairs < most_joins }
        ensures room { OnOk result (0 < self.new.spare) }
        ensures same { self.new.pairs ≡ self.old.pairs }
    {
        self.joins.reserve(1)
    }

    /// Puts a pair at the end, and gives the ticket for it. If room was made it takes no memory. Refused if the pair is
    /// there, if 65,536 pairs are there, or if memory runs out. After a refusal the pairs are as before, and so is the room,
    /// except if memory ran out.
    pub fn claim(&mut self, sid: Sid, role: Role) -> Result<Ticket, ClaimFault>
        ensures joined { (result ≡ Err ClaimFault.Joined) ↔ Contains self.old.pairs (sid, role) }
        ensures full { (result ≡ Err ClaimFault.CacheFull) ↔ ((¬ Contains self.old.pairs (sid, role)) × (length self.old.pairs ≡ most_joins)) }
        ensures memory { 0 < self.old.spare → result ≢ Err ClaimFault.OutOfMemory }
        ensures ticket { IfOk result (λ t. t ≡ (sid, role)) }
        ensures added { OnOk result (self.new.pairs ≡ self.old.pairs ++ (sid, role) ∷ []) }
        ensures refused { (result ≡ Err ClaimFault.Joined) ⊎ (result ≡ Err ClaimFault.CacheFull) → self.new ≡ self.old }
        ensures err { OnErr result (self.new.pairs ≡ self.old.pairs) }
    {
        if self.has(&sid, role) {
            return Err(ClaimFault::Joined);
        }
        if self.joins.len() == MOST_JOINS {
            return Err(ClaimFault::CacheFull);
        }
        match put_last(&mut self.joins, (sid, role)) {
            Ok(()) => Ok(Ticket::new(sid, role)),
            Err(_) => Err(ClaimFault::OutOfMemory),
        }
    }

    /// Whether the pair is there. It takes no memory.
    pub fn has(&self, sid: &Sid, role: Role) -> bool
        ensures { IsTrue result ↔ Contains self.now.pairs (sid.now, role) }
    {
        self.joins.contains(&(*sid, role))
    }

    /// The number of pairs, at most 65,536. It takes no memory.
    pub fn len(&self) -> u32
        ensures count { result ≡ length self.now.pairs }
        ensures most { result ≤ most_joins }
        ensures different { AllPairs (λ a b. a ≢ b) self.now.pairs }
    {
        self.joins.len() as u32
    }
}

// Adds a pair that isn't there, as the last one.
fn put_last(joins: &mut IndexSet<(Sid, Role)>, join: (Sid, Role)) -> Result<(), OutOfMemory>
    requires { ¬ Contains joins.old.keys join }
    ensures ok { OnOk result (joins.new.keys ≡ joins.old.keys ++ join ∷ []) }
    ensures err { OnErr result (joins.new.keys ≡ joins.old.keys) }
    ensures room { 0 < spare joins.old → IsOk result }
{
    joins.insert(join)?;
    Ok(())
}
