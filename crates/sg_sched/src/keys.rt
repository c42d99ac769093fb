//! The keys of pairs of principals, found without a scan.
ghost use Rattle.std.specs.Prelude.{◌≡◌, ◌++◌, [], ◌∷◌, false, OnOk};
ghost use Rattle.std.specs.List.{list_any};
ghost use Rattle.sg_sched.specs.Keys.{is_of, has_key};
ghost use Rattle.sg_sched.specs.Format.Items.{is_key_of};

use crate::key::PairKey;
use indexmap::IndexSet;
use sg_base::{Name, OutOfMemory, Seq};
use std::alloc::Global;
use std::marker::Model;

/// Keys in the order of their lines. A clause sees their list.
#[derive(Drop)]
pub struct Keys {
    list: Seq<PairKey>,
    pairs: IndexSet<Both>,
}

/// Two principals in the order of their line.
#[derive(Clone, Copy, PartialEq, Eq, Hash)]
struct Both {
    one: Name,
    two: Name,
}

impl Model for Keys {
    ghost use Rattle.std.specs.Prelude.{◌≡◌, List, map};
    ghost use Rattle.sg_protocol.specs.Schedule.{PairKey};

    ghost Value = { List PairKey };

    ghost view = { λ k. k.list };

    ghost invariant = { λ k. k.pairs.keys ≡ map (λ e. record { one = e.one; two = e.two }) k.list };
}

impl Keys {
    /// No keys. It takes no memory.
    pub fn new(alloc: Global) -> Keys
        ensures { result ≡ [] }
    {
        Keys {
            list: Seq::new(alloc),
            pairs: IndexSet::new(alloc),
        }
    }

    /// Whether two principals have a key, whichever stands first.
    pub fn has(&self, one: &Name, two: &Name) -> bool
        ensures { result ≡ has_key one.now two.now self.now }
    {
        self.has_in_order(one, two) || self.has_in_order(two, one)
    }

    fn has_in_order(&self, one: &Name, two: &Name) -> bool
        ensures { result ≡ list_any (is_of one.now two.now) self.now }
    {
        let both = Both {
            one: *one,
            two: *two,
        };
        self.pairs.contains(&both)
    }

    /// Whether the pair of principals has a key.
    #[tactic(auto, using(crate::proofs::KeyAmong::key_among))]
    pub fn has_pair(&self, one: &Name, two: &Name) -> bool
        ensures { result ≡ list_any (is_key_of one.now two.now) self.now }
    {
        self.has(one, two)
    }

    /// Adds the key of two principals that have none.
    pub fn add(&mut self, key: PairKey) -> Result<(), OutOfMemory>
        requires { has_key key.one key.two self.old ≡ false }
        ensures { OnOk result (self.new ≡ self.old ++ key ∷ []) }
    {
        let both = Both {
            one: key.one,
            two: key.two,
        };
        let count = self.list.len();
        self.list.push(key)?;
        if let Err(fault) = self.pairs.insert(both) {
            self.list.truncate(count);
            return Err(fault.into());
        }
        Ok(())
    }

    /// The keys in order. It takes no memory.
    pub fn into_list(self) -> Seq<PairKey>
        ensures { result ≡ self }
    {
        let Keys { list, pairs: _ } = self;
        list
    }
}
