//! The keys of pairs of principals, found without a scan.
ghost use Rattle.std.specs.Prelude.{◌≡◌, ◌++◌, [], ◌∷◌, map, find, option_map, AllPairs, All, IfOk, OnOk, OnErr};
ghost use Rattle.std.specs.Option.{option_copied};
ghost use Rattle.sg_protocol.specs.Crafted.{pair_key};

use indexmap::IndexMap;
use sg_base::{Name, OutOfMemory};
use sg_sched::PairKey;
use std::alloc::Global;
use std::marker::Model;

/// The keys of pairs of principals, in order. A clause sees their list. It has no `Debug`, which would print the keys.
#[derive(Drop)]
pub struct PairKeys {
    table: IndexMap<Pair, [u8; 32]>,
}

// Two principals in the order of their line.
#[derive(Clone, Copy, PartialEq, Eq, Hash)]
struct Pair {
    one: Name,
    two: Name,
}

impl Model for PairKeys {
    ghost use Rattle.std.specs.Prelude.{List, AllPairs};
    ghost use Rattle.sg_protocol.specs.Schedule.{PairKey};

    ghost Value = { List PairKey };

    ghost use Rattle.sg_craft.specs.Model.{keys_kept};
    ghost use Rattle.sg_craft.specs.Invariant.{AreApart};

    ghost view = { keys_kept };

    ghost invariant = { λ k. AllPairs AreApart (keys_kept k) };
}

impl PairKeys {
    ghost use Rattle.sg_craft.specs.Model.{is_in_order};
    ghost use Rattle.sg_craft.specs.Invariant.{AreApart};

    /// These keys, of different pairs of principals, whichever stands first.
    pub fn new(alloc: Global, keys: &[PairKey]) -> Result<PairKeys, OutOfMemory>
        requires { AllPairs AreApart keys.now }
        ensures { IfOk result (λ k. k ≡ keys.now) }
    {
        let mut kept = PairKeys {
            table: IndexMap::new(alloc),
        };
        for key in keys {
            kept.add(key)?;
        }
        Ok(kept)
    }

    // Adds the key of a pair that has none.
    fn add(&mut self, key: &PairKey) -> Result<(), OutOfMemory>
        requires { All (λ k. AreApart k key.now) self.old }
        ensures { OnOk result (self.new ≡ self.old ++ key.now ∷ []) }
    {
        put_last(&mut self.table, key)
    }

    /// The key of two principals, whichever stands first, or no bytes if they have none. It takes no memory.
    pub fn find(&self, one: &Name, two: &Name) -> &[u8]
        ensures { result.now ≡ pair_key self.now one.now two.now }
    {
        match self.of(one, two) {
            Some(key) => key,
            None => match self.of(two, one) {
                Some(key) => key,
                None => b"",
            },
        }
    }

    // The key of two principals in this order.
    fn of(&self, one: &Name, two: &Name) -> Option<&[u8; 32]>
        ensures key { option_copied result ≡ option_map (λ k. k.key) (find (is_in_order one.now two.now) self.now) }
        ensures apart { AllPairs AreApart self.now }
    {
        self.table.get(&Pair {
            one: *one,
            two: *two,
        })
    }
}

ghost use Rattle.sg_craft.specs.Model.{key_of_entry};
ghost use Rattle.sg_craft.specs.Invariant.{AreApart};

// Adds the key of a pair that has none as the last one.
fn put_last(table: &mut IndexMap<Pair, [u8; 32]>, key: &PairKey) -> Result<(), OutOfMemory>
    requires { All (λ k. AreApart k key.now) (map key_of_entry table.old.entries) }
    ensures ok { OnOk result (map key_of_entry table.new.entries ≡ map key_of_entry table.old.entries ++ key.now ∷ []) }
    ensures err { OnErr result (table.new.entries ≡ table.old.entries) }
{
    let pair = Pair {
        one: key.one,
        two: key.two,
    };
    table.insert(pair, key.key)?;
    Ok(())
}
