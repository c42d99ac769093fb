//! Different names in the order in which they were added, found without a scan.
ghost use Rattle.std.specs.Prelude.{◌≡◌, ◌<◌, ◌++◌, [], ◌∷◌, false, bytes_eq, length, position, IfOk, IfSome, OnErr, OnOk};
ghost use Rattle.sg_model.specs.Lists.{has_text};

use indexmap::IndexSet;
use sg_base::{Name, OutOfMemory, Seq};
use std::alloc::Global;
use std::marker::Model;

/// Different names in order. A clause sees their list.
#[derive(Drop)]
pub struct NameSet {
    names: IndexSet<Name>,
}

impl Model for NameSet {
    ghost use Rattle.std.specs.Prelude.{ℕ, List};

    ghost Value = { List (List ℕ) };

    ghost view = { λ s. s.names.keys };
}

impl NameSet {
    /// The empty set. It takes no memory.
    pub fn new(alloc: Global) -> NameSet
        ensures { result ≡ [] }
    {
        NameSet {
            names: IndexSet::new(alloc),
        }
    }

    /// Whether the name is there.
    pub fn has(&self, name: &Name) -> bool
        ensures { result ≡ has_text name.now self.now }
    {
        self.names.contains(name)
    }

    /// The index of the name, counted from 0, or `None` if it is not there.
    pub fn index(&self, name: &Name) -> Option<usize>
        ensures index { result ≡ position (bytes_eq name.now) self.now }
        ensures within { IfSome result (λ i. i < length self.now) }
    {
        self.names.get_index_of(name)
    }

    /// Adds a name that isn't there, at the end. If memory runs out, the names are as before.
    pub fn add(&mut self, name: Name) -> Result<(), OutOfMemory>
        requires { has_text name self.old ≡ false }
        ensures ok { OnOk result (self.new ≡ self.old ++ name ∷ []) }
        ensures err { OnErr result (self.new ≡ self.old) }
    {
        self.names.insert(name)?;
        Ok(())
    }

    /// The names in order, as a list of their own.
    pub fn to_list(&self, alloc: Global) -> Result<Seq<Name>, OutOfMemory>
        ensures { IfOk result (λ names. names ≡ self.now) }
    {
        Ok(Seq::from_vec(self.names.as_slice().to_vec(alloc)?))
    }

    /// The names in order.
    pub fn as_slice(&self) -> &[Name]
        ensures { result.now ≡ self.now }
    {
        self.names.as_slice()
    }
}
