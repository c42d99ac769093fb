//! The parts and the uses that are read so far, with their names.
ghost use Rattle.std.specs.Prelude.{◌≡◌, ◌<◌, ◌++◌, [], ◌∷◌, false, length, map, IfSome, IsSome, IsTrue, ◌↔◌, OnOk};
ghost use Rattle.sg_model.specs.Lists.{has_text};
ghost use Rattle.sg_model.specs.Names.{Name};
ghost use Rattle.sg_parse.specs.Reading.{index_of};

use crate::name_set::NameSet;
use crate::part::{Part, Use};
use sg_base::{Name, OutOfMemory, Seq};
use std::alloc::Global;
use std::marker::Model;

// What has a name.
pub trait Named {
    // The name.
    ghost named: { Self → Name };

    // The name.
    fn name(&self) -> Name
        ensures { result ≡ named self.now };
}

impl Named for Part {
    ghost named = { λ p. p.graph.name };

    fn name(&self) -> Name {
        self.graph.name()
    }
}

impl Named for Use {
    ghost named = { λ u. u.name };

    fn name(&self) -> Name {
        self.name
    }
}

// Parts whose names differ.
pub type PartList = NamedList<Part>;

// Uses whose names differ.
pub type UseList = NamedList<Use>;

// Parts or uses whose names differ. A clause sees them in order.
#[derive(Drop)]
pub struct NamedList<T: Named> {
    items: Seq<T>,
    names: NameSet,
}

impl<T: Named> Model for NamedList<T> {
    ghost use Rattle.std.specs.Prelude.{◌≡◌, List, map};

    ghost Value = { List T };

    ghost view = { λ l. l.items };

    ghost invariant = { λ l. l.names ≡ map T.named l.items };
}

impl<T: Named + Drop> NamedList<T> {
    // The empty list. It takes no memory.
    pub fn new(alloc: Global) -> NamedList<T>
        ensures { result ≡ [] }
    {
        NamedList {
            items: Seq::new(alloc),
            names: NameSet::new(alloc),
        }
    }

    // Whether one has the name.
    pub fn has(&self, name: &Name) -> bool
        ensures { result ≡ has_text name.now (map T.named self.now) }
    {
        self.names.has(name)
    }

    // The number of the one with the name.
    pub fn index(&self, name: &Name) -> Option<usize>
        ensures found { IsSome result ↔ IsTrue (has_text name.now (map T.named self.now)) }
        ensures index { IfSome result (λ k. index_of name.now (map T.named self.now) ≡ k) }
        ensures there { IfSome result (λ k. k < length self.now) }
    {
        self.names.index(name)
    }

    // Adds one whose name none has.
    pub fn push(&mut self, item: T) -> Result<(), OutOfMemory>
        requires { has_text (T.named item) (map T.named self.old) ≡ false }
        ensures { OnOk result (self.new ≡ self.old ++ item ∷ []) }
    {
        let name = item.name();
        let count = self.items.len();
        self.items.push(item)?;
        if let Err(fault) = self.names.add(name) {
            self.items.truncate(count);
            return Err(fault);
        }
        Ok(())
    }

    // They alone.
    pub fn into_list(self) -> Seq<T>
        ensures { result ≡ self }
    {
        let NamedList { items, names: _ } = self;
        items
    }
}
