//! The sessions that are declared, found by their names, and by what makes two of them alike, without a scan.
ghost use Rattle.std.specs.Prelude.{◌≡◌, ◌<◌, ◌++◌, [], ◌∷◌, false, length, map, bytes_eq, position, slice_get, IfSome, OnOk, Some};
ghost use Rattle.std.specs.List.{list_any};
ghost use Rattle.sg_model.specs.Limits.{most_declared};
ghost use Rattle.sg_model.specs.Lists.{has_text};
ghost use Rattle.sg_sched.specs.Format.Faults.{is_like};
ghost use Rattle.sg_sched_text.specs.Sessions.{session_of};

use indexmap::IndexSet;
use sg_base::{Name, OutOfMemory};
use sg_parse::NameSet;
use std::alloc::Global;
use std::marker::Model;

/// What no two sessions have in common: the index of the graph, the nonce, the principals and the version.
#[derive(PartialEq, Eq, Hash, Drop)]
pub(crate) struct Like {
    pub graph: usize,
    pub nonce: u64,
    pub names: Vec<Name>,
    pub version: u8,
}

/// Sessions of different names in the order of their lines. A clause sees their list.
#[derive(Drop)]
pub(crate) struct Sessions {
    names: NameSet,
    likes: IndexSet<Like>,
}

impl Model for Sessions {
    ghost use Rattle.std.specs.Prelude.{◌≡◌, ◌≤◌, List, length};
    ghost use Rattle.sg_sched.specs.Format.Items.{Session};
    ghost use Rattle.sg_sched_text.specs.Sessions.{sessions_of};
    ghost use Rattle.sg_model.specs.Limits.{most_declared};

    ghost Value = { List Session };

    ghost view = { λ s. sessions_of s.names s.likes.keys };

    ghost invariant = { λ s. (length s.names ≡ length s.likes.keys) × (length s.names ≤ most_declared) };
}

impl Sessions {
    /// No sessions. It takes no memory.
    pub fn new(alloc: Global) -> Sessions
        ensures { result ≡ [] }
    {
        Sessions {
            names: NameSet::new(alloc),
            likes: IndexSet::new(alloc),
        }
    }

    /// The number of sessions.
    pub fn len(&self) -> usize
        ensures { result ≡ length self.now }
    {
        self.names.as_slice().len()
    }

    /// The index of the session of this name, if it is declared.
    pub fn index(&self, name: &Name) -> Option<usize>
        ensures index { result ≡ position (bytes_eq name.now) (map (λ s. s.name) self.now) }
        ensures within { IfSome result (λ i. i < length self.now) }
        ensures few { IfSome result (λ i. i < most_declared) }
    {
        self.names.index(name)
    }

    /// Whether a session of this name is declared.
    pub fn has(&self, name: &Name) -> bool
        ensures { result ≡ has_text name.now (map (λ s. s.name) self.now) }
    {
        self.names.has(name)
    }

    /// Whether a session like this one is declared.
    pub fn has_like(&self, like: &Like) -> bool
        ensures { result ≡ list_any (is_like like.now.graph like.now.nonce like.now.names.items like.now.version) self.now }
    {
        self.likes.contains(like)
    }

    /// What the session at an index has, and its name.
    pub fn at(&self, index: usize) -> (Name, &Like)
        requires { index < length self.now }
        ensures { slice_get self.now index ≡ Some (session_of result.0 result.1.now) }
    {
        match self.likes.get_index(index) {
            Some(like) => (self.names.as_slice()[index], like),
            None => unreachable!(),
        }
    }

    /// Adds a session of a new name that is like no other, if there are fewer than 100,000.
    pub fn add(&mut self, name: Name, like: Like) -> Result<(), OutOfMemory>
        requires new_name { has_text name (map (λ s. s.name) self.old) ≡ false }
        requires room { length self.old < most_declared }
        requires other { list_any (is_like like.graph like.nonce like.names.items like.version) self.old ≡ false }
        ensures { OnOk result (self.new ≡ self.old ++ session_of name like ∷ []) }
    {
        let count = self.likes.len();
        if let Err(fault) = self.likes.insert(like) {
            return Err(fault.into());
        }
        if let Err(fault) = self.names.add(name) {
            self.likes.truncate(count);
            return Err(fault);
        }
        Ok(())
    }
}
