//! What sessions are called.
ghost use Rattle.std.specs.Prelude.{◌≡◌, ℕ, ◌<◌, ◌++◌, ◌∷◌, [], false, true, length, slice_get, IfOk, MatchOption, OnErr, OnOk};
ghost use Rattle.std.specs.Map.{keys_of};
ghost use Rattle.sg_model.specs.Lists.{has_text};
ghost use Rattle.sg_model.specs.Names.{is_letter};
ghost use Rattle.sg_text.specs.Sessions.{KnownSessions, all_sids, naming, numbered, session_name, with_declared, with_event};

use indexmap::IndexMap;
use sg_base::{ByteOut, Name, OutOfMemory, Sid};
use std::alloc::Global;
use std::marker::Model;

/// The names of sessions: the first declared name of each sid, and for each sid that isn't declared a letter and its number in the
/// order of first events. Each name is found by a hash table.
#[derive(Drop)]
pub struct SessionNames {
    letter: u8,
    declared: usize,
    names: IndexMap<Sid, Name>,
}

impl Model for SessionNames {
    ghost use Rattle.std.specs.Prelude.{◌≤◌, ◌≡◌, true, length};
    ghost use Rattle.sg_model.specs.Names.{is_letter};
    ghost use Rattle.sg_text.specs.Sessions.{Naming};

    ghost Value = { Naming };

    ghost view = { λ n. record { letter = n.letter; declared = n.declared; names = n.names.entries } };

    ghost invariant = { λ n. (is_letter n.letter ≡ true) × (n.declared ≤ length n.names.entries) };
}

impl SessionNames {
    /// The names of no sessions, with the letter for those that are not declared. It takes no memory.
    pub fn new(alloc: Global, letter: u8) -> SessionNames
        requires { is_letter letter ≡ true }
        ensures { result ≡ naming letter (record { declared = []; events = [] }) }
    {
        SessionNames {
            letter,
            declared: 0,
            names: IndexMap::new(alloc),
        }
    }

    /// Declares a session, before any event. If memory runs out, the names are as before.
    pub fn declare(&mut self, name: Name, sid: Sid) -> Result<(), OutOfMemory>
        ensures ok { (letter : ℕ) (m : KnownSessions) → m.events ≡ [] → self.old ≡ naming letter m → OnOk result (self.new ≡ naming letter (with_declared m name sid)) }
        ensures err { OnErr result (self.new ≡ self.old) }
    {
        if has_sid(&self.names, &sid) {
            return Ok(());
        }
        put_last(&mut self.names, sid, name)?;
        self.declared = self.names.len();
        Ok(())
    }

    /// Meets an event of a session. If memory runs out, the names are as before.
    pub fn meet(&mut self, alloc: Global, sid: Sid) -> Result<(), OutOfMemory>
        ensures ok { (letter : ℕ) (m : KnownSessions) → self.old ≡ naming letter m → OnOk result (self.new ≡ naming letter (with_event m sid)) }
        ensures err { OnErr result (self.new ≡ self.old) }
    {
        if has_sid(&self.names, &sid) {
            return Ok(());
        }
        let number = self.names.len() - self.declared + 1;
        let name = numbered(alloc, self.letter, number as u64)?;
        put_last(&mut self.names, sid, name)?;
        Ok(())
    }

    /// The name of a session that is declared or has an event, or `None` for another one. It takes no memory.
    pub fn name_of(&self, sid: &Sid) -> Option<Name>
        ensures { (letter : ℕ) (m : KnownSessions) → self.now ≡ naming letter m → MatchOption result
            ((has_text sid.now (all_sids m) ≡ false) × (session_name letter m sid.now ≡ []))
            (λ n. (has_text sid.now (all_sids m) ≡ true) × (n ≡ session_name letter m sid.now)) }
    {
        self.names.get(sid).copied()
    }

    /// How many sessions there are. It takes no memory.
    pub fn len(&self) -> usize
        ensures { result ≡ length self.now.names }
    {
        self.names.len()
    }

    /// The sid of the session at an index, and its name: the declared ones in order, then the others. It takes no memory.
    pub fn at(&self, index: usize) -> Option<(Sid, Name)>
        ensures { result ≡ slice_get self.now.names index }
    {
        match self.names.get_index(index) {
            Some((sid, name)) => Some((*sid, *name)),
            None => None,
        }
    }
}

// The table has the sid.
fn has_sid(names: &IndexMap<Sid, Name>, sid: &Sid) -> bool
    ensures { result ≡ has_text sid.now (keys_of names.now.entries) }
{
    names.contains_key(sid)
}

// Adds a sid that isn't there, as the last one.
fn put_last(names: &mut IndexMap<Sid, Name>, sid: Sid, name: Name) -> Result<(), OutOfMemory>
    requires { has_text sid (keys_of names.old.entries) ≡ false }
    ensures ok { OnOk result (names.new.entries ≡ names.old.entries ++ (sid, name) ∷ []) }
    ensures err { OnErr result (names.new.entries ≡ names.old.entries) }
{
    names.insert(sid, name)?;
    Ok(())
}

// The name of a letter and a number.
fn numbered(alloc: Global, letter: u8, number: u64) -> Result<Name, OutOfMemory>
    requires { is_letter letter ≡ true }
    ensures { IfOk result (λ n. n ≡ numbered letter number) }
{
    let mut out = ByteOut::new(alloc);
    out.u8(letter)?;
    out.decimal(number)?;
    match Name::new(out.done().as_slice()) {
        Some(name) => Ok(name),
        None => unreachable!(),
    }
}
