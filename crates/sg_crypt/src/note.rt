//! What a run's calls leave on record: texts that were tagged, texts whose tag was found right, and texts that were hashed.
ghost use Rattle.std.specs.Prelude.{◌≡◌, ◌++◌, ℕ, List, [], ◌∷◌, length, take, OnOk, OnErr};
ghost use Rattle.sg_protocol.specs.Notes.{note_of, no_notes};
ghost use Rattle.sg_crypt.specs.Model.{pair_of};

use crate::hashed::Hashed;
use crate::pair::Pair;
use sg_base::{Name, OutOfMemory, Seq};
use std::alloc::Global;
use std::marker::Model;

/// A text for two principals, the lesser name first by its bytes.
#[derive(Drop)]
pub struct Note {
    pair: Pair,
    text: Seq<u8>,
}

impl Model for Note {
    ghost use Rattle.sg_protocol.specs.Notes.{Note};

    ghost Value = { Note };

    ghost view = { λ n. record { one = n.pair.0; two = n.pair.1; text = n.text } };
}

impl Note {
    /// The note of a text for two principals. It takes no memory.
    pub fn new(pair: Pair, text: Vec<u8>) -> Note
        ensures value { result ≡ record { one = pair.0; two = pair.1; text = text.items } }
        ensures of { (a b : List ℕ) → pair ≡ pair_of a b → result ≡ note_of a b text.items }
    {
        Note {
            pair,
            text: Seq::from_vec(text),
        }
    }

    /// The lesser name by its bytes.
    pub fn one(&self) -> &Name
        ensures { result.now ≡ self.now.one }
    {
        self.pair.one()
    }

    /// The greater name by its bytes.
    pub fn two(&self) -> &Name
        ensures { result.now ≡ self.now.two }
    {
        self.pair.two()
    }

    /// The text.
    pub fn text(&self) -> &[u8]
        ensures { result.now ≡ self.now.text }
    {
        self.text.as_slice()
    }
}

/// How long each of the three lists is.
#[derive(Clone, Copy, PartialEq, Eq)]
pub struct Counts {
    /// Of the texts that were tagged.
    pub made: usize,
    /// Of those whose tag was found right.
    pub found: usize,
    /// Of those that were hashed.
    pub hashed: usize,
}

/// Three lists: the texts that were tagged, those whose tag was found right, and those that were hashed.
#[derive(Drop)]
pub struct Notes {
    made: Vec<Note>,
    found: Vec<Note>,
    hashed: Vec<Hashed>,
}

impl Model for Notes {
    ghost use Rattle.sg_protocol.specs.Notes.{Notes};

    ghost Value = { Notes };

    ghost view = { λ n. record { made = n.made.items; found = n.found.items; hashed = n.hashed.items } };
}

impl Notes {
    /// Three empty lists. It takes no memory.
    pub fn new(alloc: Global) -> Notes
        ensures { result ≡ no_notes }
    {
        Notes {
            made: Vec::new(alloc),
            found: Vec::new(alloc),
            hashed: Vec::new(alloc),
        }
    }

    /// Empties the three lists. It takes no memory.
    pub fn clear(&mut self)
        ensures { self.new ≡ no_notes }
    {
        self.made.truncate(0);
        self.found.truncate(0);
        self.hashed.truncate(0);
    }

    /// Appends a text that was tagged. If memory runs out, the lists stay as they were.
    pub fn note_made(&mut self, note: Note) -> Result<(), OutOfMemory>
        ensures ok { OnOk result (self.new ≡ record self.old { made = self.old.made ++ note ∷ [] }) }
        ensures err { OnErr result (self.new ≡ self.old) }
    {
        put(&mut self.made, note)
    }

    /// Appends a text whose tag was found right. If memory runs out, the lists stay as they were.
    pub fn note_found(&mut self, note: Note) -> Result<(), OutOfMemory>
        ensures ok { OnOk result (self.new ≡ record self.old { found = self.old.found ++ note ∷ [] }) }
        ensures err { OnErr result (self.new ≡ self.old) }
    {
        put(&mut self.found, note)
    }

    /// Appends a text that was hashed. If memory runs out, the lists stay as they were.
    pub fn note_hashed(&mut self, text: Hashed) -> Result<(), OutOfMemory>
        ensures ok { OnOk result (self.new ≡ record self.old { hashed = self.old.hashed ++ text ∷ [] }) }
        ensures err { OnErr result (self.new ≡ self.old) }
    {
        put(&mut self.hashed, text)
    }

    /// The texts that were tagged, in order.
    pub fn made(&self) -> &[Note]
        ensures { result.now ≡ self.now.made }
    {
        self.made.as_slice()
    }

    /// The texts whose tag was found right, in order.
    pub fn found(&self) -> &[Note]
        ensures { result.now ≡ self.now.found }
    {
        self.found.as_slice()
    }

    /// The texts that were hashed, in order.
    pub fn hashed(&self) -> &[Hashed]
        ensures { result.now ≡ self.now.hashed }
    {
        self.hashed.as_slice()
    }

    /// How long the lists are.
    pub fn counts(&self) -> Counts
        ensures { result ≡ record { made = length self.now.made; found = length self.now.found; hashed = length self.now.hashed } }
    {
        Counts {
            made: self.made.len(),
            found: self.found.len(),
            hashed: self.hashed.len(),
        }
    }

    /// Cuts each list to at most the length that `counts` has for it: what was noted after these lengths were read is gone. It takes no
    /// memory.
    pub fn keep(&mut self, counts: Counts)
        ensures { self.new ≡ record {
          made = take counts.made self.old.made;
          found = take counts.found self.old.found;
          hashed = take counts.hashed self.old.hashed;
        } }
    {
        self.made.truncate(counts.made);
        self.found.truncate(counts.found);
        self.hashed.truncate(counts.hashed);
    }
}

// Appends an element. Each of the first four takes room for itself alone: a run keeps the lists of each of its steps, and most have one or two.
fn put<T: Drop>(list: &mut Vec<T>, value: T) -> Result<(), OutOfMemory>
    ensures ok { OnOk result (list.new.items ≡ list.old.items ++ value ∷ []) }
    ensures err { OnErr result (list.new.items ≡ list.old.items) }
{
    if list.len() < 4 {
        list.reserve_exact(1)?;
    }
    list.push(value)?;
    Ok(())
}
