//! Texts that were tagged, found without a scan.
ghost use Rattle.std.specs.Cmp.Rules.{hashing};
ghost use Rattle.std.specs.Prelude.{◌≡◌, ◌||◌, [], ◌∷◌, OnOk};
ghost use Rattle.std.specs.List.{list_any};
ghost use Rattle.sg_protocol.specs.Notes.{Note};
ghost use Rattle.sg_protocol.specs.Broken.{same_note};
ghost use Rattle.std.proofs.Common.{rules};
ghost use Rattle.sg_certify.specs.Model.{note_kept};

use indexmap::IndexSet;
use sg_base::{Name, OutOfMemory};
use sg_crypt::Note;
use std::alloc::{AllocError, Global};
use std::hash::{Hash, Hasher};
use std::marker::Model;

/// Notes of texts that were tagged.
#[derive(Drop)]
pub struct TaggedTexts<'n> {
    notes: IndexSet<TaggedText<'n>>,
}

// A text for two principals.
#[derive(Clone, Copy, PartialEq, Eq)]
struct TaggedText<'n> {
    one: &'n Name,
    two: &'n Name,
    text: &'n [u8],
}

// The text alone, in one piece: it names the session and the role that tagged it.
impl<'n> Hash for TaggedText<'n> {
    ghost hash_input = { λ s. s.text.now ∷ [] };

    ghost respects_eq = { Prim.search (hashing, rules) };

    fn hash<H: Hasher>(&self, state: &mut H) {
        state.write(self.text);
    }
}

impl<'n> Model for TaggedTexts<'n> {
    ghost use Rattle.std.specs.Prelude.{List};
    ghost use Rattle.sg_protocol.specs.Notes.{Note};

    ghost Value = { List Note };

    ghost use Rattle.sg_certify.specs.Model.{notes_kept};

    ghost view = { notes_kept };
}

impl<'n> TaggedTexts<'n> {
    /// No notes. It takes no memory.
    pub fn new(alloc: Global) -> TaggedTexts<'n>
        ensures { result ≡ [] }
    {
        TaggedTexts {
            notes: IndexSet::new(alloc),
        }
    }

    /// Whether the note is among these.
    pub fn has(&self, note: &Note) -> bool
        ensures { result ≡ list_any (same_note note.now) self.now }
    {
        self.notes.contains(&kept(note))
    }

    /// Adds a note.
    pub fn add(&mut self, note: &'n Note) -> Result<(), OutOfMemory>
        ensures { OnOk result ((n : Note) → list_any (same_note n) self.new ≡ list_any (same_note n) self.old || same_note n note.now) }
    {
        match self.notes.insert(kept(note)) {
            Ok(_) => Ok(()),
            Err(_) => Err(AllocError),
        }
    }
}

// The note as it is kept.
fn kept(note: &Note) -> TaggedText<'_>
    ensures { note_kept result ≡ note.now }
{
    TaggedText {
        one: note.one(),
        two: note.two(),
        text: note.text(),
    }
}
