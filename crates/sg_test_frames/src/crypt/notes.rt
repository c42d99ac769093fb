//! Notes of texts.
use sg_base::{ByteOut, Name, OutOfMemory};
use sg_crypt::{Counts, Hashed, Note, Notes, Pair};
use sg_table::{Target, parts};
use std::alloc::Global;

/// Notes, and the counts that were marked.
#[derive(Drop)]
pub struct Noted {
    notes: Notes,
    marked: Counts,
}

impl Noted {
    /// No notes.
    pub fn new(alloc: Global) -> Noted {
        let notes = Notes::new(alloc);
        let marked = notes.counts();
        Noted { notes, marked }
    }
}

impl Target for Noted {
    fn call(&mut self, alloc: Global, out: &mut ByteOut, word: &[u8]) -> Option<()> {
        match word {
            b"count" => return put_counts(out, self.notes.counts()).ok(),
            b"mark" => self.marked = self.notes.counts(),
            b"keep" => self.notes.keep(self.marked),
            b"clear" => self.notes.clear(),
            note => return take(alloc, &mut self.notes, note),
        }
        Some(())
    }

    fn end(&self, out: &mut ByteOut) -> Result<(), OutOfMemory> {
        put_notes(out, "made", self.notes.made())?;
        put_notes(out, "found", self.notes.found())?;
        for text in self.notes.hashed() {
            out.bytes(b"hashed,")?;
            out.bytes(text.as_slice())?;
            out.u8(b';')?;
        }
        Ok(())
    }
}

/// Takes a note: `made` or `found`, two principals and a text, or `hashed` and a text.
pub fn take(alloc: Global, notes: &mut Notes, word: &[u8]) -> Option<()> {
    match parts(alloc, word)?.as_slice() {
        [kind, one, two, text] => add(notes, kind, note(alloc, one, two, text)?),
        ["hashed", text] => notes.note_hashed(hashed(alloc, text.as_bytes())?).ok(),
        _ => None,
    }
}

fn add(notes: &mut Notes, kind: &str, note: Note) -> Option<()> {
    match kind {
        "made" => notes.note_made(note).ok(),
        "found" => notes.note_found(note).ok(),
        _ => None,
    }
}

fn note(alloc: Global, one: &str, two: &str, text: &str) -> Option<Note> {
    let (one, two) = (Name::new(one.as_bytes())?, Name::new(two.as_bytes())?);
    let text = text.as_bytes().to_vec(alloc).ok()?;
    Some(Note::new(Pair::new(alloc, one, two).ok()?, text))
}

/// A text that is hashed.
pub fn hashed(alloc: Global, text: &[u8]) -> Option<Hashed> {
    Some(Hashed::new(text.to_vec(alloc).ok()?))
}

fn put_counts(out: &mut ByteOut, counts: Counts) -> Result<(), OutOfMemory> {
    let Counts {
        made,
        found,
        hashed,
    } = counts;
    write!(out, "{made},{found},{hashed};")
}

fn put_notes(out: &mut ByteOut, kind: &str, notes: &[Note]) -> Result<(), OutOfMemory> {
    for note in notes {
        write!(out, "{kind},")?;
        put_note(out, note)?;
    }
    Ok(())
}

/// Puts a note: its principals and its text.
pub fn put_note(out: &mut ByteOut, note: &Note) -> Result<(), OutOfMemory> {
    let (one, two) = (note.one(), note.two());
    write!(out, "{one},{two},")?;
    out.bytes(note.text())?;
    out.u8(b';')
}
