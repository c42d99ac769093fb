//! Which note is forged first, and texts that repeat.
ghost use Rattle.std.specs.Prelude.{[], ◌∷◌};

use crate::crypt::notes::{hashed, put_note, take};
use sg_base::{ByteOut, Name, OutOfMemory};
use sg_certify::{Forged, Honest, first_collision, first_forged};
use sg_crypt::Notes;
use sg_table::{Calls, Target, answers, bytes, hold, name};
use std::alloc::Global;

struct Premises;

impl Calls for Premises {
    fn answer(&self, alloc: Global, call: &str, args: &[Vec<u8>]) -> Option<Vec<u8>> {
        let [one, two, steps @ ..] = args else {
            return None;
        };
        let mut noted = Steps {
            notes: Vec::new(alloc),
        };
        let _ = answers(alloc, &mut noted, steps)?;
        if call == "forged" {
            forged(alloc, name(one)?, name(two)?, &noted.notes)
        } else {
            collision(alloc, one, two, &noted.notes)
        }
    }
}

// The first forged note of what the steps noted, if these two principals are honest.
fn forged(alloc: Global, one: Name, two: Name, notes: &[Notes]) -> Option<Vec<u8>> {
    match first_forged(alloc, &Two { one, two }, notes).ok()? {
        Some(forged) => spelled(alloc, &forged).ok(),
        None => bytes(alloc, b"none"),
    }
}

// Whether two texts, or those that the steps hashed, collide.
fn collision(alloc: Global, one: &[u8], two: &[u8], notes: &[Notes]) -> Option<Vec<u8>> {
    let mut texts = Vec::new(alloc);
    texts.push(hashed(alloc, one)?).ok()?;
    texts.push(hashed(alloc, two)?).ok()?;
    match first_collision(alloc, &texts, notes).ok()? {
        Some(_) => bytes(alloc, b"some"),
        None => bytes(alloc, b"none"),
    }
}

// Two honest principals.
#[derive(Drop)]
struct Two {
    one: Name,
    two: Name,
}

impl Honest for Two {
    ghost names = { λ p. p.one ∷ p.two ∷ [] };

    fn is_honest(&self, name: &Name) -> bool {
        name.as_bytes() == self.one.as_bytes() || name.as_bytes() == self.two.as_bytes()
    }
}

// The notes of each step.
#[derive(Drop)]
struct Steps {
    notes: Vec<Notes>,
}

// A call is a note of a new step, or of the last one if it begins with `also,`.
impl Target for Steps {
    fn call(&mut self, alloc: Global, out: &mut ByteOut, word: &[u8]) -> Option<()> {
        let _ = out;
        if let Some(note) = word.strip_prefix(b"also,") {
            return take(alloc, self.notes.last_mut()?, note);
        }
        let mut notes = Notes::new(alloc);
        take(alloc, &mut notes, word)?;
        self.notes.push(notes).ok()
    }
}

// The step and the note.
fn spelled(alloc: Global, forged: &Forged<'_>) -> Result<Vec<u8>, OutOfMemory> {
    let mut out = ByteOut::new(alloc);
    let step = forged.step;
    write!(out, "{step},")?;
    put_note(&mut out, forged.note)?;
    Ok(out.done())
}

#[test]
fn forged_texts_and_collisions(rt: HostRuntime) -> Result<(), &'static str> {
    hold(rt.alloc(), &Premises, &[LINES])
}

const LINES: &str = "
# The first text that nobody tagged, of two honest principals: its step and its note.

forged 'a 'b 'made,a,b,one 'found,b,a,one 'found,a,c,two 'none
forged 'a 'b 'made,a,b,one 'found,b,a,one 'found,a,c,two 'found,b,a,two 'made,a,b,two 'found,a,b,three '4,a,b,two;

# A text that repeats collides with none.

collision 'one 'two 'hashed,one 'also,hashed,three 'none
";
