//! The first tag that nobody made.
ghost use Rattle.std.specs.Prelude.{◌≡◌, ◌++◌, [], find, option_map, IfOk, OnOk};
ghost use Rattle.std.specs.List.{list_any};
ghost use Rattle.std.specs.Option.{option_copied};
ghost use Rattle.sg_protocol.specs.Broken.{first_forged, same_note};
ghost use Rattle.sg_protocol.specs.Notes.{Note};
ghost use Rattle.sg_protocol.specs.Schedule.{Schedule};
ghost use Rattle.sg_protocol.specs.World.{World};
ghost use Rattle.sg_certify.specs.Forged.{IsRecord, is_unmade, forged_from};

use crate::honest::Honest;
use crate::tagged_texts::TaggedTexts;
use sg_base::OutOfMemory;
use sg_crypt::{Note, Notes};
use std::alloc::Global;

/// A text that was found right under the key of two honest principals, and that none of them had tagged.
#[derive(Clone, Copy)]
pub struct Forged<'n> {
    /// The number of the step that found it, from 1.
    pub step: usize,
    /// The text, with the two principals.
    pub note: &'n Note,
}

/// The first forged text of a run, in the order in which they were found, from what its steps noted. The first step is step 1.
pub fn first_forged<'n, H: Honest>(
    alloc: Global,
    honest: &H,
    notes: &'n [Notes],
) -> Result<Option<Forged<'n>>, OutOfMemory>
    ensures value { IfOk result (λ o. option_map (λ f. (f.step, f.note.now)) o ≡ forged_from (H.names honest.now) 1 [] notes.now) }
    // In a run it is the definition's.
    ensures in_runs { (s : Schedule) (w : World) → s.honest ≡ H.names honest.now → IsRecord w notes.now
        → IfOk result (λ o. option_map (λ f. (f.step, f.note.now)) o ≡ first_forged s w) }
{
    find_forged(alloc, honest, notes)
}

// The first forged text of what the steps noted.
fn find_forged<'n, H: Honest>(
    alloc: Global,
    honest: &H,
    notes: &'n [Notes],
) -> Result<Option<Forged<'n>>, OutOfMemory>
    ensures { IfOk result (λ o. option_map (λ f. (f.step, f.note.now)) o ≡ forged_from (H.names honest.now) 1 [] notes.now) }
{
    let mut tagged = TaggedTexts::new(alloc);
    for (index, step) in notes.iter().enumerate() {
        if let Some(note) = first_unmade(honest, &tagged, step.found()) {
            return Ok(Some(Forged {
                step: index + 1,
                note,
            }));
        }
        add_all(&mut tagged, step.made())?;
    }
    Ok(None)
}

// The first note that is of two honest principals and not among those that were made.
fn first_unmade<'n, H: Honest>(
    honest: &H,
    made: &TaggedTexts<'_>,
    found: &'n [Note],
) -> Option<&'n Note>
    ensures { option_copied result ≡ find (is_unmade (H.names honest.now) made.now) found.now }
{
    for note in found {
        if is_unmade(honest, made, note) {
            return Some(note);
        }
    }
    None
}

fn is_unmade<H: Honest>(honest: &H, made: &TaggedTexts<'_>, note: &Note) -> bool
    ensures { result ≡ is_unmade (H.names honest.now) made.now note.now }
{
    honest.is_honest(note.one()) && honest.is_honest(note.two()) && !made.has(note)
}

fn add_all<'n>(made: &mut TaggedTexts<'n>, notes: &'n [Note]) -> Result<(), OutOfMemory>
    ensures { OnOk result ((n : Note) → list_any (same_note n) made.new ≡ list_any (same_note n) (made.old ++ notes.now)) }
{
    for note in notes {
        made.add(note)?;
    }
    Ok(())
}
