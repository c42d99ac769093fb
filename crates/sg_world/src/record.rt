//! The record of a replay.
ghost use Rattle.std.specs.Prelude.{◌≡◌, ◌+◌, ◌<◌, ◌≤◌, ◌^◌, ◌++◌, ◌∷◌, [], length, sum_by, vec_len, vec_capacity, option_map, IfOk, OnOk};
ghost use Rattle.std.specs.Option.{option_copied, option_map_or, option_to_list};
ghost use Rattle.sg_model.specs.Last.{last};
ghost use Rattle.sg_sched.specs.Format.StepsHeld.{step_of};
ghost use Rattle.sg_world.specs.RecordModel.{added_size, with_result};

use sg_base::{OutOfMemory, RoleSet, Seq};
use sg_crypt::{Hashed, Note, Notes, SharedCast};
use sg_report::Outcome;
use sg_sched::Step;
use std::alloc::Global;
use std::marker::Model;

/// The outcome of a step, the cast of a frame that joined, the frame that the step records, and what was noted.
#[derive(Drop)]
pub(crate) struct StepResult<'p> {
    pub outcome: Outcome<'p>,
    pub cast: Option<SharedCast>,
    pub frame: Option<Seq<u8>>,
    pub notes: Notes,
}

impl<'p> Model for StepResult<'p> {
    ghost use Rattle.sg_world.specs.RecordModel.{StepResult};

    ghost Value = { StepResult };

    ghost view = { λ c. record { outcome = c.outcome; cast = c.cast; frame = c.frame; notes = c.notes } };
}

impl<'p> StepResult<'p> {
    ghost use Rattle.std.specs.Prelude.{Some};
    ghost use Rattle.sg_world.specs.RecordModel.{no_frame};

    /// What comes of a delivery of a frame that isn't there. It takes no memory.
    pub fn no_frame(alloc: Global) -> StepResult<'p>
        ensures { result ≡ no_frame }
    {
        StepResult {
            outcome: Outcome::NoFrame,
            cast: None,
            frame: None,
            notes: Notes::new(alloc),
        }
    }

    /// Says the outcome of the step.
    pub fn set_outcome(&mut self, outcome: Outcome<'p>)
        ensures { self.new ≡ record self.old { outcome = outcome.entry } }
    {
        self.outcome = outcome;
    }

    /// Gives the cast of a frame that joined.
    pub fn set_cast(&mut self, cast: Option<SharedCast>)
        ensures { self.new ≡ record self.old { cast = cast } }
    {
        self.cast = cast;
    }

    /// Gives the frame that the step records.
    pub fn set_frame(&mut self, frame: Seq<u8>)
        ensures { self.new ≡ record self.old { frame = Some frame } }
    {
        self.frame = Some(frame);
    }
}

/// A step that was taken, the outcome, and the honest roles of the cast of the session that it started or joined, none for other steps.
#[derive(Drop)]
pub(crate) struct TakenStep<'p> {
    pub step: Step,
    pub outcome: Outcome<'p>,
    pub honest: RoleSet,
}

impl<'p> Model for TakenStep<'p> {
    ghost use Rattle.sg_sched.specs.Format.StepsHeld.{step_of};
    ghost use Rattle.sg_world.specs.RecordModel.{TakenStep};

    ghost Value = { TakenStep };

    ghost view = { λ e. record { step = step_of e.step; outcome = e.outcome; honest = e.honest } };
}

/// The steps that were taken, what was noted at each, the recorded frames, f1 first, and the size of all in bytes.
#[derive(Drop)]
pub(crate) struct Record<'p> {
    entries: Vec<TakenStep<'p>>,
    notes: Vec<Notes>,
    frames: Vec<Seq<u8>>,
    size: u128,
}

impl<'p> Model for Record<'p> {
    ghost use Rattle.std.specs.Prelude.{◌-◌, min, vec_len, vec_capacity};
    ghost use Rattle.sg_world.specs.Recording.{Recording};

    ghost Value = { Recording };

    ghost view = { λ r. record {
      done = record { entries = r.entries.items; notes = r.notes.items; frames = r.frames.items; size = r.size };
      room = min (min (vec_capacity r.entries - vec_len r.entries) (vec_capacity r.notes - vec_len r.notes)) (vec_capacity r.frames - vec_len r.frames);
    } };
}

impl<'p> Record<'p> {
    /// The record of a replay of which no step was taken, of this size. There is room for so many steps, so that it isn't copied as it grows.
    pub fn new(alloc: Global, steps: usize, size: u128) -> Result<Record<'p>, OutOfMemory>
        ensures blank { IfOk result (λ r. r.done ≡ record { entries = []; notes = []; frames = []; size = size }) }
        ensures room { IfOk result (λ r. steps ≤ r.room) }
    {
        Ok(Record {
            frames: Vec::with_capacity(alloc, steps)?,
            notes: Vec::with_capacity(alloc, steps)?,
            entries: Vec::with_capacity(alloc, steps)?,
            size,
        })
    }

    /// The number of steps that were taken.
    pub fn count(&self) -> usize
        ensures { result ≡ length self.now.done.entries }
    {
        self.entries.len()
    }

    /// The steps that were taken.
    pub fn entries(&self) -> &[TakenStep<'p>]
        ensures { result.now ≡ self.now.done.entries }
    {
        self.entries.as_slice()
    }

    /// What was noted at each step.
    pub fn notes(&self) -> &[Notes]
        ensures { result.now ≡ self.now.done.notes }
    {
        self.notes.as_slice()
    }

    /// The recorded frames.
    pub fn frames(&self) -> &[Seq<u8>]
        ensures { result.now ≡ self.now.done.frames }
    {
        self.frames.as_slice()
    }

    /// The size in bytes.
    pub fn size(&self) -> u128
        ensures { result ≡ self.now.done.size }
    {
        self.size
    }

    /// The outcome of the last step.
    pub fn last(&self) -> Option<&Outcome<'p>>
        ensures { option_copied result ≡ option_map (λ e. e.outcome) (last self.now.done.entries) }
    {
        match self.entries.last() {
            None => None,
            Some(entry) => Some(&entry.outcome),
        }
    }

    /// Makes room for one more step.
    pub fn make_room(&mut self) -> Result<(), OutOfMemory>
        ensures room { OnOk result (0 < self.new.room) }
        ensures done { self.new.done ≡ self.old.done }
    {
        self.entries.reserve(1)?;
        self.notes.reserve(1)?;
        self.frames.reserve(1)?;
        Ok(())
    }

    /// Records a step with the outcome and these honest roles. It takes no memory.
    pub fn put(&mut self, step: Step, honest: RoleSet, step_result: StepResult<'p>)
        requires room { 0 < self.old.room }
        requires size { self.old.done.size + added_size step_result < 2 ^ 64 }
        ensures { self.new.done ≡ with_result self.old.done (step_of step) honest step_result.entry }
    {
        self.size += added(&step_result) as u128;
        let StepResult {
            outcome,
            cast: _,
            frame,
            notes,
        } = step_result;
        put_frame(&mut self.frames, frame);
        put_notes(&mut self.notes, notes);
        put_entry(
            &mut self.entries,
            TakenStep {
                step,
                outcome,
                honest,
            },
        );
    }
}

// Puts a frame after the others, if there is one, if room was made.
fn put_frame(frames: &mut Vec<Seq<u8>>, frame: Option<Seq<u8>>)
    requires { vec_len frames.old < vec_capacity frames.old }
    ensures { frames.new.items ≡ frames.old.items ++ option_to_list frame }
{
    if let Some(frame) = frame {
        let _ = frames.push(frame);
    }
}

// Puts what was noted after the rest if room was made.
fn put_notes(all: &mut Vec<Notes>, notes: Notes)
    requires { vec_len all.old < vec_capacity all.old }
    ensures { all.new.items ≡ all.old.items ++ notes ∷ [] }
{
    let _ = all.push(notes);
}

// Puts an entry after the others if room was made.
fn put_entry<'p>(entries: &mut Vec<TakenStep<'p>>, entry: TakenStep<'p>)
    requires { vec_len entries.old < vec_capacity entries.old }
    ensures { entries.new.items ≡ entries.old.items ++ entry.entry ∷ [] }
{
    drop(entries.push(entry));
}

// The bytes that a step adds.
fn added(step_result: &StepResult<'_>) -> u64
    requires { added_size step_result.now < 2 ^ 64 }
    ensures { result ≡ added_size step_result.now }
{
    frame_size(&step_result.frame)
        + notes_size(step_result.notes.made())
        + notes_size(step_result.notes.found())
        + texts_size(step_result.notes.hashed())
}

// The bytes of a frame, if there is one.
fn frame_size(frame: &Option<Seq<u8>>) -> u64
    ensures { result ≡ option_map_or (λ bs. length bs) frame.now 0 }
{
    match frame {
        Some(frame) => frame.len() as u64,
        None => 0,
    }
}

// The bytes of the texts of these notes.
fn notes_size(notes: &[Note]) -> u64
    requires { sum_by (λ n. length n.text) notes.now < 2 ^ 64 }
    ensures { result ≡ sum_by (λ n. length n.text) notes.now }
{
    notes.iter().map(|note| note.text().len() as u64).sum()
}

// The bytes of these texts.
fn texts_size(texts: &[Hashed]) -> u64
    requires { sum_by (λ t. length t) texts.now < 2 ^ 64 }
    ensures { result ≡ sum_by (λ t. length t) texts.now }
{
    texts.iter().map(|text| text.len() as u64).sum()
}
