//! Whether a role that waits accepts a frame.
ghost use Rattle.std.specs.Prelude.{◌≡◌, ◌≢◌, true, false, Err, length, map, nat_lt, slice_get, Some, None, IfOk, IfErr, IsTrue, ◌↔◌};
ghost use Rattle.sg_model.specs.Lists.{first_some};
ghost use Rattle.sg_protocol.specs.IsSchedule.{IsProgram};
ghost use Rattle.sg_protocol.specs.Notes.{notes_in_session, row_number};
ghost use Rattle.sg_protocol.specs.Session.{Session, Took};
ghost use Rattle.sg_protocol.specs.Spelling.{HasSpelling, SpellsFrame};
ghost use Rattle.sg_protocol.specs.Representation.{RepresentsBefore, held_after};
ghost use Rattle.sg_protocol.specs.Texts.{real};
ghost use Rattle.sg_protocol.specs.Verdict.{receipt, rows_of_session, seen};
ghost use Rattle.sg_role.specs.Faults.{Refuses};
ghost use Rattle.sg_role.specs.Looking.{is_seen, notes_from, overwritten_by, rows_from, KeepsNotes};
ghost use Rattle.sg_role.specs.Sending.{with_notes};
ghost use Rattle.sg_role.specs.Model.{state_of};
ghost use Rattle.sg_role.specs.Invariant.{HoldsBefore, HoldsTurn};

use crate::kept_state::KeptState;
use crate::next::{after_frame, receipt_of};
use crate::openings::check_openings;
use crate::tags::{check_frame_tag, check_items};
use crate::times::check_times;
use crate::view::find_view;
use crate::{Accepted, Before, Refusal};
use sg_crypt::Notes;
use sg_frame::Frame;
use sg_keys::Keyring;
use sg_vis::ViewId;
use std::alloc::Global;
use std::rc::Rc;

/// Looks at a frame that is for a role and its session, and was read from these bytes: accepts it or says why not. It goes row by
/// row, as the definition has them: the frame's tag, what it shows, the times, the tags of the items, the openings. What was found
/// right and what was hashed is noted. If memory runs out, nothing is noted. A sender that is no role of the cast is refused without memory.
pub fn examine<'p>(
    alloc: Global,
    before: &Before<'p>,
    keys: &Keyring,
    frame: &Frame,
    bytes: &[u8],
    notes: &mut Notes,
) -> Result<Accepted<'p>, Refusal>
    requires spelled { SpellsFrame bytes.now frame.now }
    requires version { frame.now.version ≡ before.now.held.cast.version }
    ensures refused { (s : Session) → RepresentsBefore before.now.program.graph before.now.held s
        → IfErr result (Refuses (first_some (rows_of_session real keys.now before.now.program s frame.now))) }
    ensures accepted { (s : Session) → RepresentsBefore before.now.program.graph before.now.held s
        → IfOk result (λ a. first_some (rows_of_session real keys.now before.now.program s frame.now) ≡ None) }
    ensures program { IfOk result (λ a. a.program ≡ before.now.program) }
    ensures before { IfOk result (λ a. a.before ≡ before.now.held) }
    ensures after { IfOk result (λ a. a.after ≡ held_after before.now.program.graph before.now.held (Took frame.now)) }
    ensures event { IfOk result (λ a. a.event ≡ receipt frame.now) }
    ensures view { IfOk result (λ a. slice_get before.now.program.views a.view
        ≡ Some (record { origin = before.now.held.kept.origin; items = map seen frame.now.items })) }
    ensures notes { (s : Session) → RepresentsBefore before.now.program.graph before.now.held s → result ≢ Err Refusal.OutOfMemory
        → notes.new ≡ with_notes notes.old (notes_in_session real keys.now before.now.program s frame.now
        (row_number (first_some (rows_of_session real keys.now before.now.program s frame.now)))) }
    ensures memory { result ≡ Err Refusal.OutOfMemory → notes.new ≡ notes.old }
    // Memory never runs out for a sender that is no role of the cast.
    ensures early { nat_lt frame.now.sender (length before.now.held.cast.names) ≡ false → result ≢ Err Refusal.OutOfMemory }
{
    let counts = notes.counts();
    let result = look(
        alloc,
        before.kept.as_ref(),
        &before.kept,
        keys,
        frame,
        bytes,
        notes,
    );
    if is_memory(&result) {
        notes.keep(counts);
    }
    result
}

// Memory ran out.
fn is_memory(looked: &Result<Accepted, Refusal>) -> bool
    ensures { IsTrue result ↔ (looked.now ≡ Err Refusal.OutOfMemory) }
{
    matches!(looked, Err(Refusal::OutOfMemory))
}

// Looks at the rows in order. What is kept comes twice: to look at, and to be shared with what is accepted.
fn look<'p>(
    alloc: Global,
    kept: &KeptState<'p>,
    same: &Rc<KeptState<'p>>,
    keys: &Keyring,
    frame: &Frame,
    bytes: &[u8],
    notes: &mut Notes,
) -> Result<Accepted<'p>, Refusal>
    requires holds { HoldsBefore (state_of kept.now) }
    requires same { state_of same.now.value ≡ state_of kept.now }
    requires spelled { SpellsFrame bytes.now frame.now }
    requires version { frame.now.version ≡ kept.now.cast.version }
    ensures is_program { IsProgram real (state_of kept.now).program }
    ensures refused { IfErr result (Refuses (first_some (rows_from keys.now (state_of kept.now).program (state_of kept.now).held frame.now))) }
    ensures accepted { IfOk result (λ a. first_some (rows_from keys.now (state_of kept.now).program (state_of kept.now).held frame.now) ≡ None) }
    ensures program { IfOk result (λ a. a.program ≡ (state_of kept.now).program) }
    ensures before { IfOk result (λ a. a.before ≡ (state_of kept.now).held) }
    ensures after { IfOk result (λ a. a.after ≡ held_after (state_of kept.now).program.graph (state_of kept.now).held (Took frame.now)) }
    ensures event { IfOk result (λ a. a.event ≡ receipt frame.now) }
    ensures view { IfOk result (λ a. slice_get (state_of kept.now).program.views a.view
        ≡ Some (record { origin = (state_of kept.now).held.kept.origin; items = map seen frame.now.items })) }
    ensures noted { result ≢ Err Refusal.OutOfMemory → notes.new ≡ with_notes notes.old (notes_from keys.now (state_of kept.now).program (state_of kept.now).held frame.now
        (row_number (first_some (rows_from keys.now (state_of kept.now).program (state_of kept.now).held frame.now)))) }
    ensures keeps { KeepsNotes notes.old notes.new }
    ensures early { nat_lt frame.now.sender (length kept.now.cast.names) ≡ false → result ≢ Err Refusal.OutOfMemory }
{
    let graph = kept.program.graph();
    let items = frame.items.as_slice();
    let openings = frame.openings.as_slice();
    check_frame_tag(alloc, kept, keys, frame, bytes, notes)?;
    let view = find_view(alloc, kept, frame)?;
    check_times(kept.own_time, items)?;
    let commitments = check_items(alloc, kept, keys, items, notes)?;
    check_openings(
        alloc,
        graph,
        &kept.sid,
        commitments.as_slice(),
        openings,
        notes,
    )?;
    accept(alloc, kept, same, frame, commitments, view)
}

// What is accepted.
fn accept<'p>(
    alloc: Global,
    kept: &KeptState<'p>,
    same: &Rc<KeptState<'p>>,
    frame: &Frame,
    commitments: Vec<Option<[u8; 32]>>,
    view: ViewId,
) -> Result<Accepted<'p>, Refusal>
    requires holds { HoldsBefore (state_of kept.now) }
    requires same { state_of same.now.value ≡ state_of kept.now }
    requires spelled { HasSpelling frame.now }
    requires commitments { commitments.items ≡ overwritten_by kept.now.commitments.items frame.now.items }
    requires seen { is_seen (state_of kept.now).program (state_of kept.now).held.kept.origin frame.now ≡ true }
    requires turn { HoldsTurn (record {
      program = (state_of kept.now).program;
      held = held_after (state_of kept.now).program.graph (state_of kept.now).held (Took frame.now);
    }) }
    ensures only { IfErr result (λ e. e ≡ Refusal.OutOfMemory) }
    ensures program { IfOk result (λ a. a.program ≡ (state_of kept.now).program) }
    ensures before { IfOk result (λ a. a.before ≡ (state_of kept.now).held) }
    ensures after { IfOk result (λ a. a.after ≡ held_after (state_of kept.now).program.graph (state_of kept.now).held (Took frame.now)) }
    ensures event { IfOk result (λ a. a.event ≡ receipt frame.now) }
    ensures view { IfOk result (λ a. a.view ≡ view) }
{
    let after = after_frame(alloc, kept, frame, commitments)?;
    let event = receipt_of(alloc, frame)?;
    let Ok(before) = same.clone() else {
        return Err(Refusal::OutOfMemory);
    };
    Ok(Accepted {
        before,
        after,
        event,
        view,
    })
}
