//! What a role sends at its turn.
ghost use Rattle.std.specs.Prelude.{◌≡◌, ◌<◌, length, Some, None, IfOk, IfErr};
ghost use Rattle.std.specs.List.{list_any};
ghost use Rattle.sg_protocol.specs.Evidence.{same_origin};
ghost use Rattle.sg_role.specs.Model.{state_of};
ghost use Rattle.sg_role.specs.Invariant.{HoldsWaiting};
ghost use Rattle.sg_vis.specs.Table.{views_of};
ghost use Rattle.sg_model.specs.Lists.{first_some};
ghost use Rattle.sg_model.specs.Shape.{receiver};
ghost use Rattle.sg_protocol.specs.Acting.{openings_for, rows_of_send};
ghost use Rattle.sg_protocol.specs.Graph.{shape};
ghost use Rattle.sg_protocol.specs.IsSchedule.{IsProgram};
ghost use Rattle.sg_protocol.specs.Keyring.{may_return};
ghost use Rattle.sg_protocol.specs.Ranges.{AreValues};
ghost use Rattle.sg_protocol.specs.Notes.{notes_of_sent};
ghost use Rattle.sg_protocol.specs.Sending.{own_item, frame_sent};
ghost use Rattle.sg_protocol.specs.Session.{Session, Gave, principal};
ghost use Rattle.sg_protocol.specs.Spelling.{spelling};
ghost use Rattle.sg_protocol.specs.Representation.{RepresentsAtTurn, held_after};
ghost use Rattle.sg_protocol.specs.Texts.{real};
ghost use Rattle.sg_walk.specs.Model.{event_of, values_of};
ghost use Rattle.sg_role.specs.Faults.{RefusesToSend};
ghost use Rattle.sg_role.specs.Sending.{event_sent, frame_made, with_notes, WaitsOrEnds, step_of};

use crate::kept_state::KeptState;
use crate::step::{MadeStep, make_step};
use crate::values::{check_step, facts_of_values};
use crate::{Await, Before, Done, SendFault, Sent, Turn};
use sg_base::{Label, Value, Var};
use sg_crypt::Notes;
use sg_keys::Keyring;
use sg_vis::{Origin, View, ViewId, ViewTable};
use std::alloc::Global;

impl<'p> Turn<'p> {
    /// Sends a step along a label, with the values that it writes and sixteen bytes for each to hide it. A refused turn comes back, and
    /// so does one for which memory ran out; then nothing is noted.
    pub fn send(
        self,
        alloc: Global,
        keys: &Keyring,
        label: Label,
        values: &[(Var, Value)],
        confounders: &[[u8; 16]],
        notes: &mut Notes,
    ) -> Result<Sent<'p>, (Turn<'p>, SendFault)>
        requires { length confounders.now ≡ length values.now }
        ensures refused { (s : Session) → RepresentsAtTurn self.entry.program.graph self.entry.held s
            → IfErr result (λ e. RefusesToSend (first_some (rows_of_send self.entry.program s label (values_of values.now))) e.1) }
        // Memory runs out only for a step that would be sent.
        ensures memory { (s : Session) → RepresentsAtTurn self.entry.program.graph self.entry.held s
            → IfErr result (λ e. e.1 ≡ SendFault.OutOfMemory → first_some (rows_of_send self.entry.program s label (values_of values.now)) ≡ None) }
        ensures back { IfErr result (λ e. (e.0 ≡ self.entry) × (notes.new ≡ notes.old)) }
        ensures accepted { (s : Session) → RepresentsAtTurn self.entry.program.graph self.entry.held s
            → IfOk result (λ sent. first_some (rows_of_send self.entry.program s label (values_of values.now)) ≡ None) }
        ensures event { IfOk result (λ sent. event_sent sent ≡ step_of self.entry.held label (values_of values.now)) }
        ensures frame { (s : Session) → RepresentsAtTurn self.entry.program.graph self.entry.held s
            → IfOk result (λ sent. frame_made sent ≡ (
              principal s.cast (receiver (shape self.entry.program.graph) label),
              spelling (frame_sent real keys.now self.entry.program s label (openings_for (values_of values.now) confounders.now)),
            )) }
        ensures state { (s : Session) → RepresentsAtTurn self.entry.program.graph self.entry.held s
            → IfOk result (WaitsOrEnds (may_return self.entry.program label) (record {
              program = self.entry.program;
              held = held_after self.entry.program.graph self.entry.held
                  (Gave (own_item real keys.now self.entry.program s label (openings_for (values_of values.now) confounders.now)) (openings_for (values_of values.now) confounders.now));
            })) }
        ensures notes { (s : Session) → RepresentsAtTurn self.entry.program.graph self.entry.held s
            → IfOk result (λ sent. notes.new ≡ with_notes notes.old (notes_of_sent keys.now self.entry.program s
            (frame_sent real keys.now self.entry.program s label (openings_for (values_of values.now) confounders.now)) (openings_for (values_of values.now) confounders.now))) }
    {
        let kept = self.kept.as_ref();
        if let Err(fault) = check_step(kept, label, values) {
            return Err((self, fault));
        }
        facts(kept, values, confounders);
        let counts = notes.counts();
        match make_step(alloc, kept, keys, label, values, confounders, notes) {
            Ok(step) => Ok(after_step(label, step)),
            Err(_) => {
                notes.keep(counts);
                Err((self, SendFault::OutOfMemory))
            }
        }
    }
}

// What the types say of the program, of the values and of the bytes that hide them.
fn facts(kept: &KeptState, values: &[(Var, Value)], confounders: &[[u8; 16]])
    requires { length confounders.now ≡ length values.now }
    ensures program { IsProgram real (state_of kept.now).program }
    ensures values { AreValues (values_of values.now) confounders.now }
{
    let _role = kept.program.role();
    facts_of_values(values, confounders);
}

// The role after a step. It takes no memory.
fn after_step<'p>(label: Label, step: MadeStep<'p>) -> Sent<'p>
    requires { HoldsWaiting (state_of step.kept.value) }
    ensures event { event_sent result ≡ event_of step.entry.event }
    ensures frame { frame_made result ≡ step.entry.sealed }
    ensures state { WaitsOrEnds (may_return (state_of step.entry.kept.value).program label) (state_of step.entry.kept.value) result }
{
    let MadeStep {
        event,
        sealed,
        kept,
    } = step;
    if begins(kept.program.views(), label) {
        Sent::Waiting(
            Await {
                before: Before { kept },
            },
            event,
            sealed,
        )
    } else {
        Sent::Ended(Done(()), event, sealed)
    }
}

// A view of the table begins after the label.
fn begins(table: &ViewTable, label: Label) -> bool
    ensures { result ≡ list_any (λ v. same_origin v.origin (Some label)) (views_of table.now) }
{
    for number in 0..table.len() {
        if begins_after(table.get(ViewId(number)), label) {
            return true;
        }
    }
    false
}

// The view begins after the label.
fn begins_after(view: &View, label: Label) -> bool
    ensures { result ≡ same_origin view.now.origin (Some label) }
{
    match view.from {
        Origin::Start => false,
        Origin::After(other) => other == label,
    }
}
