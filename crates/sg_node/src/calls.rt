//! The calls of a node, for callers that want the event alone.
ghost use Rattle.std.specs.Prelude.{◌≡◌, ◌≢◌, ◌<◌, ◌⊎◌, true, Err, length, IsErr, OnErr};
ghost use Rattle.sg_model.specs.Limits.{most_frame_bytes};
ghost use Rattle.sg_protocol.specs.Acting.{answer};
ghost use Rattle.sg_protocol.specs.Calls.{Act, Deliver, Start};
ghost use Rattle.sg_protocol.specs.NodeStates.{RepresentsPast};
ghost use Rattle.sg_protocol.specs.Notes.{notes as noted_of};
ghost use Rattle.sg_protocol.specs.Past.{Past, node_of};
ghost use Rattle.sg_protocol.specs.Reading.{read_version};
ghost use Rattle.sg_protocol.specs.Texts.{real};
ghost use Rattle.sg_walk.specs.Model.{values_of};
ghost use Rattle.sg_role.specs.Sending.{with_notes};
ghost use Rattle.sg_node.specs.Answers.{IsAnswer, IsActAnswer, start_answer, delivery_answer, GoesOn, is_sending, may_take_memory};

use crate::{ActFault, Node};
use sg_base::{Label, Sealed, Sid, Value, Var};
use sg_crypt::{Cast, Notes};
use sg_receipt::{Refusal, StartFault};
use sg_role::SendFault;
use sg_walk::Event;

impl<'p> Node<'p> {
    /// Starts a session of a cast, as `begin`, and gives the event alone.
    pub fn start(&mut self, cast: Cast, notes: &mut Notes) -> Result<Event, StartFault>
        ensures answer { (past : Past) → RepresentsPast self.old past → IsAnswer (answer real (node_of past) (Start cast)) (start_answer result) }
        ensures state { (past : Past) → RepresentsPast self.old past → result ≢ Err StartFault.OutOfMemory → GoesOn self.old self.new (Start cast) past }
        ensures notes { (past : Past) → RepresentsPast self.old past → result ≢ Err StartFault.OutOfMemory
            → notes.new ≡ with_notes notes.old (noted_of real (node_of past) (Start cast)) }
        ensures back { OnErr result (self.new ≡ self.old) }
        ensures memory { result ≡ Err StartFault.OutOfMemory → notes.new ≡ notes.old }
        // Memory never runs out for an unknown graph, a bad cast or an unknown peer.
        ensures early { (past : Past) → RepresentsPast self.old past → result ≡ Err StartFault.OutOfMemory
            → may_take_memory (answer real (node_of past) (Start cast)) ≡ true }
    {
        match self.begin(cast, notes) {
            Ok(Ok(begun)) => Ok(begun.event),
            Ok(Err(refusal)) => Err(refusal.into()),
            Err(_) => Err(StartFault::OutOfMemory),
        }
    }

    /// Sends a step, as `send`, and gives the event and the frame alone.
    pub fn act(
        &mut self,
        sid: Sid,
        label: Label,
        values: &[(Var, Value)],
        confounders: &[[u8; 16]],
        notes: &mut Notes,
    ) -> Result<(Event, Sealed), ActFault>
        requires { length confounders.now ≡ length values.now }
        ensures answer { (past : Past) → RepresentsPast self.old past
            → IsActAnswer (answer real (node_of past) (Act sid label (values_of values.now) confounders.now)) result }
        ensures state { (past : Past) → RepresentsPast self.old past → result ≢ Err ActFault.OutOfMemory
            → GoesOn self.old self.new (Act sid label (values_of values.now) confounders.now) past }
        ensures notes { (past : Past) → RepresentsPast self.old past → result ≢ Err ActFault.OutOfMemory
            → notes.new ≡ with_notes notes.old (noted_of real (node_of past) (Act sid label (values_of values.now) confounders.now)) }
        ensures back { OnErr result ((self.new ≡ self.old) × (notes.new ≡ notes.old)) }
        // `OutOfMemory` is never inside another fault, and never takes the place of a refusal: memory runs out only for a step that would be sent.
        ensures early { result ≢ Err (ActFault.Send SendFault.OutOfMemory) }
        ensures memory { (past : Past) → RepresentsPast self.old past → result ≡ Err ActFault.OutOfMemory
            → is_sending (answer real (node_of past) (Act sid label (values_of values.now) confounders.now)) ≡ true }
    {
        match self.send(sid, label, values, confounders, notes) {
            Ok(Ok((sent, sealed))) => Ok((sent.event, sealed)),
            Ok(Err(refusal)) => Err(refusal.into()),
            Err(_) => Err(ActFault::OutOfMemory),
        }
    }

    /// Takes bytes that were delivered, as `receive`, and gives the event alone.
    pub fn deliver(&mut self, bytes: &[u8], notes: &mut Notes) -> Result<Event, Refusal>
        ensures answer { (past : Past) → RepresentsPast self.old past → IsAnswer (answer real (node_of past) (Deliver bytes.now)) (delivery_answer result) }
        ensures state { (past : Past) → RepresentsPast self.old past → result ≢ Err Refusal.OutOfMemory → GoesOn self.old self.new (Deliver bytes.now) past }
        ensures notes { (past : Past) → RepresentsPast self.old past → result ≢ Err Refusal.OutOfMemory
            → notes.new ≡ with_notes notes.old (noted_of real (node_of past) (Deliver bytes.now)) }
        ensures back { OnErr result (self.new ≡ self.old) }
        ensures memory { result ≡ Err Refusal.OutOfMemory → notes.new ≡ notes.old }
        // Memory runs out neither for too many bytes nor for a wrong beginning.
        ensures early { (most_frame_bytes < length bytes.now) ⊎ IsErr (read_version 0 bytes.now) → result ≢ Err Refusal.OutOfMemory }
    {
        match self.receive(bytes, notes) {
            Ok(Ok(receipt)) => Ok(receipt.into_event()),
            Ok(Err(refusal)) => Err(refusal.into()),
            Err(_) => Err(Refusal::OutOfMemory),
        }
    }
}
