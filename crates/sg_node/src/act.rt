//! How a node acts in a session.
ghost use Rattle.std.specs.Prelude.{◌≡◌, ◌<◌, true, None, Some, length, slice_get, option_and_then, option_map, IfErr, IfOk, IsErr, MatchResult, OnErr, OnOk};
ghost use Rattle.indexmap.specs.IndexMap.{set_value_at};
ghost use Rattle.sg_protocol.specs.Acting.{answer};
ghost use Rattle.sg_protocol.specs.Calls as Protocol;
ghost use Rattle.sg_protocol.specs.Calls.{Act, NotActed};
ghost use Rattle.sg_protocol.specs.NodeStates.{RepresentsPast};
ghost use Rattle.sg_protocol.specs.Notes.{notes as noted_of};
ghost use Rattle.sg_protocol.specs.Past.{Past, node_of};
ghost use Rattle.sg_protocol.specs.Texts.{real};
ghost use Rattle.sg_protocol.specs.Named.{graph_of_call};
ghost use Rattle.sg_walk.specs.Model.{event_of, values_of};
ghost use Rattle.sg_role.specs.Sending.{event_sent, frame_made, with_notes};
ghost use Rattle.sg_receipt.specs.Answers.{IsAnswerOfAct, graph_named, graph_of_act};
ghost use Rattle.sg_node.specs.Answers.{GoesOn, is_sending};
ghost use Rattle.sg_role.specs.declared.fault.SendFault.TheVariants as sending;
ghost use Rattle.sg_receipt.specs.Refusals.{act_refusal, graph_of_act_refusal};
ghost use Rattle.sg_node.specs.Faults.{send_fault};
ghost use Rattle.sg_node.specs.Slots.{left_by};

use crate::Node;
use crate::sessions::{Live, Sessions};
use sg_base::{Label, OutOfMemory, Sealed, Sid, Value, Var};
use sg_crypt::Notes;
use sg_graph::Graph;
use sg_receipt::{ActRefusal, Happened};
use sg_role::{SendFault, Sent, facts_of_values};
use sg_walk::Event;
use std::alloc::AllocError;

impl<'p> Node<'p> {
    /// Sends a step along a label in the first live session with an identifier, with the values that it writes and sixteen bytes for
    /// each to hide it, or gives the first cause for which it is refused. After a refusal, or if memory runs out, the node and the notes are
    /// as before. Memory runs out only for a step that would be sent.
    pub fn send(
        &mut self,
        sid: Sid,
        label: Label,
        values: &[(Var, Value)],
        confounders: &[[u8; 16]],
        notes: &mut Notes,
    ) -> Result<Result<(Happened<'p>, Sealed), ActRefusal<'p>>, OutOfMemory>
        requires { length confounders.now ≡ length values.now }
        ensures answer { (past : Past) → RepresentsPast self.old past
            → IfOk result (IsAnswerOfAct (answer real (node_of past) (Act sid label (values_of values.now) confounders.now))) }
        // By the graph of the session, if it names a role, a label or a variable.
        ensures graph { (past : Past) → RepresentsPast self.old past → IfOk result (λ r. graph_of_act r
            ≡ graph_named (answer real (node_of past) (Act sid label (values_of values.now) confounders.now)) (graph_of_call real (node_of past) (Act sid label (values_of values.now) confounders.now))) }
        ensures state { (past : Past) → RepresentsPast self.old past → OnOk result (GoesOn self.old self.new (Act sid label (values_of values.now) confounders.now) past) }
        ensures notes { (past : Past) → RepresentsPast self.old past
            → OnOk result (notes.new ≡ with_notes notes.old (noted_of real (node_of past) (Act sid label (values_of values.now) confounders.now))) }
        ensures refused { IfOk result (λ r. OnErr r ((self.new ≡ self.old) × (notes.new ≡ notes.old))) }
        ensures memory { OnErr result ((self.new ≡ self.old) × (notes.new ≡ notes.old)) }
        ensures early { (past : Past) → RepresentsPast self.old past
            → OnErr result (is_sending (answer real (node_of past) (Act sid label (values_of values.now) confounders.now)) ≡ true) }
    {
        facts_of_values(values, confounders);
        let Some(index) = self.sessions.first(&sid, false) else {
            return Ok(Err(ActRefusal::UnknownSession));
        };
        match self.sessions.take(index) {
            Some(Live::AtTurn(turn)) => {
                let graph = turn.program().graph();
                match turn.send(self.alloc, &self.keys, label, values, confounders, notes) {
                    Ok(sent) => {
                        let (event, sealed) = keep(&mut self.sessions, index, sent);
                        Ok(Ok((Happened { event, graph }, sealed)))
                    }
                    Err((turn, fault)) => {
                        self.sessions.put(index, Live::AtTurn(turn));
                        not_sent(fault, graph)
                    }
                }
            }
            Some(Live::Waiting(wait)) => {
                self.sessions.put(index, Live::Waiting(wait));
                Ok(Err(ActRefusal::NotYourTurn))
            }
            None => unreachable!(),
        }
    }
}

// Puts a role that sent a step back into its slot, unless it has ended.
fn keep<'p>(sessions: &mut Sessions<'p>, index: usize, sent: Sent<'p>) -> (Event, Sealed)
    requires empty { option_and_then (λ s. s.1) (slice_get sessions.old.slots index) ≡ None }
    requires within { index < length sessions.old.slots }
    ensures event { event_of result.0 ≡ event_sent sent.entry }
    ensures frame { result.1 ≡ frame_made sent.entry }
    ensures slots { sessions.new.slots ≡ set_value_at sessions.old.slots index (left_by sent.entry) }
{
    match sent {
        Sent::Waiting(wait, event, sealed) => {
            sessions.put(index, Live::Waiting(wait));
            (event, sealed)
        }
        Sent::Ended(_done, event, sealed) => (event, sealed),
    }
}

// What a node answers if an act's step is not sent, in a session of this graph.
fn not_sent<'p>(
    fault: SendFault,
    graph: &'p Graph,
) -> Result<Result<(Happened<'p>, Sealed), ActRefusal<'p>>, OutOfMemory>
    ensures refused { IfOk result (λ r. IsErr r) }
    ensures refusal { MatchResult result (λ r. IfErr r (λ why. option_map Protocol.ActFault.Send (send_fault fault) ≡ Some (act_refusal why))) (λ e. fault ≡ sending.OutOfMemory) }
    ensures graph { IfOk result (λ r. IfErr r (λ why. graph_of_act_refusal why ≡ graph_named (NotActed (act_refusal why)) (Some graph.entry.now))) }
{
    let why = match fault {
        SendFault::NoSuchLabel => ActRefusal::NoSuchLabel,
        SendFault::BadValues { var } => ActRefusal::BadValues { var, graph },
        SendFault::TimeSpent => ActRefusal::TimeSpent,
        SendFault::OutOfMemory => return Err(AllocError),
    };
    Ok(Err(why))
}
