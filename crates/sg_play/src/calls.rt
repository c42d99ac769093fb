//! Calls that a caller of a player makes one by one, and what it looks up between them.
ghost use Rattle.std.specs.Prelude.{◌≡◌, [], length, slice_get, option_map, IfOk, IfErr, OnOk};
ghost use Rattle.std.specs.Option.{option_copied};
ghost use Rattle.sg_text.specs.Sessions.{sids_known};
ghost use Rattle.sg_protocol.specs.Calls.{Abandon, Act};
ghost use Rattle.sg_protocol.specs.Past.{node_of};
ghost use Rattle.sg_protocol.specs.Named.{live_with};
ghost use Rattle.sg_protocol.specs.Turn.{turn_of};
ghost use Rattle.sg_walk.specs.Model.{values_of};
ghost use Rattle.sg_play.specs.Asking.{addressed, sealed_in};
ghost use Rattle.sg_play.specs.Played.{Play, answer_in};
ghost use Rattle.sg_play.specs.Posting.{frames_made};
ghost use Rattle.sg_play.specs.Representation.{HasAsked, KeepsJoins, RepresentsPlay};
ghost use Rattle.sg_play.specs.Steps.{known_in};

use crate::ask::{ask_abandon, ask_act};
use crate::{PlayFault, Player};
use sg_base::{Addr, Label, NodeId, Sealed, Sid, Value, Var};
use sg_graph::Graph;
use sg_report::Outcome;

impl<'p> Player<'p> {
    /// Asks the node for an act in a session, with a confounder to hide each value: the outcome, and the frame that was made, with the
    /// address of its receiver. The step's line is still to be written, by `report`.
    pub fn ask_act(
        &mut self,
        sid: Sid,
        label: Label,
        values: &[(Var, Value)],
        confounders: &[[u8; 16]],
    ) -> Result<(Outcome<'p>, Option<(Addr, Sealed)>), PlayFault>
        requires { length confounders.now ≡ length values.now }
        ensures asked { IfOk result (λ r. (p : Play) → RepresentsPlay self.old p
            → HasAsked self.new p (Act sid label (values_of values.now) confounders.now) r.0 (frames_made r.1)) }
        ensures frame { IfOk result (λ r. (p : Play) → RepresentsPlay self.old p → r.1 ≡ addressed p.past.keys (sealed_in (answer_in p (Act sid label (values_of values.now) confounders.now)))) }
        ensures joins { OnOk result (KeepsJoins self.old.node self.new.node) }
        ensures memory { IfErr result (λ e. e ≡ PlayFault.OutOfMemory) }
    {
        ask_act(
            self.alloc,
            &mut self.node,
            self.keys,
            &mut self.frames,
            sid,
            label,
            values,
            confounders,
        )
    }

    /// Asks the node to abandon a session: the outcome. The step's line is still to be written, by `report`.
    pub fn ask_abandon(&mut self, sid: Sid) -> Outcome<'p>
        ensures rest { self.new ≡ record self.old { node = self.new.node } }
        ensures asked { (p : Play) → RepresentsPlay self.old p
            → HasAsked self.new p (Abandon sid) result [] }
        ensures joins { KeepsJoins self.old.node self.new.node }
    {
        ask_abandon(&mut self.node, sid)
    }

    /// The place of a session that is at its turn, a node of its graph. It takes no memory.
    pub fn turn(&self, sid: Sid) -> Option<NodeId>
        ensures { (p : Play) → RepresentsPlay self.now p → result ≡ turn_of (node_of p.past) sid }
    {
        self.node.turn(sid)
    }

    /// The graph of a session that is live. It takes no memory.
    pub fn graph_of(&self, sid: &Sid) -> Option<&'p Graph>
        ensures { (p : Play) → RepresentsPlay self.now p → option_copied result ≡ option_map (λ x. x.0.graph) (live_with (node_of p.past) sid.now) }
    {
        self.node.graph_of(sid)
    }

    /// How many sessions had an event. It takes no memory.
    pub fn sessions(&self) -> usize
        ensures { (p : Play) → RepresentsPlay self.now p → result ≡ length (sids_known (known_in p.past.calls)) }
    {
        self.names.len()
    }

    /// The session at an index in the order of first events, from 0. It takes no memory.
    pub fn session_at(&self, index: usize) -> Option<Sid>
        ensures { (p : Play) → RepresentsPlay self.now p → result ≡ slice_get (sids_known (known_in p.past.calls)) index }
    {
        match self.names.at(index) {
            Some(named) => Some(named.0),
            None => None,
        }
    }
}
