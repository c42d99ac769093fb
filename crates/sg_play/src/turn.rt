//! A turn of a session: the act by a choice of the script, or the leaving.
ghost use Rattle.std.specs.Prelude.{◌≡◌, ℕ, false, List, Option, Some, IfOk, IfErr, OnOk, MatchOption};
ghost use Rattle.sg_play.specs.Around.{KeepsLink, outside_of};
ghost use Rattle.sg_protocol.specs.Calls.{Answer};
ghost use Rattle.sg_report.specs.Outcome.{outcome_of};
ghost use Rattle.sg_report.specs.Reported.{reported_answer};
ghost use Rattle.sg_play.specs.Ends.{Outside, Whole};
ghost use Rattle.sg_play.specs.Played.{Play, plays_on};
ghost use Rattle.sg_play.specs.Posting.{frames_made};
ghost use Rattle.sg_play.specs.Representation.{ProgressedActing, Progresses, HasActed, KeepsJoins, RepresentsPlay};
ghost use Rattle.sg_play.specs.Turns.{acted, is_sent};

use crate::ask::ask_act;
use crate::confounders::draw;
use crate::{PlayFault, Player};
use sg_base::{Addr, Fresh, Link, NodeId, Sealed, Sid, Sink};
use sg_report::Outcome;

impl<'p> Player<'p> {
    /// Plays the turn of a session, if it is at its turn: by the first choice for its graph and node that has uses left. If there
    /// is none, or if the act is refused, the session is left.
    pub(crate) fn play_turn<L: Link, R: Fresh, O: Sink>(
        &mut self,
        sid: Sid,
        link: &mut L,
        fresh: &mut R,
        out: &mut O,
    ) -> Result<(), PlayFault>
        ensures kept { KeepsLink L.Link O.Sink link.old link.new out.old out.new result }
        ensures progress { Progresses (plays_on sid) self.old self.new (R.random fresh.old) (R.random fresh.new)
            (outside_of L.Link O.Sink link.old out.old) (outside_of L.Link O.Sink link.new out.new) result }
        ensures joins { OnOk result (KeepsJoins self.old.node self.new.node) }
        ensures programs { OnOk result (self.new.programs.now ≡ self.old.programs.now) }
    {
        let Some(node) = self.node.turn(sid) else {
            return Ok(());
        };
        if self.act(sid, node, link, fresh, out)? {
            return Ok(());
        }
        let outcome = self.ask_abandon(sid);
        let given = self.give(Some(sid), &outcome, None, link, out);
        drop(outcome);
        given
    }

    // Acts by the first choice for a node of a session's graph that has uses left. It says whether a step was sent: not if there is no
    // such choice, nor if the act is refused.
    fn act<L: Link, R: Fresh, O: Sink>(
        &mut self,
        sid: Sid,
        node: NodeId,
        link: &mut L,
        fresh: &mut R,
        out: &mut O,
    ) -> Result<bool, PlayFault>
        ensures kept { KeepsLink L.Link O.Sink link.old link.new out.old out.new result }
        ensures progress { (p : Play) (start : Outside) → RepresentsPlay self.old p → R.random fresh.old ≡ Some p.random → Whole start (outside_of L.Link O.Sink link.old out.old) p.steps
            → ProgressedActing start (outside_of L.Link O.Sink link.new out.new) self.new (R.random fresh.new) (acted sid node p) result }
        ensures joins { OnOk result (KeepsJoins self.old.node self.new.node) }
        ensures programs { OnOk result (self.new.programs.now ≡ self.old.programs.now) }
    {
        match self.try_act(sid, node, fresh) {
            Ok(Some((outcome, frame))) => {
                let given = self.give_act(&outcome, frame, link, out);
                drop(outcome);
                given
            }
            Ok(None) => Ok(false),
            Err(fault) => Err(fault),
        }
    }

    // Gives the outside the outcome of an act. It says whether a step was sent.
    fn give_act<L: Link, O: Sink>(
        &mut self,
        outcome: &Outcome<'p>,
        frame: Option<(Addr, Sealed)>,
        link: &mut L,
        out: &mut O,
    ) -> Result<bool, PlayFault>
        ensures kept { KeepsLink L.Link O.Sink link.old link.new out.old out.new result }
        ensures progress { (p : Play) (start : Outside) (random : Option (List (List ℕ))) (sid : List ℕ) (node : ℕ) → HasActed self.old random sid node p outcome.now (frames_made frame)
            → Whole start (outside_of L.Link O.Sink link.old out.old) p.steps
            → ProgressedActing start (outside_of L.Link O.Sink link.new out.new) self.new random (acted sid node p) result }
        ensures node { OnOk result (self.new.node ≡ self.old.node) }
        ensures programs { OnOk result (self.new.programs.now ≡ self.old.programs.now) }
    {
        self.give(None, outcome, frame, link, out)?;
        Ok(was_sent(outcome))
    }

    // Asks for the act by the first choice for a node of a session's graph that has uses left, if there is one: the outcome, and the frame that was
    // made, with the address of its receiver. The act takes one use off the choice, whether it is refused or not.
    fn try_act<R: Fresh>(
        &mut self,
        sid: Sid,
        node: NodeId,
        fresh: &mut R,
    ) -> Result<Option<(Outcome<'p>, Option<(Addr, Sealed)>)>, PlayFault>
        ensures acted { IfOk result (λ r. (p : Play) → RepresentsPlay self.old p → R.random fresh.old ≡ Some p.random → MatchOption r
            ((acted sid node p ≡ (p, false)) × (self.new ≡ self.old) × (R.random fresh.new ≡ R.random fresh.old))
            (λ a. HasActed self.new (R.random fresh.new) sid node p a.0 (frames_made a.1))) }
        ensures joins { OnOk result (KeepsJoins self.old.node self.new.node) }
        ensures programs { OnOk result (self.new.programs.now ≡ self.old.programs.now) }
        ensures memory { IfErr result (λ e. e ≡ PlayFault.OutOfMemory) }
    {
        let Some(graph) = self.node.graph_of(&sid) else {
            return Ok(None);
        };
        let name = graph.name();
        let Some(choice) = self.choices.first(&name, node) else {
            return Ok(None);
        };
        let confounders = match draw(self.alloc, fresh, choice.values.len()) {
            Ok(confounders) => confounders,
            Err(_) => return Err(PlayFault::OutOfMemory),
        };
        match ask_act(
            self.alloc,
            &mut self.node,
            self.keys,
            &mut self.frames,
            sid,
            choice.label,
            choice.values.as_slice(),
            confounders.as_slice(),
        ) {
            Ok(asked) => {
                self.choices.use_first(&name, node);
                Ok(Some(asked))
            }
            Err(fault) => Err(fault),
        }
    }
}

// A step was sent.
fn was_sent(outcome: &Outcome<'_>) -> bool
    ensures { (k : ℕ) (a : Answer) → outcome_of outcome.now ≡ reported_answer k a → result ≡ is_sent a }
{
    matches!(outcome, Outcome::Sent { .. })
}
