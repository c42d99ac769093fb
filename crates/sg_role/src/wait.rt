//! A role that waits for its turn.
ghost use Rattle.std.specs.Prelude.{◌≡◌, ◌≢◌, ◌↔◌, None, IfOk, IfErr, IsErr};
ghost use Rattle.sg_model.specs.Shape.{role_at};
ghost use Rattle.sg_protocol.specs.Reachable.{IsReachableWaiting};
ghost use Rattle.sg_protocol.specs.Graph.{shape};
ghost use Rattle.sg_protocol.specs.Texts.{real};
ghost use Rattle.sg_walk.specs.Model.{event_of};
ghost use Rattle.sg_role.specs.Accepting.{goes_on, state_after};
ghost use Rattle.sg_role.specs.Sending.{TurnsOrEnds};

use crate::before::fits;
use crate::same::same;
use crate::{Accepted, Before, Done, Turn, TurnOrDone};
use sg_cache::Ticket;
use sg_walk::Event;
use std::marker::Model;

/// A role that waits for its turn: its session is new, or ends with its own step. It is made by `join`, and by `Turn::send`. A clause
/// sees its program and what it holds.
#[derive(Drop)]
pub struct Await<'p> {
    pub(crate) before: Before<'p>,
}

impl<'p> Model for Await<'p> {
    ghost use Rattle.sg_role.specs.Model.{RoleState};

    ghost Value = { RoleState };

    ghost use Rattle.sg_role.specs.Invariant.{HoldsWaiting};

    ghost view = { λ a. a.before };

    ghost invariant = { λ a. HoldsWaiting a.before };
}

impl<'p> Await<'p> {
    /// The first wait of a role that doesn't start the graph. It gives both back exactly if the ticket is of another session or role,
    /// the role has sent a step, or it is the start node's. It takes no memory.
    pub fn join(ticket: Ticket, before: Before<'p>) -> Result<Await<'p>, (Ticket, Before<'p>)>
        ensures fits { IsErr result ↔ (¬ ((ticket ≡ (before.entry.held.sid, before.entry.held.role))
            × (role_at (shape before.entry.program.graph) 0 ≢ before.entry.held.role) × (before.entry.held.kept.origin ≡ None))) }
        ensures joined { IfOk result (λ a. a ≡ before.entry) }
        ensures back { IfErr result (λ e. (e.0 ≡ ticket) × (e.1 ≡ before.entry)) }
    {
        if !fits(&ticket, &before) || before.kept.starts() {
            return Err((ticket, before));
        }
        let _join = ticket.spend();
        Ok(Await { before })
    }

    /// What the role keeps. It takes no memory.
    pub fn before(&self) -> &Before<'p>
        ensures before { result.now ≡ self.now }
        ensures reachable { IsReachableWaiting real self.now.program self.now.held }
    {
        &self.before
    }

    /// Takes a frame that was accepted. It gives both back exactly if the frame was looked at by a role that held something else. It
    /// takes no memory.
    pub fn accept(
        self,
        accepted: Accepted<'p>,
    ) -> Result<(Event, TurnOrDone<'p>), (Await<'p>, Accepted<'p>)>
        ensures fits { IsErr result ↔ (accepted.entry.before ≢ self.entry.held) }
        ensures event { IfOk result (λ r. event_of r.0 ≡ accepted.entry.event) }
        ensures taken { IfOk result (λ r. TurnsOrEnds (goes_on accepted.entry.program.graph accepted.entry.after.kept.place) (state_after accepted.entry) r.1) }
        ensures back { IfErr result (λ e. (e.0 ≡ self.entry) × (e.1 ≡ accepted.entry)) }
    {
        if same(self.before.kept.as_ref(), accepted.before.as_ref()) {
            Ok(self.accept_unchecked(accepted))
        } else {
            Err((self, accepted))
        }
    }

    /// Takes a frame that was accepted if the role held what it holds. It takes no memory.
    pub fn accept_unchecked(self, accepted: Accepted<'p>) -> (Event, TurnOrDone<'p>)
        requires fits { accepted.before ≡ self.held }
        ensures event { event_of result.0 ≡ accepted.entry.event }
        ensures taken { TurnsOrEnds (goes_on accepted.entry.program.graph accepted.entry.after.kept.place) (state_after accepted.entry) result.1 }
    {
        let Accepted { after, event, .. } = accepted;
        if after.goes_on() {
            (event, TurnOrDone::Turn(Turn { kept: after }))
        } else {
            (event, TurnOrDone::Done(Done(())))
        }
    }

    /// Ends the role's part in the session. It takes no memory.
    pub fn abandon(self) -> Done {
        Done(())
    }
}
