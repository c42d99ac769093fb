//! A role at its turn.
ghost use Rattle.std.specs.Prelude.{◌≡◌, ◌==◌, ◌↔◌, ◌&&◌, nat_lt, length, None, IfOk, IfErr, IsErr};
ghost use Rattle.sg_model.specs.Shape.{role_at, source};
ghost use Rattle.sg_protocol.specs.Reachable.{IsReachableAtTurn};
ghost use Rattle.sg_protocol.specs.Graph.{shape};
ghost use Rattle.sg_protocol.specs.Texts.{real};

use crate::before::fits;
use crate::kept_state::KeptState;
use crate::{Before, Done};
use sg_base::{Label, NodeId, Time};
use sg_cache::Ticket;
use sg_crypt::Cast;
use sg_program::Program;
use std::marker::Model;
use std::rc::Rc;

/// A role at its turn: its session is new, or ends with a frame that it accepted. It is made by `begin`, and by `Await::accept`. A
/// clause sees its program and what it holds.
#[derive(Drop)]
pub struct Turn<'p> {
    pub(crate) kept: Rc<KeptState<'p>>,
}

impl<'p> Model for Turn<'p> {
    ghost use Rattle.sg_role.specs.Model.{RoleState};

    ghost Value = { RoleState };

    ghost use Rattle.sg_role.specs.Model.{state_of};
    ghost use Rattle.sg_role.specs.Invariant.{HoldsTurn};

    ghost view = { λ t. state_of t.kept.value };

    ghost invariant = { λ t. HoldsTurn (state_of t.kept.value) };
}

impl<'p> Turn<'p> {
    /// The first turn of the role that starts the graph. It gives both back exactly if the ticket is of another session or role, the
    /// role isn't the start node's, or it has sent a step. It takes no memory.
    pub fn begin(ticket: Ticket, before: Before<'p>) -> Result<Turn<'p>, (Ticket, Before<'p>)>
        ensures fits { IsErr result ↔ (¬ ((ticket ≡ (before.entry.held.sid, before.entry.held.role))
            × (role_at (shape before.entry.program.graph) 0 ≡ before.entry.held.role) × (before.entry.held.kept.origin ≡ None))) }
        ensures begun { IfOk result (λ t. t ≡ before.entry) }
        ensures back { IfErr result (λ e. (e.0 ≡ ticket) × (e.1 ≡ before.entry)) }
    {
        if !fits(&ticket, &before) || !before.kept.starts() {
            return Err((ticket, before));
        }
        let _join = ticket.spend();
        let Before { kept } = before;
        Ok(Turn { kept })
    }

    /// The node at which it is the role's turn. It takes no memory.
    pub fn node(&self) -> NodeId
        ensures node { result ≡ self.now.held.kept.place }
        ensures reachable { IsReachableAtTurn real self.now.program self.now.held }
    {
        self.kept.place
    }

    /// The program of the role. It takes no memory.
    pub fn program(&self) -> &'p Program
        ensures { result.now ≡ self.now.program }
    {
        self.kept.program
    }

    /// The cast. It takes no memory.
    pub fn cast(&self) -> &Cast
        ensures { result.now ≡ self.now.held.cast }
    {
        self.kept.cast.get()
    }

    /// The time of the last step, 0 before the first. It takes no memory.
    pub fn time(&self) -> Time
        ensures { result ≡ self.now.held.kept.time }
    {
        self.kept.time
    }

    /// Whether the label leaves the node. It takes no memory.
    pub fn choices(&self, label: Label) -> bool
        ensures { result ≡ (nat_lt label (length self.now.program.graph.edges) && source (shape self.now.program.graph) label == self.now.held.kept.place) }
    {
        let graph = self.kept.program.graph();
        label.0 < graph.edges() && graph.edge(label).source == self.kept.place
    }

    /// Ends the role's part in the session. It takes no memory.
    pub fn abandon(self) -> Done {
        Done(())
    }
}
