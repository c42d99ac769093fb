//! A frame that was accepted.
ghost use Rattle.std.specs.Prelude.{◌≡◌};
ghost use Rattle.sg_walk.specs.Model.{event_of};

use crate::kept_state::KeptState;
use sg_program::Program;
use sg_vis::ViewId;
use sg_walk::Event;
use std::marker::Model;
use std::rc::Rc;

/// A frame that was accepted by a role that waits: what the role kept when it looked at the frame, what it keeps with it, and what it
/// received.
#[derive(Drop)]
pub struct Accepted<'p> {
    pub(crate) before: Rc<KeptState<'p>>,
    pub(crate) after: Rc<KeptState<'p>>,
    pub(crate) event: Event,
    pub(crate) view: ViewId,
}

impl<'p> Model for Accepted<'p> {
    ghost use Rattle.sg_role.specs.Accepting.{Acceptance};

    ghost Value = { Acceptance };

    ghost use Rattle.sg_role.specs.Accepting.{acceptance_of, state_after};
    ghost use Rattle.sg_role.specs.Invariant.{HoldsTurn};

    ghost view = { acceptance_of };

    ghost invariant = { λ a. HoldsTurn (state_after (acceptance_of a)) };
}

impl<'p> Accepted<'p> {
    /// The number of the view that the frame shows, in the program's table. It takes no memory.
    pub fn view(&self) -> ViewId
        ensures { result ≡ self.now.view }
    {
        self.view
    }

    /// The program of the role, in whose table the view is. It takes no memory.
    pub fn program(&self) -> &'p Program
        ensures { result.now ≡ self.now.program }
    {
        self.after.program
    }

    /// What was received. It takes no memory.
    pub fn event(&self) -> &Event
        ensures { event_of result.now ≡ self.now.event }
    {
        &self.event
    }
}
