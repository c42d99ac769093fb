//! Frames that are on their way.
ghost use Rattle.std.specs.Prelude.{◌≡◌, ◌≤◌, ◌+◌};
ghost use Rattle.sg_drive.specs.Generated.{fate_of};
ghost use Rattle.sg_drive.specs.GeneratorModel.{fate_held};

use sg_base::Label;
use std::marker::Model;

/// A frame that was sent and is still in the list.
#[derive(Drop)]
pub(crate) struct Pending {
    /// Its number, from 1.
    pub frame: u32,
    /// The index of its session, from 0.
    pub session: u32,
    /// The label along which it was sent.
    pub label: Label,
    /// How often it went to the list's end again, at most three times.
    pub count: u8,
}

impl Model for Pending {
    ghost use Rattle.sg_drive.specs.Going.{Pending};

    ghost Value = { Pending };

    ghost view = { λ p. record { frame = p.frame; session = p.session; label = p.label; count = p.count } };
}

/// What becomes of a frame that is taken out of the list.
#[derive(Clone, Copy, PartialEq, Eq)]
pub(crate) enum Fate {
    /// It is delivered.
    Delivered,
    /// It goes to the list's end again.
    Delayed,
    /// It goes to the list's end again, and is delivered.
    Repeated,
    /// It is lost.
    Lost,
}

impl Pending {
    /// What becomes of the frame, by a draw below 16.
    pub fn fate(&self, drawn: u32) -> Fate
        ensures { fate_held result ≡ fate_of self.now.count drawn }
    {
        if self.count == 3 {
            Fate::Delivered
        } else if drawn < 2 {
            Fate::Delayed
        } else if drawn < 4 {
            Fate::Repeated
        } else if drawn == 15 {
            Fate::Lost
        } else {
            Fate::Delivered
        }
    }

    /// The frame with its count raised by one.
    pub fn again(&self) -> Pending
        requires { self.now.count ≤ 3 }
        ensures { result ≡ record self.now { count = self.now.count + 1 } }
    {
        Pending {
            frame: self.frame,
            session: self.session,
            label: self.label,
            count: self.count + 1,
        }
    }
}
