//! Why a node does not act, and that it has no session to leave.
use sg_receipt::ActRefusal;
use sg_role::SendFault;
use thiserror::Error;

/// Why a node does not act, the first cause that holds.
#[derive(Debug, Clone, Copy, PartialEq, Eq, Error)]
pub enum ActFault {
    /// No live session has the identifier.
    #[error("unknown session")]
    UnknownSession,
    /// The session waits for a frame.
    #[error("not your turn")]
    NotYourTurn,
    /// The role does not send the step.
    #[error("not sent: {0}")]
    Send(SendFault),
    /// Out of memory.
    #[error("out of memory")]
    OutOfMemory,
}

/// No live session has the identifier.
#[derive(Debug, Clone, Copy, PartialEq, Eq, Error)]
#[error("unknown session")]
pub struct UnknownSession;

impl<'p> From<ActRefusal<'p>> for ActFault {
    ghost use Rattle.std.specs.Prelude.{◌≡◌, Some};
    ghost use Rattle.sg_receipt.specs.Refusals.{act_refusal};
    ghost use Rattle.sg_node.specs.Faults.{act_fault};

    ghost from_gives = { λ refusal fault. act_fault fault ≡ Some (act_refusal refusal) };

    fn from(refusal: ActRefusal<'p>) -> ActFault {
        match refusal {
            ActRefusal::UnknownSession => ActFault::UnknownSession,
            ActRefusal::NotYourTurn => ActFault::NotYourTurn,
            ActRefusal::NoSuchLabel => ActFault::Send(SendFault::NoSuchLabel),
            ActRefusal::BadValues { var, .. } => ActFault::Send(SendFault::BadValues { var }),
            ActRefusal::TimeSpent => ActFault::Send(SendFault::TimeSpent),
        }
    }
}
