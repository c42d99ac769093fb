//! Why a frame is not accepted, and why a step is not sent.
ghost use Rattle.std.specs.Prelude.{◌≡◌};
ghost use Rattle.sg_role.specs.declared.fault.Refusal.TheVariants.{OutOfMemory as Memory};

use sg_base::{Time, Var};
use std::alloc::AllocError;
use thiserror::Error;

/// Why a frame that is for a role and its session is not accepted, the first cause that holds.
#[derive(Debug, Clone, Copy, PartialEq, Eq, Error)]
pub enum Refusal {
    /// The sender is not a role of the cast, or the frame's tag is not right under the key shared with its principal.
    #[error("bad frame tag")]
    BadFrameTag,
    /// What the frame shows is no view of the role from its own last step; or an item's role isn't its label's sender, the last item's
    /// isn't the frame's sender, an item's tags aren't for exactly its targets without a later item, or the openings aren't of exactly
    /// the variables that the last label reads.
    #[error("no such view")]
    NoSuchView,
    /// An item, the first in order and counted from 1, has a time below `least`, which is 1 more than the time of the item before it, or
    /// than that of the role's own last step.
    #[error("item {item} has time {}, below {}", got.0, least.0)]
    BadTime { item: u32, got: Time, least: Time },
    /// An item before the last, the first in order and counted from 1, has no right tag for the role.
    #[error("bad evidence in item {item}")]
    BadEvidence { item: u32 },
    /// An opening, the first in order, is of another type than its variable or doesn't open the variable's commitment.
    #[error("bad opening of variable {}", var.0)]
    BadOpening { var: Var },
    /// Out of memory.
    #[error("out of memory")]
    OutOfMemory,
}

/// Why a step is not sent, the first cause that holds.
#[derive(Debug, Clone, Copy, PartialEq, Eq, Error)]
pub enum SendFault {
    /// The label doesn't leave the node.
    #[error("no such label")]
    NoSuchLabel,
    /// The values aren't those of the variables that the edge writes, in rising order and of their types; with the least variable that
    /// is missing, not written by the edge, repeated, out of order or of another type.
    #[error("bad value of variable {}", var.0)]
    BadValues { var: Var },
    /// The time of the last step is the greatest, 1,000,000.
    #[error("time spent")]
    TimeSpent,
    /// Out of memory.
    #[error("out of memory")]
    OutOfMemory,
}

impl From<AllocError> for Refusal {
    ghost from_gives = { λ _ refusal. refusal ≡ Memory };

    fn from(_: AllocError) -> Refusal {
        Refusal::OutOfMemory
    }
}
