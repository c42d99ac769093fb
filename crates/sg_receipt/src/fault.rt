//! Why a node refuses a call, or that memory ran out.
use crate::{DeliveryRefusal, StartRefusal};
use sg_base::{Name, Time, Var};
use thiserror::Error;

/// Why a session is not started, the first cause that holds.
#[derive(Debug, Clone, Copy, PartialEq, Eq, Error)]
pub enum StartFault {
    /// There is no program for the cast's graph and the role that starts it.
    #[error("unknown graph")]
    UnknownGraph,
    /// The cast doesn't have as many principals as the graph has roles, two of them are the same, or the starting role's principal
    /// isn't the node's own.
    #[error("bad cast")]
    BadCast,
    /// No key is shared with this principal, the first in role order.
    #[error("unknown peer")]
    UnknownPeer {
        /// The principal without a key.
        name: Name,
    },
    /// The pair of session and role was joined before.
    #[error("joined already")]
    Joined,
    /// 65,536 pairs were joined.
    #[error("the cache is full")]
    CacheFull,
    /// 4,096 sessions are live.
    #[error("too many live sessions")]
    SessionsFull,
    /// Out of memory.
    #[error("out of memory")]
    OutOfMemory,
}

/// Why a delivery is refused, the first cause that holds.
#[derive(Debug, Clone, Copy, PartialEq, Eq, Error)]
pub enum Refusal {
    /// The bytes are no frame: the first field that is not there whole, or is out of its range, begins at this offset.
    #[error("malformed at {at}")]
    Malformed {
        /// The offset in bytes.
        at: u32,
    },
    /// The frame joins, and there is no program for its graph and its receiver.
    #[error("unknown graph")]
    UnknownGraph,
    /// The frame joins, and its cast doesn't have as many principals as the graph has roles, two of them are the same, the sender
    /// or the receiver is not among its roles, or the receiver's principal isn't the node's own.
    #[error("bad cast")]
    BadCast,
    /// The frame joins, and no key is shared with this principal of its cast, the first in role order.
    #[error("unknown peer")]
    UnknownPeer {
        /// The principal without a key.
        name: Name,
    },
    /// The frame joins, and its identifier is not that of its cast.
    #[error("bad session")]
    BadSession,
    /// The frame joins, and the pair of session and receiver was joined before.
    #[error("joined already")]
    Joined,
    /// The frame joins, and 65,536 pairs were joined.
    #[error("the cache is full")]
    CacheFull,
    /// The frame joins, and 4,096 sessions are live.
    #[error("too many live sessions")]
    SessionsFull,
    /// The frame continues, and no live session has its identifier, its receiver and its version.
    #[error("unknown session")]
    UnknownSession,
    /// The frame continues, and its session is at its turn.
    #[error("not waiting")]
    NotWaiting,
    /// The sender is not a role of the cast, or the frame's tag is not right under the key shared with its principal.
    #[error("bad frame tag")]
    BadFrameTag,
    /// What the frame shows is no view of the role from its own last step; or an item's role isn't its label's sender, the last item's
    /// isn't the frame's sender, an item's tags aren't for exactly its targets without a later item, or the openings aren't of exactly
    /// the variables that the last label reads.
    #[error("no such view")]
    NoSuchView,
    /// An item, the first in order and counted from 1, has a time below `least`, which is 1 more than the time of the item before it, or
    /// than that of the role's own last step.
    #[error("item {item} has time {}, below {}", got.0, least.0)]
    BadTime {
        /// The item's number, from 1 on.
        item: u32,
        /// Its time.
        got: Time,
        /// The least time that it may have.
        least: Time,
    },
    /// An item before the last, the first in order and counted from 1, has no right tag for the role.
    #[error("bad evidence in item {item}")]
    BadEvidence {
        /// The item's number, from 1 on.
        item: u32,
    },
    /// An opening, the first in order, is of another type than its variable or doesn't open the variable's commitment.
    #[error("bad opening of variable {}", var.0)]
    BadOpening {
        /// The opened variable.
        var: Var,
    },
    /// Out of memory.
    #[error("out of memory")]
    OutOfMemory,
}

impl From<StartRefusal> for StartFault {
    ghost use Rattle.std.specs.Prelude.{◌≡◌, Some};
    ghost use Rattle.sg_receipt.specs.Refusals.{start_refusal};
    ghost use Rattle.sg_receipt.specs.Faults.{start_fault};

    ghost from_gives = { λ refusal fault. start_fault fault ≡ Some (start_refusal refusal) };

    fn from(refusal: StartRefusal) -> StartFault {
        match refusal {
            StartRefusal::UnknownGraph => StartFault::UnknownGraph,
            StartRefusal::BadCast => StartFault::BadCast,
            StartRefusal::UnknownPeer { name } => StartFault::UnknownPeer { name },
            StartRefusal::Joined => StartFault::Joined,
            StartRefusal::CacheFull => StartFault::CacheFull,
            StartRefusal::SessionsFull => StartFault::SessionsFull,
        }
    }
}

impl<'p> From<DeliveryRefusal<'p>> for Refusal {
    ghost use Rattle.std.specs.Prelude.{◌≡◌, Some};
    ghost use Rattle.sg_receipt.specs.Refusals.{delivery_refusal};
    ghost use Rattle.sg_receipt.specs.Faults.{refusal};

    ghost from_gives = { λ why fault. refusal fault ≡ Some (delivery_refusal why) };

    fn from(refusal: DeliveryRefusal<'p>) -> Refusal {
        match refusal {
            DeliveryRefusal::Malformed { at } => Refusal::Malformed { at },
            DeliveryRefusal::UnknownGraph => Refusal::UnknownGraph,
            DeliveryRefusal::BadCast => Refusal::BadCast,
            DeliveryRefusal::UnknownPeer { name } => Refusal::UnknownPeer { name },
            DeliveryRefusal::BadSession => Refusal::BadSession,
            DeliveryRefusal::Joined => Refusal::Joined,
            DeliveryRefusal::CacheFull => Refusal::CacheFull,
            DeliveryRefusal::SessionsFull => Refusal::SessionsFull,
            DeliveryRefusal::UnknownSession => Refusal::UnknownSession,
            DeliveryRefusal::NotWaiting => Refusal::NotWaiting,
            DeliveryRefusal::BadFrameTag => Refusal::BadFrameTag,
            DeliveryRefusal::NoSuchView => Refusal::NoSuchView,
            DeliveryRefusal::BadTime { item, got, least } => Refusal::BadTime { item, got, least },
            DeliveryRefusal::BadEvidence { item } => Refusal::BadEvidence { item },
            DeliveryRefusal::BadOpening { var, .. } => Refusal::BadOpening { var },
        }
    }
}
