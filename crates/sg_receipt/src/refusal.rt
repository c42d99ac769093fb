//! Why a node refuses a call. None of these is want of memory, which is the call's error.
use sg_base::{Name, Time, Var};
use sg_graph::Graph;

/// Why a session is not started, the first cause that holds.
#[derive(Clone, Copy)]
pub enum StartRefusal {
    /// There is no program for the cast's graph and the role that starts it.
    UnknownGraph,
    /// The cast doesn't have as many principals as the graph has roles, two of them are the same, or the starting role's principal
    /// isn't the node's own.
    BadCast,
    /// No key is shared with this principal, the first in role order.
    UnknownPeer {
        /// The principal without a key.
        name: Name,
    },
    /// The pair of session and role was joined before.
    Joined,
    /// 65,536 pairs were joined.
    CacheFull,
    /// 4,096 sessions are live.
    SessionsFull,
}

/// Why a node does not act, the first cause that holds.
#[derive(Clone, Copy)]
pub enum ActRefusal<'p> {
    /// No live session has the identifier.
    UnknownSession,
    /// The session waits for a frame.
    NotYourTurn,
    /// The label doesn't leave the session's node.
    NoSuchLabel,
    /// The values aren't those of the variables that the edge writes, in rising order and of their types; with the least variable that
    /// is missing, not written by the edge, repeated, out of order or of another type.
    BadValues {
        /// The variable. The graph has it, or the act gives a value for it.
        var: Var,
        /// The graph of the session.
        graph: &'p Graph,
    },
    /// The time of the last step is the greatest, 1,000,000.
    TimeSpent,
}

/// Why a delivery is refused, the first cause that holds.
#[derive(Clone, Copy)]
pub enum DeliveryRefusal<'p> {
    /// The bytes are no frame: the first field that is not there whole, or is out of its range, begins at this offset.
    Malformed {
        /// The offset in bytes.
        at: u32,
    },
    /// The frame joins, and there is no program for its graph and its receiver.
    UnknownGraph,
    /// The frame joins, and its cast doesn't have as many principals as the graph has roles, two of them are the same, the sender
    /// or the receiver is not among its roles, or the receiver's principal isn't the node's own.
    BadCast,
    /// The frame joins, and no key is shared with this principal of its cast, the first in role order.
    UnknownPeer {
        /// The principal without a key.
        name: Name,
    },
    /// The frame joins, and its identifier is not that of its cast.
    BadSession,
    /// The frame joins, and the pair of session and receiver was joined before.
    Joined,
    /// The frame joins, and 65,536 pairs were joined.
    CacheFull,
    /// The frame joins, and 4,096 sessions are live.
    SessionsFull,
    /// The frame continues, and no live session has its identifier, its receiver and its version.
    UnknownSession,
    /// The frame continues, and its session is at its turn.
    NotWaiting,
    /// The sender is not a role of the cast, or the frame's tag is not right under the key shared with its principal.
    BadFrameTag,
    /// What the frame shows is no view of the role from its own last step; or an item's role isn't its label's sender, the last item's
    /// isn't the frame's sender, an item's tags aren't for exactly its targets without a later item, or the openings aren't of exactly
    /// the variables that the last label reads.
    NoSuchView,
    /// An item, the first in order and counted from 1, has a time below `least`, which is 1 more than the time of the item before it, or
    /// than that of the role's own last step.
    BadTime {
        /// The item's number, from 1 on.
        item: u32,
        /// Its time.
        got: Time,
        /// The least time that it may have.
        least: Time,
    },
    /// An item before the last, the first in order and counted from 1, has no right tag for the role.
    BadEvidence {
        /// The item's number, from 1 on.
        item: u32,
    },
    /// An opening, the first in order, is of another type than its variable or doesn't open the variable's commitment.
    BadOpening {
        /// The opened variable.
        var: Var,
        /// The graph of the session, which has it.
        graph: &'p Graph,
    },
}
