//! Steps of a schedule.
use crate::craft::HeldCraft;
use sg_base::{Label, Name, Seq, Value, Var};

/// A step. A session is its index in the list of those declared, from 0.
#[derive(Drop)]
pub enum Step {
    /// The principal starts the session.
    Start {
        /// The principal, which is honest.
        who: Name,
        /// The index of the session.
        session: u32,
    },
    /// The principal acts in the session: it sends along the label and writes the values.
    Act {
        /// The principal, which is honest.
        who: Name,
        /// The index of the session.
        session: u32,
        /// The label, one of the session's graph.
        label: Label,
        /// What is written, by variables that rise.
        values: Seq<(Var, Value)>,
    },
    /// The principal abandons the session.
    Abandon {
        /// The principal, which is honest.
        who: Name,
        /// The index of the session.
        session: u32,
    },
    /// The principal is given bytes.
    Deliver {
        /// The principal, which is honest.
        who: Name,
        /// What it is given.
        what: What,
    },
    /// A frame is made and recorded.
    Craft(HeldCraft),
}

/// What is delivered.
#[derive(Drop)]
pub enum What {
    /// A recorded frame.
    Frame {
        /// Its number, from 1.
        number: u32,
        /// What becomes of it first.
        change: Change,
    },
    /// Any bytes.
    Bytes(Vec<u8>),
}

/// What becomes of a recorded frame before it is delivered.
#[derive(Clone, Copy, PartialEq, Eq)]
pub enum Change {
    /// It stays as it is.
    Whole,
    /// The lowest bit of the byte at this offset changes; nothing does if there is no such byte.
    Flip(u32),
    /// Its first bytes are left, this many of them or all.
    Cut(u32),
}
