//! What a line of a schedule says, word by word.
use crate::craft::CraftJoin;
use sg_base::{Name, Seq};
use sg_parse::NameSet;
use std::marker::Model;

/// `VAR=VALUE`, the value as it is written.
#[derive(Drop)]
pub struct Assignment<'a> {
    /// The name of the variable.
    pub variable: Name,
    /// The written value, which spells one.
    pub value: &'a [u8],
}

impl<'a> Model for Assignment<'a> {
    ghost use Rattle.sg_sched.specs.Format.LineContents.{Assignment};

    ghost Value = { Assignment };

    ghost view = { λ g. record { variable = g.variable; value = g.value.now } };
}

/// What is delivered: a recorded frame, whole, changed in a bit or cut short, or bytes as hexadecimal digits.
#[derive(Drop)]
pub enum Delivered<'a> {
    /// The frame of this number.
    Frame(u32),
    /// The frame with a bit changed.
    Flipped {
        /// The frame's number, from 1.
        number: u32,
        /// The offset of the changed byte.
        at: u32,
    },
    /// The first bytes of the frame.
    Cut {
        /// The frame's number, from 1.
        number: u32,
        /// How many of them.
        len: u32,
    },
    /// The digits of one byte or more.
    Bytes(&'a [u8]),
}

/// `VAR=VALUE#K`, the value as it is written.
#[derive(Drop)]
pub struct Committed<'a> {
    /// The name of the variable.
    pub variable: Name,
    /// The written value, which spells one.
    pub value: &'a [u8],
    /// The number of the step whose confounder it is.
    pub step: u64,
}

impl<'a> Model for Committed<'a> {
    ghost use Rattle.sg_sched.specs.Format.LineContents.{Committed};

    ghost Value = { Committed };

    ghost view = { λ c. record { variable = c.variable; value = c.value.now; step = c.step } };
}

/// Where a crafted tag comes from.
#[derive(Drop)]
pub enum TagSource {
    /// It is made under a key.
    Key {
        /// One principal.
        one: Name,
        /// The other.
        two: Name,
    },
    /// It is that of an item.
    Item {
        /// The frame's number, from 1.
        frame: u32,
        /// The item's number, from 1; no frame has an item 0.
        item: u32,
        /// The name of the role.
        role: Name,
    },
    /// It is that of a frame.
    Seal {
        /// The frame's number, from 1.
        frame: u32,
    },
    /// It is 32 zero bytes.
    Zero,
}

/// `tag ROLE SOURCE`.
#[derive(Drop)]
pub struct TagLine {
    /// The name of the role.
    pub role: Name,
    /// Where its tag comes from.
    pub from: TagSource,
}

impl Model for TagLine {
    ghost use Rattle.sg_model.specs.Names.{Name};
    ghost use Rattle.sg_sched.specs.Format.LineContents.{TagSource};
    ghost use Rattle.sg_sched.specs.Format.Sources.{from_of};

    ghost Value = { Name × TagSource };

    ghost view = { λ t. (t.role, from_of t.from) };
}

/// `item LABEL TIME`, commitments and tags.
#[derive(Drop)]
pub struct ItemLine<'a> {
    /// The name of the label.
    pub label: Name,
    /// The time.
    pub time: u32,
    /// The commitments.
    pub delta: Seq<Committed<'a>>,
    /// The tags.
    pub tags: Seq<TagLine>,
}

impl<'a> Model for ItemLine<'a> {
    ghost use Rattle.sg_sched.specs.Format.LineContents.{ItemContent};

    ghost Value = { ItemContent };

    ghost view = { λ i. record { label = i.label; time = i.time; delta = i.delta; tags = i.tags } };
}

/// The words of a craft.
#[derive(Drop)]
pub struct CraftLine<'a> {
    /// The name of the session.
    pub session: Name,
    /// The name of the sender's role.
    pub from: Name,
    /// The name of the receiver's role.
    pub to: Name,
    /// What the frame joins with, if it joins.
    pub join: Option<CraftJoin>,
    /// What the commitments of the items begin with.
    pub know: Seq<Committed<'a>>,
    /// The items.
    pub items: Seq<ItemLine<'a>>,
    /// The openings.
    pub openings: Seq<Committed<'a>>,
    /// Where the frame's tag comes from.
    pub seal: TagSource,
}

impl<'a> Model for CraftLine<'a> {
    ghost use Rattle.sg_sched.specs.Format.LineContents.{CraftContent};
    ghost use Rattle.sg_sched.specs.Format.Sources.{from_of};

    ghost Value = { CraftContent };

    ghost view = { λ c. record {
      session = c.session;
      from = c.from;
      to = c.to;
      join = c.join;
      know = c.know;
      items = c.items;
      openings = c.openings;
      seal = from_of c.seal;
    } };
}

/// What a line says: that a block begins, a declaration, or a step with the names that it uses.
#[derive(Drop)]
pub enum Line<'a> {
    /// `graph {`: a block begins.
    Block,
    /// An edge of the graph `pair`.
    Edge {
        /// The name of the label.
        label: Name,
        /// The number of the node that it leaves.
        from: u8,
        /// The number of the node to which it leads.
        to: u8,
    },
    /// The principal is honest.
    Honest(Name),
    /// The key of two principals.
    Key {
        /// One principal.
        one: Name,
        /// The other.
        two: Name,
        /// The 64 digits.
        digits: &'a [u8],
    },
    /// A session.
    Session {
        /// Its name.
        name: Name,
        /// The name of its graph.
        graph: Name,
        /// Its nonce.
        nonce: u64,
        /// Its principals, in the order of the roles.
        names: NameSet,
        /// The version of its frames, 1 or 2.
        version: u8,
    },
    /// The principal starts the session.
    Start {
        /// The principal.
        who: Name,
        /// The name of the session.
        session: Name,
    },
    /// The principal acts in the session.
    Act {
        /// The principal.
        who: Name,
        /// The name of the session.
        session: Name,
        /// The name of the label.
        label: Name,
        /// What is written.
        values: Seq<Assignment<'a>>,
    },
    /// The principal abandons the session.
    Abandon {
        /// The principal.
        who: Name,
        /// The name of the session.
        session: Name,
    },
    /// The principal is given bytes.
    Deliver {
        /// The principal.
        who: Name,
        /// What it is given.
        what: Delivered<'a>,
    },
    /// A frame is made.
    Craft(CraftLine<'a>),
}
