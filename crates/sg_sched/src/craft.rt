//! Frames that a compromised principal makes.
ghost use Rattle.std.specs.Prelude.{◌≡◌, IfOk};

use sg_base::{Label, Name, Opening, OutOfMemory, Role, Seq, Time};
use std::alloc::Global;
use std::marker::Model;

/// A frame to be made, in the words of its line. Commitments are held as the openings that they are made of.
#[derive(Drop)]
pub struct Craft {
    /// The index of the session in the list of those declared, from 0.
    pub session: u32,
    /// The sender.
    pub from: Role,
    /// The receiver, another role.
    pub to: Role,
    /// The cast, if the frame joins.
    pub join: Option<CraftJoin>,
    /// What the commitments of the items begin with, by variables that rise.
    pub know: Seq<Opening>,
    /// The items, at least one.
    pub items: Seq<CraftItem>,
    /// The openings, by variables that rise.
    pub openings: Seq<Opening>,
    /// Where the frame's tag comes from.
    pub seal: Source,
}

impl Model for Craft {
    ghost use Rattle.std.specs.Prelude.{map};
    ghost use Rattle.sg_protocol.specs.Schedule.{Craft};
    ghost use Rattle.sg_sched.specs.Format.Crafts.{source_of};

    ghost Value = { Craft };

    ghost view = { λ c. record {
      session = c.session;
      from = c.from;
      to = c.to;
      join = c.join;
      know = c.know;
      items = c.items;
      openings = c.openings;
      seal = source_of c.seal;
    } };
}

/// A craft on the heap: it is by far the largest of the steps, and there are few. A clause sees it as the craft.
#[derive(Drop)]
pub struct HeldCraft {
    craft: Box<Craft>,
}

impl Model for HeldCraft {
    ghost use Rattle.sg_protocol.specs.Schedule.{Craft};

    ghost Value = { Craft };

    ghost view = { λ h. h.craft.value };
}

impl HeldCraft {
    /// The craft, on the heap.
    pub fn new(alloc: Global, craft: Craft) -> Result<HeldCraft, OutOfMemory>
        ensures { IfOk result (λ h. h ≡ craft) }
    {
        Ok(HeldCraft {
            craft: Box::new(alloc, craft)?,
        })
    }

    /// The craft. It takes no memory.
    pub fn get(&self) -> &Craft
        ensures { result.now ≡ self.now }
    {
        self.craft.as_ref()
    }
}

/// Another nonce or other names for the cast of a crafted frame that joins.
#[derive(Drop)]
pub struct CraftJoin {
    /// The nonce, in the last eight of sixteen bytes, if it isn't the session's.
    pub nonce: Option<u64>,
    /// The names, 2 to 16, if they aren't the session's.
    pub names: Option<Seq<Name>>,
}

impl Model for CraftJoin {
    ghost use Rattle.sg_protocol.specs.Schedule.{CraftJoin};

    ghost Value = { CraftJoin };

    ghost view = { λ j. record { nonce = j.nonce; names = j.names } };
}

/// An item of a crafted frame.
#[derive(Drop)]
pub struct CraftItem {
    /// The label; its sender is the item's role.
    pub label: Label,
    /// The time.
    pub time: Time,
    /// The openings of its commitments, by variables that rise.
    pub delta: Seq<Opening>,
    /// Where the tag for each of these roles comes from; the roles rise.
    pub tags: Seq<(Role, Source)>,
}

impl Model for CraftItem {
    ghost use Rattle.std.specs.Prelude.{map};
    ghost use Rattle.sg_protocol.specs.Schedule.{CraftItem};
    ghost use Rattle.sg_sched.specs.Format.Crafts.{tag_of};

    ghost Value = { CraftItem };

    ghost view = { λ i. record { label = i.label; time = i.time; delta = i.delta; tags = map tag_of i.tags } };
}

/// Where a crafted tag comes from. If what is copied isn't there, it is 32 zero bytes.
#[derive(Drop)]
pub enum Source {
    /// It is made under the key of these two principals.
    Key(Name, Name),
    /// It is the tag for a role of an item of a recorded frame.
    CopyItem {
        /// The frame's number, from 1.
        frame: u32,
        /// The item's number, from 1; no frame has an item 0.
        item: u32,
        /// The role.
        role: Role,
    },
    /// It is the tag of a recorded frame.
    CopySeal {
        /// The frame's number, from 1.
        frame: u32,
    },
    /// It is 32 zero bytes.
    Zero,
}
