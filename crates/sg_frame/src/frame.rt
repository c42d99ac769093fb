//! What one role sends to another.
use crate::item::Item;
use sg_base::{Opening, Role, Seq, Sid, Tag};
use sg_crypt::SharedCast;
use std::marker::Model;

/// What one role of a session sends to another. With its cast it joins; without it, it continues.
#[derive(Drop)]
pub struct Frame {
    /// The version of the texts under its tags, 1 or 2.
    pub version: u8,
    /// The session.
    pub sid: Sid,
    /// The role that sends it.
    pub sender: Role,
    /// The role that receives it.
    pub receiver: Role,
    /// The cast of the session, in a frame that joins.
    pub join: Option<SharedCast>,
    /// What the sender has seen of the session, at least one item; the last is its own step.
    pub items: Seq<Item>,
    /// The openings, of variables that rise strictly.
    pub openings: Seq<Opening>,
    /// The tag of the whole frame. In version 2 its last sixteen bytes are zero, and are not sent.
    pub tag: Tag,
}

impl Model for Frame {
    ghost use Rattle.sg_protocol.specs.Frame.{Frame};

    ghost Value = { Frame };

    ghost view = { λ f. record {
      version = f.version;
      sid = f.sid;
      sender = f.sender;
      receiver = f.receiver;
      join = f.join;
      items = f.items;
      openings = f.openings;
      tag = f.tag;
    } };
}
