//! What a craft has to work with.
use crate::PairKeys;
use sg_base::{Seq, Sid};
use sg_crypt::Cast;
use sg_graph::Graph;
use std::marker::Model;

/// What a craft has to work with.
#[derive(Drop)]
pub struct Means<'w> {
    /// The graph of the craft's session.
    pub graph: &'w Graph,
    /// The cast of the session.
    pub cast: &'w Cast,
    /// The session.
    pub sid: &'w Sid,
    /// The keys of pairs of principals.
    pub keys: &'w PairKeys,
    /// The frames that were recorded, in order.
    pub frames: &'w [Seq<u8>],
}

impl<'w> Model for Means<'w> {
    ghost use Rattle.sg_craft.specs.Means.{Means};

    ghost Value = { Means };

    ghost view = { λ m. record {
      graph = m.graph.now;
      cast = m.cast.now;
      sid = m.sid.now;
      keys = m.keys.now;
      frames = m.frames.now;
    } };
}
