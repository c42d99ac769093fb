//! The key that two principals share.
use sg_base::Name;
use std::marker::Model;

/// The 32-byte key of two different principals. It has no `Debug`, which would print the key.
#[derive(Drop)]
pub struct PairKey {
    /// One of them.
    pub one: Name,
    /// The other one.
    pub two: Name,
    /// Their key.
    pub key: [u8; 32],
}

impl Model for PairKey {
    ghost use Rattle.sg_protocol.specs.Schedule.{PairKey};

    ghost Value = { PairKey };

    ghost view = { λ k. record { one = k.one; two = k.two; key = k.key } };
}
