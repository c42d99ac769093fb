//! A sink in memory.
ghost use Rattle.std.specs.Prelude.{◌≡◌, ◌↔◌, ◌<◌, ◌≤◌, ◌-◌, ◌++◌, ◌||◌, [], nat_le, min, length, take, IfOk, IsErr, IsTrue, OnErr};
ghost use Rattle.sg_base.specs.Outside.{HasRisen, Appends};
ghost use Rattle.sg_base.specs.Memory.{new_plan, fails_next, counted, failed};

use super::plan::FaultPlan;
use crate::{Failed, OutOfMemory, Sink};
use std::alloc::Global;
use std::marker::Model;

/// A sink in memory with room for some bytes, which doesn't grow. Its calls are counted from 1, and those of a given list fail.
#[derive(Drop)]
pub struct MemSink {
    bytes: Vec<u8>,
    room: usize,
    plan: FaultPlan,
}

impl Model for MemSink {
    ghost use Rattle.std.specs.Prelude.{◌≤◌, length, vec_capacity};
    ghost use Rattle.sg_base.specs.Memory.{SinkHeld};

    ghost Value = { SinkHeld };

    ghost view = { λ s. record { bytes = s.bytes.items; room = s.room; plan = s.plan } };

    ghost invariant = { λ s. (length s.bytes.items ≤ s.room) × (s.room ≤ vec_capacity s.bytes) };
}

impl MemSink {
    /// An empty sink with room for `room` bytes, with the numbers of the calls that are to fail.
    pub fn new(alloc: Global, room: u32, fails: Vec<u32>) -> Result<MemSink, OutOfMemory>
        ensures { IfOk result (λ s. s ≡ record { bytes = []; room = room; plan = new_plan fails.items }) }
    {
        Ok(MemSink {
            bytes: Vec::with_capacity(alloc, room as usize)?,
            room: room as usize,
            plan: FaultPlan::new(fails),
        })
    }

    /// The bytes that were written.
    pub fn bytes(&self) -> &[u8]
        ensures { result.now ≡ self.now.bytes }
    {
        self.bytes.as_slice()
    }
}

impl Sink for MemSink {
    ghost use Rattle.std.specs.Prelude.{Some};

    ghost faults = { λ s. s.plan.faults };

    ghost written = { λ s. Some s.bytes };

    /// It takes as many bytes as there is room for, and fails if there is none and at the calls that are to fail.
    fn write(&mut self, piece: &[u8]) -> Result<usize, Failed>
        ensures cause { IsErr result ↔ IsTrue (fails_next self.old.plan || nat_le self.old.room (length self.old.bytes)) }
        ensures count { IfOk result (λ n. n ≡ min (length piece.now) (self.old.room - length self.old.bytes)) }
        ensures ok { IfOk result (λ n. self.new ≡ record { bytes = self.old.bytes ++ take n piece.now; room = self.old.room; plan = counted self.old.plan }) }
        ensures err { OnErr result (self.new ≡ record self.old { plan = failed self.old.plan }) }
    {
        let left = self.room - self.bytes.len();
        self.plan.call(left > 0)?;
        let count = piece.len().min(left);
        match self.bytes.extend_from_slice(&piece[..count]) {
            Ok(()) => Ok(count),
            Err(_) => Err(Failed),
        }
    }
}
