//! An input in memory.
ghost use Rattle.std.specs.Prelude.{◌≡◌, ◌↔◌, ◌≤◌, min, length, take, drop, IfOk, IsErr, IsTrue, OnErr};
ghost use Rattle.sg_base.specs.Memory.{new_plan, fails_next, counted, failed};
ghost use Rattle.sg_input.specs.Memory.{piece_bytes};

use crate::Input;
use sg_base::{Failed, FaultPlan};
use std::collections::VecDeque;
use std::marker::Model;

/// An input in memory. Its bytes come in pieces of given lengths, and then all at once. Its calls are counted from 1, and those of a given
/// list fail.
#[derive(Drop)]
pub struct MemInput {
    bytes: Vec<u8>,
    given: usize,
    pieces: VecDeque<u32>,
    plan: FaultPlan,
}

impl Model for MemInput {
    ghost use Rattle.std.specs.Prelude.{◌≤◌, drop, length};
    ghost use Rattle.sg_input.specs.Memory.{InputHeld};

    ghost Value = { InputHeld };

    ghost view = { λ m. record { bytes = drop m.given m.bytes.items; pieces = m.pieces.items; plan = m.plan } };

    ghost invariant = { λ m. m.given ≤ length m.bytes.items };
}

impl MemInput {
    /// An input of these bytes, with the lengths of the pieces in which the first of them come, and with the numbers of the calls that are
    /// to fail.
    pub fn new(bytes: Vec<u8>, pieces: Vec<u32>, fails: Vec<u32>) -> MemInput
        ensures { result ≡ record { bytes = bytes.items; pieces = pieces.items; plan = new_plan fails.items } }
    {
        MemInput {
            bytes,
            given: 0,
            pieces: VecDeque::from(pieces),
            plan: FaultPlan::new(fails),
        }
    }

    /// The bytes to come.
    pub fn bytes(&self) -> &[u8]
        ensures { result.now ≡ self.now.bytes }
    {
        &self.bytes[self.given..]
    }
}

impl Input for MemInput {
    ghost use Rattle.std.specs.Prelude.{Some};

    ghost faults = { λ m. m.plan.faults };

    ghost coming = { λ m. Some m.bytes };

    /// It gives at most the next piece, of which at least one byte, and fails at the calls that are to fail.
    fn read(&mut self, room: &mut [u8]) -> Result<usize, Failed>
        ensures cause { IsErr result ↔ IsTrue (fails_next self.old.plan) }
        ensures count { IfOk result (λ n. n ≡ min (length room.old) (min (piece_bytes self.old.pieces (length self.old.bytes)) (length self.old.bytes))) }
        ensures prefix { IfOk result (λ n. take n room.new ≡ take n self.old.bytes) }
        ensures ok { IfOk result (λ n. self.new ≡ record { bytes = drop n self.old.bytes; pieces = drop 1 self.old.pieces; plan = counted self.old.plan }) }
        ensures err { OnErr result (self.new ≡ record self.old { plan = failed self.old.plan }) }
    {
        self.plan.call(true)?;
        let left = self.bytes.len() - self.given;
        let piece = next_piece(&mut self.pieces, left);
        let count = room.len().min(piece.min(left));
        put_prefix(room, &self.bytes[self.given..self.given + count]);
        self.given += count;
        Ok(count)
    }
}

// Takes the length of the next piece off the list, if `all` bytes are to come.
fn next_piece(pieces: &mut VecDeque<u32>, all: usize) -> usize
    ensures piece { result ≡ piece_bytes pieces.old.items all }
    ensures taken { pieces.new.items ≡ drop 1 pieces.old.items }
{
    match pieces.pop_front() {
        Some(piece) => (piece as usize).max(1),
        None => all,
    }
}

// Writes bytes over the front of a room.
fn put_prefix(room: &mut [u8], bytes: &[u8])
    requires { length bytes.now ≤ length room.old }
    ensures { take (length bytes.now) room.new ≡ bytes.now }
{
    room[..bytes.len()].copy_from_slice(bytes);
}
