//! Connections in memory.
ghost use Rattle.std.specs.Prelude.{◌≡◌, ◌↔◌, ◌<◌, ◌≤◌, ◌==◌, ◌||◌, ◌-◌, ◌++◌, [], ◌∷◌, ℕ, List, None, Some, false, nat_lt, not, drop, length, slice_index_or, vec_capacity, map, reverse, IfOk, IfErr, IfSome, IfNone, IsErr, IsTrue, OnOk, OnErr};
ghost use Rattle.std.specs.List.{list_any, remove};
ghost use Rattle.sg_base.specs.Memory.{new_plan, fails_next, counted, failed, one_more};
ghost use Rattle.sg_stream.specs.Counts.{no_faults};
ghost use Rattle.sg_stream.specs.Traffic.{without, after_take, after_connect, after_close};
ghost use Rattle.sg_stream.specs.Memory.{writer_of};

use crate::{ConnFaults, Conns};
use sg_base::{Addr, Failed, FaultPlan, LinkFault, MemSink, OutOfMemory, Seq, Sink};
use std::alloc::Global;
use std::collections::VecDeque;
use std::marker::Model;

/// The number of the connection for writing.
const WRITER: u8 = 255;

/// Connections in memory, with the pieces to come. One connection at a time is open for writing, with the number 255; there is room for a
/// given number of them, each with a given number of bytes, and nothing grows. All calls except `close` are counted from 1, and those of
/// a given list fail.
#[derive(Drop)]
pub struct MemConns {
    bound: Option<Addr>,
    coming: VecDeque<(u8, Seq<u8>)>,
    writer: Option<(Addr, MemSink)>,
    spare: Vec<MemSink>,
    closed: Vec<(Addr, MemSink)>,
    plan: FaultPlan,
    faults: ConnFaults,
}

impl Model for MemConns {
    ghost use Rattle.std.specs.Prelude.{◌≡◌, ◌+◌, ◌≤◌, ◌==◌, [], false, length, vec_capacity, All};
    ghost use Rattle.std.specs.List.{list_any};
    ghost use Rattle.sg_stream.specs.Memory.{ConnsHeld, all_given, number_of};

    ghost Value = { ConnsHeld };

    ghost view = { λ c. record {
      bound = c.bound;
      traffic = record { coming = c.coming.items; given = all_given c.writer c.closed.items; open_ones = number_of c.writer };
      room = length c.spare.items;
      plan = c.plan;
      faults = c.faults;
    } };

    ghost invariant = { λ c. (list_any (λ p. p.0 == 255) c.coming.items ≡ false) × (length c.closed.items + length (number_of c.writer) + length c.spare.items ≤ vec_capacity c.closed) × All (λ s. s.bytes ≡ []) c.spare.items };
}

impl MemConns {
    /// Connections with these pieces to come, each with its connection's number, which is below 255, an empty one where the connection
    /// ends; room for `connections` connections for writing, each with room for `room` bytes; and the numbers of the calls that are to
    /// fail.
    pub fn new(
        alloc: Global,
        pieces: Vec<(u8, Seq<u8>)>,
        connections: u32,
        room: u32,
        fails: Vec<u32>,
    ) -> Result<MemConns, OutOfMemory>
        requires { list_any (λ p. p.0 == 255) pieces.items ≡ false }
        ensures { IfOk result (λ c. c ≡ record {
          bound = None;
          traffic = record { coming = pieces.items; given = []; open_ones = [] };
          room = connections;
          plan = new_plan fails.items;
          faults = no_faults;
        }) }
    {
        let mut spare = Vec::new(alloc);
        for _ in 0..connections {
            spare.push(MemSink::new(alloc, room, Vec::new(alloc))?)?;
        }
        Ok(MemConns {
            bound: None,
            coming: VecDeque::from(pieces),
            writer: None,
            spare,
            closed: Vec::with_capacity(alloc, connections as usize)?,
            plan: FaultPlan::new(fails),
            faults: ConnFaults::none(),
        })
    }

    /// The connections that were closed after writing, each with its address and the bytes that were given.
    pub fn closed(&self) -> &[(Addr, MemSink)]
        ensures { self.now.traffic.open_ones ≡ [] → reverse (map writer_of result.now) ≡ self.now.traffic.given }
    {
        self.closed.as_slice()
    }
}

impl Conns for MemConns {
    ghost use Rattle.std.specs.Prelude.{Some};

    ghost faults = { λ c. c.faults };

    ghost bound = { λ c. c.bound };

    ghost held = { λ c. Some c.traffic };

    /// It fails at the calls that are to fail.
    fn open(&mut self, at: Addr) -> Result<(), Failed>
        ensures cause { IsErr result ↔ IsTrue (fails_next self.old.plan) }
        ensures ok { OnOk result (self.new ≡ record self.old { bound = Some at; plan = counted self.old.plan }) }
        ensures err { OnErr result (self.new ≡ record self.old { plan = failed self.old.plan; faults = record self.old.faults { opens = one_more self.old.faults.opens } }) }
    {
        if self.plan.call(true).is_err() {
            self.faults.opens = self.faults.opens.saturating_add(1);
            return Err(Failed);
        }
        self.bound = Some(at);
        Ok(())
    }

    /// It fails at the calls that are to fail, and takes no memory.
    fn take(&mut self, alloc: Global) -> Result<Option<(u8, Vec<u8>)>, LinkFault>
        ensures cause { IsErr result ↔ IsTrue (fails_next self.old.plan) }
        ensures fault { IfErr result (λ e. e ≡ LinkFault.Failed) }
        ensures first { IfOk result (λ found. IfSome found (λ p. self.old.traffic.coming ≡ (p.0, p.1.items) ∷ drop 1 self.old.traffic.coming)) }
        ensures at_end { IfOk result (λ found. IfNone found (self.old.traffic.coming ≡ [])) }
        ensures ok { OnOk result (self.new ≡ record self.old { traffic = after_take self.old.traffic; plan = counted self.old.plan }) }
        ensures err { OnErr result (self.new ≡ record self.old { plan = failed self.old.plan; faults = record self.old.faults { takes = one_more self.old.faults.takes } }) }
    {
        let _ = alloc;
        if self.plan.call(true).is_err() {
            self.faults.takes = self.faults.takes.saturating_add(1);
            return Err(LinkFault::Failed);
        }
        match self.coming.pop_front() {
            Some((conn, piece)) => Ok(Some((conn, piece.into_vec()))),
            None => Ok(None),
        }
    }

    fn close(&mut self, conn: u8)
        ensures { self.new ≡ record self.old { traffic = after_close conn self.old.traffic } }
    {
        if conn != WRITER {
            remove_pieces(&mut self.coming, conn);
            return;
        }
        if let Some(writer) = self.writer.take() {
            put_last(&mut self.closed, writer);
        }
    }

    /// It fails if a connection is open for writing, if there is no room for one, and at the calls that are to fail.
    fn connect(&mut self, to: Addr) -> Result<u8, Failed>
        ensures cause { IsErr result ↔ IsTrue (fails_next self.old.plan || nat_lt 0 (length self.old.traffic.open_ones) || not (nat_lt 0 self.old.room)) }
        ensures number { IfOk result (λ conn. conn ≡ 255) }
        ensures apart { OnOk result ((self.old.traffic.open_ones ≡ []) × (list_any (λ p. p.0 == 255) self.old.traffic.coming ≡ false)) }
        ensures ok { OnOk result (self.new ≡ record self.old { traffic = after_connect 255 to self.old.traffic; room = self.old.room - 1; plan = counted self.old.plan }) }
        ensures err { OnErr result (self.new ≡ record self.old { plan = failed self.old.plan; faults = record self.old.faults { connects = one_more self.old.faults.connects } }) }
    {
        let has_room = self.writer.is_none() && !self.spare.is_empty();
        if self.plan.call(has_room).is_err() {
            self.faults.connects = self.faults.connects.saturating_add(1);
            return Err(Failed);
        }
        match self.spare.pop() {
            Some(sink) => {
                self.writer = Some((to, sink));
                Ok(WRITER)
            }
            None => Err(Failed),
        }
    }

    /// It takes as many bytes as there is room for, and fails if there is none, if the connection is not open, and at the calls
    /// that are to fail.
    fn give(&mut self, conn: u8, piece: &[u8]) -> Result<usize, Failed> {
        if self.plan.call(true).is_ok() {
            match &mut self.writer {
                Some((_, sink)) if conn == WRITER => match sink.write(piece) {
                    Ok(count) => return Ok(count),
                    Err(_) => {}
                },
                _ => {}
            }
        }
        self.faults.gives = self.faults.gives.saturating_add(1);
        Err(Failed)
    }
}

// Puts a connection at the end, if there is room.
fn put_last(closed: &mut Vec<(Addr, MemSink)>, writer: (Addr, MemSink))
    requires { length closed.old.items < vec_capacity closed.old }
    ensures items { closed.new.items ≡ closed.old.items ++ writer ∷ [] }
    ensures capacity { vec_capacity closed.old ≤ vec_capacity closed.new }
{
    let _ = closed.push(writer);
}

// Removes the pieces of a connection, up to its end.
fn remove_pieces(pieces: &mut VecDeque<(u8, Seq<u8>)>, conn: u8)
    ensures { pieces.new.items ≡ without conn pieces.old.items }
{
    let mut at = 0;
    while at < pieces.len() {
        if pieces[at].0 != conn {
            at += 1;
        } else if remove_at(pieces, at) {
            return;
        }
    }
}

// Removes the piece at an index, and returns whether it is empty.
fn remove_at(pieces: &mut VecDeque<(u8, Seq<u8>)>, at: usize) -> bool
    requires { at < length pieces.old.items }
    ensures items { pieces.new.items ≡ remove pieces.old.items at }
    ensures empty { (d : ℕ × List ℕ) → result ≡ (length (slice_index_or pieces.old.items at d).1 == 0) }
{
    match pieces.remove(at) {
        Some((_, piece)) => piece.len() == 0,
        None => true,
    }
}
