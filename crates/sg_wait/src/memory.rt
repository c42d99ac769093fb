//! A link in memory on which one waits with a limit of time.
ghost use Rattle.std.specs.Prelude.{◌≡◌, ◌↔◌, ◌+◌, ◌-◌, ◌<◌, ◌≤◌, ◌++◌, [], ◌∷◌, false, None, is_some, All, drop, map, length, vec_capacity, IfOk, IfErr, IfSome, IfNone, IsErr, IsTrue, OnOk, OnErr};
ghost use Rattle.std.specs.Option.{option_map};
ghost use Rattle.sg_base.specs.Memory.{new_plan, fails_next, counted, failed};
ghost use Rattle.sg_wait.specs.Waiting.{received, deliveries_of};
ghost use Rattle.sg_wait.specs.Memory.{fails_to_send};

use crate::{Coming, TimedLink};
use sg_base::{Addr, Failed, FaultPlan, Link, LinkFault, OutOfMemory, Sealed};
use std::alloc::Global;
use std::collections::VecDeque;
use std::marker::Model;

/// A link in memory with deliveries and silences to come. There is room for a given number of frames, each of a given number of bytes at
/// most, and nothing grows. Its calls are counted from 1, and those of a given list fail.
#[derive(Drop)]
pub struct MemTimedLink {
    bound: Option<Addr>,
    coming: VecDeque<Coming>,
    sent: Vec<(Addr, Vec<u8>)>,
    spare: Vec<Vec<u8>>,
    most: usize,
    plan: FaultPlan,
}

impl Model for MemTimedLink {
    ghost use Rattle.std.specs.Prelude.{◌≡◌, ◌+◌, ◌≤◌, [], All, map, length, vec_capacity};
    ghost use Rattle.sg_wait.specs.Memory.{TimedLinkHeld};

    ghost Value = { TimedLinkHeld };

    ghost view = { λ l. record {
      bound = l.bound;
      coming = l.coming.items;
      sent = map (λ f. (f.0, f.1.items)) l.sent.items;
      room = length l.spare.items;
      most = l.most;
      plan = l.plan;
    } };

    ghost invariant = { λ l. (length l.sent.items + length l.spare.items ≤ vec_capacity l.sent) × All (λ v. (v.items ≡ []) × (l.most ≤ vec_capacity v)) l.spare.items };
}

impl MemTimedLink {
    /// A link that waits nowhere yet, with this to come, room for `room` frames of at most `most` bytes each, and the numbers of the calls
    /// that are to fail.
    pub fn new(
        alloc: Global,
        coming: Vec<Coming>,
        room: u32,
        most: u32,
        fails: Vec<u32>,
    ) -> Result<MemTimedLink, OutOfMemory>
        ensures { IfOk result (λ l. l ≡ record {
          bound = None;
          coming = coming.items;
          sent = [];
          room = room;
          most = most;
          plan = new_plan fails.items;
        }) }
    {
        Ok(MemTimedLink {
            bound: None,
            coming: VecDeque::from(coming),
            sent: Vec::with_capacity(alloc, room as usize)?,
            spare: rooms(alloc, room, most)?,
            most: most as usize,
            plan: FaultPlan::new(fails),
        })
    }

    /// The frames that were sent, each with its address.
    pub fn frames(&self) -> &[(Addr, Vec<u8>)]
        ensures { map (λ f. (f.0, f.1.items)) result.now ≡ self.now.sent }
    {
        self.sent.as_slice()
    }

    // Waits at an address from now on.
    fn bind(&mut self, at: Addr) -> Result<(), Failed>
        ensures cause { IsErr result ↔ IsTrue (fails_next self.old.plan) }
        ensures ok { OnOk result (self.new ≡ record self.old { bound = Some at; plan = counted self.old.plan }) }
        ensures err { OnErr result (self.new ≡ record self.old { plan = failed self.old.plan }) }
    {
        self.plan.call(true)?;
        self.bound = Some(at);
        Ok(())
    }

    // The next delivery, with a limit or without one.
    fn next(&mut self, limited: bool) -> Result<Option<Vec<u8>>, LinkFault>
        ensures cause { IsErr result ↔ IsTrue (fails_next self.old.plan) }
        ensures fault { IfErr result (λ e. e ≡ LinkFault.Failed) }
        ensures found { IfOk result (λ found. option_map (λ bytes. bytes.items) found ≡ (received limited self.old.coming).0) }
        ensures ok { OnOk result (self.new ≡ record self.old { coming = (received limited self.old.coming).1; plan = counted self.old.plan }) }
        ensures err { OnErr result (self.new ≡ record self.old { plan = failed self.old.plan }) }
    {
        match self.plan.call(true) {
            Ok(()) => Ok(take_next(&mut self.coming, limited)),
            Err(_) => Err(LinkFault::Failed),
        }
    }

    // Puts a frame at the end of those that were sent.
    fn put(&mut self, to: Addr, frame: &[u8]) -> Result<(), Failed>
        ensures cause { IsErr result ↔ IsTrue (fails_to_send self.old frame.now) }
        ensures ok { OnOk result (self.new ≡ record self.old { sent = self.old.sent ++ (to, frame.now) ∷ []; room = self.old.room - 1; plan = counted self.old.plan }) }
        ensures err { OnErr result (self.new ≡ record self.old { plan = failed self.old.plan }) }
    {
        let has_room = !self.spare.is_empty() && frame.len() <= self.most;
        self.plan.call(has_room)?;
        match self.spare.pop() {
            Some(empty) => {
                put_last(&mut self.sent, (to, filled(empty, frame)));
                Ok(())
            }
            None => Err(Failed),
        }
    }
}

impl Link for MemTimedLink {
    ghost use Rattle.std.specs.Prelude.{Some};
    ghost use Rattle.sg_wait.specs.Waiting.{deliveries_of};

    ghost faults = { λ l. l.plan.faults };

    ghost bound = { λ l. l.bound };

    ghost deliveries = { λ l. Some (deliveries_of l.coming) };

    ghost sent = { λ l. Some l.sent };

    /// It fails at the calls that are to fail.
    fn open(&mut self, at: Addr) -> Result<(), Failed>
        ensures cause { IsErr result ↔ IsTrue (fails_next self.old.plan) }
        ensures ok { OnOk result (self.new ≡ record self.old { bound = Some at; plan = counted self.old.plan }) }
        ensures err { OnErr result (self.new ≡ record self.old { plan = failed self.old.plan }) }
    {
        self.bind(at)
    }

    /// It takes off the silences before the delivery. It fails at the calls that are to fail, and takes no memory.
    fn recv(&mut self, alloc: Global) -> Result<Option<Vec<u8>>, LinkFault>
        ensures cause { IsErr result ↔ IsTrue (fails_next self.old.plan) }
        ensures fault { IfErr result (λ e. e ≡ LinkFault.Failed) }
        ensures ok { OnOk result (self.new ≡ record self.old { coming = (received false self.old.coming).1; plan = counted self.old.plan }) }
        ensures err { OnErr result (self.new ≡ record self.old { plan = failed self.old.plan }) }
        ensures first { IfOk result (λ found. IfSome found (λ bytes. deliveries_of self.old.coming ≡ bytes.items ∷ drop 1 (deliveries_of self.old.coming))) }
        ensures at_end { IfOk result (λ found. IfNone found (deliveries_of self.old.coming ≡ [])) }
        ensures left { OnOk result (deliveries_of self.new.coming ≡ drop 1 (deliveries_of self.old.coming)) }
    {
        let _ = alloc;
        self.next(false)
    }

    /// It fails if there is no room for the frame and at the calls that are to fail.
    fn send(&mut self, to: Addr, frame: Sealed) -> Result<(), (Sealed, Failed)>
        ensures cause { IsErr result ↔ IsTrue (fails_to_send self.old frame.1) }
        ensures ok { OnOk result (self.new ≡ record self.old { sent = self.old.sent ++ (to, frame.1) ∷ []; room = self.old.room - 1; plan = counted self.old.plan }) }
        ensures back { IfErr result (λ e. e.0 ≡ frame) }
        ensures err { OnErr result (self.new ≡ record self.old { plan = failed self.old.plan }) }
    {
        match self.put(to, frame.bytes()) {
            Ok(()) => {
                let _ = frame.release();
                Ok(())
            }
            Err(failed) => Err((frame, failed)),
        }
    }
}

impl TimedLink for MemTimedLink {
    ghost use Rattle.std.specs.Prelude.{Some};

    ghost coming = { λ l. Some l.coming };

    /// It fails at the calls that are to fail.
    fn open_at(&mut self, at: Addr) -> Result<(), Failed>
        ensures cause { IsErr result ↔ IsTrue (fails_next self.old.plan) }
        ensures ok { OnOk result (self.new ≡ record self.old { bound = Some at; plan = counted self.old.plan }) }
        ensures err { OnErr result (self.new ≡ record self.old { plan = failed self.old.plan }) }
    {
        self.bind(at)
    }

    /// It fails at the calls that are to fail, and takes no memory.
    fn recv_within(
        &mut self,
        alloc: Global,
        within: Option<u32>,
    ) -> Result<Option<Vec<u8>>, LinkFault>
        ensures cause { IsErr result ↔ IsTrue (fails_next self.old.plan) }
        ensures fault { IfErr result (λ e. e ≡ LinkFault.Failed) }
        ensures found { IfOk result (λ found. option_map (λ bytes. bytes.items) found ≡ (received (is_some within) self.old.coming).0) }
        ensures ok { OnOk result (self.new ≡ record self.old { coming = (received (is_some within) self.old.coming).1; plan = counted self.old.plan }) }
        ensures err { OnErr result (self.new ≡ record self.old { plan = failed self.old.plan }) }
    {
        let _ = alloc;
        self.next(within.is_some())
    }

    /// It fails if there is no room for the frame and at the calls that are to fail.
    fn post(&mut self, to: Addr, frame: &[u8]) -> Result<(), Failed>
        ensures cause { IsErr result ↔ IsTrue (fails_to_send self.old frame.now) }
        ensures ok { OnOk result (self.new ≡ record self.old { sent = self.old.sent ++ (to, frame.now) ∷ []; room = self.old.room - 1; plan = counted self.old.plan }) }
        ensures err { OnErr result (self.new ≡ record self.old { plan = failed self.old.plan }) }
    {
        self.put(to, frame)
    }
}

// So many empty vectors, each with room for so many bytes.
fn rooms(alloc: Global, count: u32, most: u32) -> Result<Vec<Vec<u8>>, OutOfMemory>
    ensures count { IfOk result (λ spare. length spare.items ≡ count) }
    ensures each { IfOk result (λ spare. All (λ v. (v.items ≡ []) × (most ≤ vec_capacity v)) spare.items) }
{
    let mut spare = Vec::new(alloc);
    for _ in 0..count {
        spare.push(Vec::with_capacity(alloc, most as usize)?)?;
    }
    Ok(spare)
}

// Takes off what comes next, up to a delivery, or with a limit up to a silence.
fn take_next(coming: &mut VecDeque<Coming>, limited: bool) -> Option<Vec<u8>>
    ensures found { option_map (λ bytes. bytes.items) result ≡ (received limited coming.old.items).0 }
    ensures left { coming.new.items ≡ (received limited coming.old.items).1 }
{
    while let Some(next) = coming.pop_front() {
        match next {
            Coming::Delivery(bytes) => return Some(bytes.into_vec()),
            Coming::Silence if limited => return None,
            Coming::Silence => {}
        }
    }
    None
}

// The bytes of a frame, in the room of an empty vector.
fn filled(mut empty: Vec<u8>, frame: &[u8]) -> Vec<u8>
    requires none { empty.items ≡ [] }
    requires fits { length frame.now ≤ vec_capacity empty }
    ensures { result.items ≡ frame.now }
{
    let _ = empty.extend_from_slice(frame);
    empty
}

// Puts a frame at the end, if there is room.
fn put_last(sent: &mut Vec<(Addr, Vec<u8>)>, frame: (Addr, Vec<u8>))
    requires { length sent.old.items < vec_capacity sent.old }
    ensures items { sent.new.items ≡ sent.old.items ++ frame ∷ [] }
    ensures capacity { vec_capacity sent.old ≤ vec_capacity sent.new }
{
    let _ = sent.push(frame);
}
