//! A link in memory.
ghost use Rattle.std.specs.Prelude.{◌≡◌, ◌↔◌, ◌<◌, ◌≤◌, ◌-◌, ◌++◌, ◌||◌, [], ◌∷◌, List, ℕ, map, nat_le, length, drop, vec_len, vec_capacity, None, IfOk, IfSome, IfNone, IfErr, IsErr, IsTrue, OnOk, OnErr};
ghost use Rattle.sg_base.specs.Memory.{new_plan, fails_next, counted, failed};

use super::plan::FaultPlan;
use crate::{Addr, Failed, Link, LinkFault, OutOfMemory, Sealed};
use std::alloc::Global;
use std::collections::VecDeque;
use std::marker::Model;

/// A link in memory with deliveries to come and room for some frames, which doesn't grow. Its calls are counted from 1, and those of a
/// given list fail.
#[derive(Drop)]
pub struct MemLink {
    bound: Option<Addr>,
    deliveries: VecDeque<Vec<u8>>,
    sent: Vec<(Addr, Vec<u8>)>,
    room: usize,
    plan: FaultPlan,
}

impl Model for MemLink {
    ghost use Rattle.std.specs.Prelude.{◌≤◌, map, length, vec_capacity};
    ghost use Rattle.sg_base.specs.Memory.{LinkHeld};

    ghost Value = { LinkHeld };

    ghost view = { λ l. record {
      bound = l.bound;
      deliveries = map (λ d. d.items) l.deliveries.items;
      sent = map (λ f. (f.0, f.1.items)) l.sent.items;
      room = l.room;
      plan = l.plan;
    } };

    ghost invariant = { λ l. (length l.sent.items ≤ l.room) × (l.room ≤ vec_capacity l.sent) };
}

impl MemLink {
    /// A link that waits nowhere yet, with these deliveries to come and room for `room` frames, with the numbers of the calls that are to
    /// fail.
    pub fn new(
        alloc: Global,
        deliveries: Vec<Vec<u8>>,
        room: u32,
        fails: Vec<u32>,
    ) -> Result<MemLink, OutOfMemory>
        ensures { IfOk result (λ l. l ≡ record {
          bound = None;
          deliveries = map (λ d. d.items) deliveries.items;
          sent = [];
          room = room;
          plan = new_plan fails.items;
        }) }
    {
        Ok(MemLink {
            bound: None,
            deliveries: VecDeque::from(deliveries),
            sent: Vec::with_capacity(alloc, room as usize)?,
            room: room as usize,
            plan: FaultPlan::new(fails),
        })
    }

    /// The frames that were sent, each with its address.
    pub fn frames(&self) -> &[(Addr, Vec<u8>)]
        ensures { map (λ f. (f.0, f.1.items)) result.now ≡ self.now.sent }
    {
        self.sent.as_slice()
    }
}

impl Link for MemLink {
    ghost use Rattle.std.specs.Prelude.{Some};

    ghost faults = { λ l. l.plan.faults };

    ghost bound = { λ l. l.bound };

    ghost deliveries = { λ l. Some l.deliveries };

    ghost sent = { λ l. Some l.sent };

    /// It fails at the calls that are to fail.
    fn open(&mut self, at: Addr) -> Result<(), Failed>
        ensures cause { IsErr result ↔ IsTrue (fails_next self.old.plan) }
        ensures ok { OnOk result (self.new ≡ record self.old { bound = Some at; plan = counted self.old.plan }) }
        ensures err { OnErr result (self.new ≡ record self.old { plan = failed self.old.plan }) }
    {
        self.plan.call(true)?;
        self.bound = Some(at);
        Ok(())
    }

    /// It fails at the calls that are to fail, and takes no memory.
    fn recv(&mut self, alloc: Global) -> Result<Option<Vec<u8>>, LinkFault>
        ensures cause { IsErr result ↔ IsTrue (fails_next self.old.plan) }
        ensures fault { IfErr result (λ e. e ≡ LinkFault.Failed) }
        ensures first { IfOk result (λ found. IfSome found (λ bytes. self.old.deliveries ≡ bytes.items ∷ drop 1 self.old.deliveries)) }
        ensures at_end { IfOk result (λ found. IfNone found (self.old.deliveries ≡ [])) }
        ensures ok { OnOk result (self.new ≡ record self.old { deliveries = drop 1 self.old.deliveries; plan = counted self.old.plan }) }
        ensures err { OnErr result (self.new ≡ record self.old { plan = failed self.old.plan }) }
    {
        let _ = alloc;
        match self.plan.call(true) {
            Ok(()) => Ok(self.deliveries.pop_front()),
            Err(_) => Err(LinkFault::Failed),
        }
    }

    /// It fails if there is no room and at the calls that are to fail.
    fn send(&mut self, to: Addr, frame: Sealed) -> Result<(), (Sealed, Failed)>
        ensures cause { IsErr result ↔ IsTrue (fails_next self.old.plan || nat_le self.old.room (length self.old.sent)) }
        ensures ok { OnOk result (self.new ≡ record self.old { sent = self.old.sent ++ (to, frame.1) ∷ []; plan = counted self.old.plan }) }
        ensures back { IfErr result (λ e. e.0 ≡ frame) }
        ensures err { OnErr result (self.new ≡ record self.old { plan = failed self.old.plan }) }
    {
        if let Err(failed) = self.plan.call(self.sent.len() < self.room) {
            return Err((frame, failed));
        }
        let (_, bytes) = frame.release();
        put_frame(&mut self.sent, to, bytes);
        Ok(())
    }
}

// Puts a frame at the end of a list that has room for it.
fn put_frame(sent: &mut Vec<(Addr, Vec<u8>)>, to: Addr, bytes: Vec<u8>)
    requires { vec_len sent.old < vec_capacity sent.old }
    ensures frames { sent.new.items ≡ sent.old.items ++ (to, bytes) ∷ [] }
    ensures room { vec_capacity sent.old ≤ vec_capacity sent.new }
{
    let _put = sent.push((to, bytes));
}
