//! Which calls of an object in memory fail, and how many did.
ghost use Rattle.std.specs.Prelude.{◌≡◌, ◌↔◌, ◌==◌, ◌||◌, not, IsErr, IsTrue, OnOk, OnErr};
ghost use Rattle.std.specs.List.{list_any};
ghost use Rattle.sg_base.specs.Memory.{new_plan, fails_next, counted, failed, one_more};

use crate::Failed;
use std::marker::Model;

/// The numbers of the calls that are to fail, counted from 1, with the number of calls and of faults so far.
#[derive(Drop)]
pub struct FaultPlan {
    fails: Vec<u32>,
    calls: u64,
    faults: u64,
}

impl Model for FaultPlan {
    ghost use Rattle.sg_base.specs.Memory.{FaultPlan};

    ghost Value = { FaultPlan };

    ghost view = { λ p. record { fails = p.fails.items; calls = p.calls; faults = p.faults } };
}

impl FaultPlan {
    /// A plan before the first call. The calls of these numbers are to fail.
    pub fn new(fails: Vec<u32>) -> FaultPlan
        ensures { result ≡ new_plan fails.items }
    {
        FaultPlan {
            fails,
            calls: 0,
            faults: 0,
        }
    }

    /// Counts a call, which fails if it is on the list or if there is no room for it.
    pub fn call(&mut self, has_room: bool) -> Result<(), Failed>
        ensures cause { IsErr result ↔ IsTrue (fails_next self.old || not has_room) }
        ensures ok { OnOk result (self.new ≡ counted self.old) }
        ensures err { OnErr result (self.new ≡ failed self.old) }
    {
        let number = self.calls.saturating_add(1);
        self.calls = number;
        if has_room && !is_listed(&self.fails, number) {
            return Ok(());
        }
        self.faults = self.faults.saturating_add(1);
        Err(Failed)
    }

    /// Counts a fault of a call that was counted.
    pub fn fault(&mut self)
        ensures { self.new ≡ record self.old { faults = one_more self.old.faults } }
    {
        let faults = self.faults.saturating_add(1);
        self.faults = faults;
    }
}

fn is_listed(fails: &[u32], number: u64) -> bool
    ensures { result ≡ list_any (λ n. n == number) fails.now }
{
    for fail in fails {
        if u64::from(*fail) == number {
            return true;
        }
    }
    false
}
