//! Which calls of a disk in memory fail.
ghost use Rattle.std.specs.Prelude.{◌≡◌, ◌==◌, [], None};
ghost use Rattle.std.specs.List.{list_any};
ghost use Rattle.sg_base.specs.Memory.{one_more};
ghost use Rattle.sg_ledger.specs.Plan.{is_past, fate_of, after_fate};

use std::marker::Model;

// What becomes of a call.
#[derive(Clone, Copy, PartialEq, Eq)]
pub(crate) enum Fate {
    Goes,
    Fails,
    // It never reaches the disk.
    Stopped,
}

#[derive(Drop)]
pub(crate) struct DiskPlan {
    fails: Vec<u32>,
    stop: Option<u32>,
    calls: u64,
    faults: u64,
}

impl Model for DiskPlan {
    ghost use Rattle.sg_ledger.specs.Plan.{DiskPlan};

    ghost Value = { DiskPlan };

    ghost view = { λ p. record { fails = p.fails.items; stop = p.stop; calls = p.calls; faults = p.faults } };
}

impl DiskPlan {
    pub(crate) fn new(fails: Vec<u32>, stop: Option<u32>) -> DiskPlan
        ensures { result ≡ record { fails = fails.items; stop = stop; calls = 0; faults = 0 } }
    {
        DiskPlan {
            fails,
            stop,
            calls: 0,
            faults: 0,
        }
    }

    // Counts a call.
    pub(crate) fn call(&mut self, has_room: bool) -> Fate
        ensures fate { result ≡ fate_of self.old has_room }
        ensures plan { self.new ≡ after_fate self.old result }
    {
        let number = self.calls.saturating_add(1);
        self.calls = number;
        let fate = if is_past(self.stop, number) || !has_room {
            Fate::Stopped
        } else if is_listed(&self.fails, number) {
            Fate::Fails
        } else {
            Fate::Goes
        };
        if fate != Fate::Goes {
            self.faults = self.faults.saturating_add(1);
        }
        fate
    }

    // Counts a fault of a call that has no room.
    pub(crate) fn fault(&mut self)
        ensures { self.new ≡ record self.old { faults = one_more self.old.faults } }
    {
        self.faults = self.faults.saturating_add(1);
    }

    // No calls so far, and none that are to fail. It takes no memory.
    pub(crate) fn cleared(self) -> DiskPlan
        ensures { result ≡ record { fails = []; stop = None; calls = 0; faults = 0 } }
    {
        let mut fails = self.fails;
        fails.clear();
        DiskPlan::new(fails, None)
    }
}

fn is_past(stop: Option<u32>, number: u64) -> bool
    ensures { result ≡ is_past stop number }
{
    match stop {
        None => false,
        Some(last) => u64::from(last) < number,
    }
}

fn is_listed(fails: &[u32], number: u64) -> bool
    ensures { result ≡ list_any (λ n. n == number) fails.now }
{
    fails.iter().any(|n| u64::from(*n) == number)
}
