//! A disk in memory.
ghost use Rattle.std.specs.Prelude.{◌≡◌, ◌↔◌, ◌<◌, ◌≤◌, [], None, refl, nat_lt, length, IfOk, IsOk, OnErr, OnOk};
ghost use Rattle.sg_ledger.specs.Disk.{Elapses};
ghost use Rattle.sg_ledger.specs.Laws.{seen_is_image, now_counts, now_only};
ghost use Rattle.sg_ledger.specs.Memory.{platter, picked, IsImage, LeftSince};
ghost use Rattle.sg_ledger.specs.Plan.{fate_of, after_fate};
ghost use Rattle.sg_ledger.specs.declared.plan.Fate.TheVariants.{Goes};

use crate::bound::Bound;
use crate::medium::Medium;
use crate::plan::{DiskPlan, Fate};
use crate::{Disk, DiskCall, DiskFault};
use sg_base::{Failed, OutOfMemory};
use std::alloc::Global;
use std::marker::Model;

/// A disk in memory with one file, which is empty at first. Its file and its images are known at each moment, by a record of its calls, and
/// the name that it was opened by; each name is that of the one file.
///
/// It has room for a given number of bytes in the file and as many written in all, and for a given number of calls, and doesn't grow.
/// Its calls are counted from 1. Those of a given list fail; a write among them leaves its range to chance. After a given number of
/// calls it stops, as when the power fails: every later call fails, and none reaches the disk. So does a call for which the record
/// has no room; a write past the room of bytes fails and leaves the file as it was, and `open` fails for a name of more than 4,095 bytes.
#[derive(Drop)]
pub struct MemDisk {
    bound: Bound,
    medium: Medium,
    plan: DiskPlan,
}

impl Model for MemDisk {
    ghost use Rattle.sg_ledger.specs.Model.{DiskHeld};

    ghost Value = { DiskHeld };

    ghost view = { λ d. record { bound = d.bound; medium = d.medium; plan = d.plan } };
}

impl MemDisk {
    /// An empty disk with room for `room` bytes and `calls` calls, the numbers of the calls that are to fail, and the number of calls after
    /// which every call fails, if there is one.
    pub fn new(
        alloc: Global,
        room: u32,
        calls: u32,
        fails: Vec<u32>,
        stop: Option<u32>,
    ) -> Result<MemDisk, OutOfMemory>
        ensures { IfOk result (λ d. d ≡ record {
          bound = None;
          medium = record { start = []; calls = []; written = []; room = room; most = calls };
          plan = record { fails = fails.items; stop = stop; calls = 0; faults = 0 };
        }) }
    {
        Ok(MemDisk {
            bound: Bound::new(),
            medium: Medium::new(alloc, room, calls)?,
            plan: DiskPlan::new(fails, stop),
        })
    }

    /// The bytes of the file as a read gives them.
    pub fn bytes(&self) -> &[u8]
        ensures { result.now ≡ (platter self.now.medium).seen }
    {
        self.medium.bytes()
    }

    /// The calls so far that reached the disk.
    pub fn calls(&self) -> &[DiskCall]
        ensures { result.now ≡ self.now.medium.calls }
    {
        self.medium.calls()
    }

    /// A disk whose file is one of the images: the bytes at the last sync, with the next of the picks for each byte of each range that
    /// was written since, in the order of the writes, or zero past their end. It is bound to no name, and has the same room, an empty
    /// record, no calls that are to fail and no stop. It takes no memory.
    pub fn crash(self, picks: &[u8]) -> MemDisk
        ensures image { IsImage (platter self.medium) (platter result.medium).seen }
        ensures picked { (platter result.medium).seen ≡ picked (platter self.medium).synced (platter self.medium).tears picks.now }
        ensures bound { result.bound ≡ None }
        ensures calls { result.medium.calls ≡ [] }
        ensures room { result.medium.room ≡ self.medium.room }
        ensures most { result.medium.most ≡ self.medium.most }
        ensures plan { result.plan ≡ record { fails = []; stop = None; calls = 0; faults = 0 } }
    {
        let MemDisk { medium, plan, .. } = self;
        MemDisk {
            bound: Bound::new(),
            medium: medium.crash(picks),
            plan: plan.cleared(),
        }
    }

    // A call that changes nothing.
    fn keep(&mut self) -> Result<(), Failed>
        ensures cause { IsOk result ↔ (fate_of self.old.plan (nat_lt (length self.old.medium.calls) self.old.medium.most) ≡ Goes) }
        ensures plan { self.new.plan ≡ after_fate self.old.plan (fate_of self.old.plan (nat_lt (length self.old.medium.calls) self.old.medium.most)) }
        ensures bound { self.new.bound ≡ self.old.bound }
        ensures state { platter self.new.medium ≡ platter self.old.medium }
        ensures time { Elapses (length self.old.medium.calls) (length self.new.medium.calls) (LeftSince self.old.medium) (LeftSince self.new.medium) (IsImage (platter self.new.medium)) }
    {
        match self.plan.call(self.medium.has_room_for_a_call()) {
            Fate::Goes => {
                self.medium.keep();
                Ok(())
            }
            Fate::Fails => {
                self.medium.keep();
                Err(Failed)
            }
            Fate::Stopped => Err(Failed),
        }
    }
}

impl Disk for MemDisk {
    ghost use Rattle.std.specs.Prelude.{Some};

    ghost faults = { λ d. d.plan.faults };

    ghost bound = { λ d. d.bound };

    ghost seen = { λ d. Some (platter d.medium).seen };

    ghost may_leave = { λ d image. IsImage (platter d.medium) image };

    ghost moment = { λ d. length d.medium.calls };

    ghost left_since = { λ d t image. LeftSince d.medium t image };

    ghost read_is_image = { λ d file is. seen_is_image d.medium file is };

    ghost is_seen = { λ d image left. ((platter d.medium).seen, refl) };

    ghost counts_now = { λ d t image le left. now_counts d.medium t image le left };

    ghost only_now = { λ d image left. now_only d.medium image left };

    /// The file is the same, whatever the name.
    fn open(&mut self, name: &str) -> Result<(), Failed> {
        self.keep()?;
        if !self.bound.has_room_for(name) {
            self.plan.fault();
            return Err(Failed);
        }
        self.bound.put(name);
        Ok(())
    }

    fn size(&mut self) -> Result<u32, Failed> {
        self.keep()?;
        Ok(self.medium.bytes().len() as u32)
    }

    fn read(&mut self, alloc: Global, at: u32, count: u32) -> Result<Vec<u8>, DiskFault> {
        if self.keep().is_err() {
            return Err(DiskFault::Failed);
        }
        let at = at as usize;
        match copied(alloc, &self.medium.bytes()[at..at + count as usize]) {
            Ok(bytes) => Ok(bytes),
            Err(_) => Err(DiskFault::OutOfMemory),
        }
    }

    fn write(&mut self, at: u32, bytes: &[u8]) -> Result<(), Failed> {
        let fits = self.medium.has_room_for(at, bytes.len());
        match self.plan.call(self.medium.has_room_for_a_call()) {
            Fate::Goes if fits => {
                self.medium.write(at, bytes);
                Ok(())
            }
            Fate::Goes => {
                self.plan.fault();
                self.medium.keep();
                Err(Failed)
            }
            Fate::Fails if fits => {
                self.medium.tear(at, bytes.len() as u32);
                Err(Failed)
            }
            Fate::Fails => {
                self.medium.keep();
                Err(Failed)
            }
            Fate::Stopped => Err(Failed),
        }
    }

    fn sync(&mut self) -> Result<(), Failed> {
        match self.plan.call(self.medium.has_room_for_a_call()) {
            Fate::Goes => {
                self.medium.sync();
                Ok(())
            }
            Fate::Fails => {
                self.medium.keep();
                Err(Failed)
            }
            Fate::Stopped => Err(Failed),
        }
    }
}

fn copied(alloc: Global, bytes: &[u8]) -> Result<Vec<u8>, OutOfMemory>
    ensures { IfOk result (λ copy. copy.items ≡ bytes.now) }
{
    let mut copy = Vec::new(alloc);
    copy.extend_from_slice(bytes)?;
    Ok(copy)
}
