//! A file of the system as a disk. It tells its name and nothing of its bytes: what the file holds, and what a crash leaves of it, is what
//! the system says.
//!
//! One process has the file at a time. `open` takes the advisory lock on the whole file (flock(2)), and it is kept until the process
//! ends, however it ends; while another process has it, `open` fails.
ghost use Rattle.std.specs.Prelude.{◌≡◌, ◌≤◌, None, length, IfOk};
ghost use Rattle.sg_base.specs.Outside.{HasRisen};

use crate::bound::Bound;
use crate::{Disk, DiskFault};
use sg_base::{Failed, OutOfMemory};
use std::alloc::Global;
use std::fs::{File, OpenFile, OpenOptions};
use std::io::{Read, Seek, SeekFrom, Write};
use std::{fs, io, rt};

/// A file of the system, once it is opened.
#[derive(Drop)]
pub struct FileDisk<R: rt::Files<File = File>> {
    rt: R,
    file: Option<File>,
    bound: Bound,
    faults: u64,
}

impl<R: rt::Files<File = File> + Drop> FileDisk<R> {
    /// No file yet, and a count of faults of 0.
    pub fn new(rt: R) -> FileDisk<R>
        ensures faults { ⟦<FileDisk<R> as Disk>⟧.faults result ≡ 0 }
        ensures bound { ⟦<FileDisk<R> as Disk>⟧.bound result ≡ None }
    {
        FileDisk {
            rt,
            file: None,
            bound: Bound::new(),
            faults: 0,
        }
    }

    // Counts a fault.
    fn fault(&mut self) -> Failed
        ensures never_falls { ⟦<FileDisk<R> as Disk>⟧.faults self.old ≤ ⟦<FileDisk<R> as Disk>⟧.faults self.new }
        ensures risen { HasRisen (⟦<FileDisk<R> as Disk>⟧.faults self.old) (⟦<FileDisk<R> as Disk>⟧.faults self.new) }
        ensures kept_bound { ⟦<FileDisk<R> as Disk>⟧.bound self.new ≡ ⟦<FileDisk<R> as Disk>⟧.bound self.old }
    {
        self.faults = self.faults.saturating_add(1);
        Failed
    }
}

// The folder that a file of a name is in.
fn folder_of(name: &str) -> &str {
    match name.rsplit_once('/') {
        None => ".",
        Some(("", _)) => "/",
        Some((folder, _)) => folder,
    }
}

// Opens a file, which is made if it is missing, takes its lock, and brings its name to the disk.
fn open_file<R: rt::Files<File = File>>(rt: &R, name: &str) -> io::Result<File> {
    let file = OpenOptions::new()
        .read(true)
        .write(true)
        .create(true)
        .open(rt, name)?;
    file.try_lock()?;
    fs::open(rt, folder_of(name))?.sync_all()?;
    Ok(file)
}

fn size_of_file<F: OpenFile>(file: &F) -> io::Result<u32> {
    let len = file.metadata()?.len();
    Ok(u32::try_from(len).unwrap_or(u32::MAX))
}

fn read_at<F: Read + Seek>(file: &mut F, at: u32, bytes: &mut [u8]) -> io::Result<()> {
    file.seek(SeekFrom::Start(u64::from(at)))?;
    file.read_exact(bytes)
}

fn write_at<F: Write + Seek>(file: &mut F, at: u32, bytes: &[u8]) -> io::Result<()> {
    file.seek(SeekFrom::Start(u64::from(at)))?;
    file.write_all(bytes)
}

impl<R: rt::Files<File = File> + Drop> Disk for FileDisk<R> {
    ghost use Rattle.std.specs.Prelude.{None};
    ghost use Rattle.sg_ledger.specs.Laws.{never_seen};

    ghost faults = { λ d. d.faults };

    ghost bound = { λ d. d.bound };

    ghost seen = { λ _. None };

    ghost may_leave = { λ _ _. ⊥ };

    ghost moment = { λ _. 0 };

    ghost left_since = { λ _ _ _. ⊥ };

    ghost read_is_image = { λ _ file is. never_seen file is };

    ghost is_seen = { λ _ _ left. absurd left };

    ghost counts_now = { λ _ _ _ _ left. left };

    ghost only_now = { λ _ _ left. left };

    /// The name that it opens is on the disk too once it answers Ok. It fails too for a name of more than 4,095 bytes, which is longer than
    /// a path may be.
    fn open(&mut self, name: &str) -> Result<(), Failed> {
        if self.bound.has_room_for(name)
            && let Ok(file) = open_file(&self.rt, name)
        {
            self.file = Some(file);
            self.bound.put(name);
            return Ok(());
        }
        Err(self.fault())
    }

    /// A file of 4 GiB or more has the greatest length that there is.
    fn size(&mut self) -> Result<u32, Failed> {
        if let Some(file) = &self.file
            && let Ok(size) = size_of_file(file)
        {
            return Ok(size);
        }
        Err(self.fault())
    }

    fn read(&mut self, alloc: Global, at: u32, count: u32) -> Result<Vec<u8>, DiskFault> {
        let Ok(mut bytes) = zeros(alloc, count as usize) else {
            return Err(DiskFault::OutOfMemory);
        };
        if let Some(file) = &mut self.file
            && read_at(file, at, &mut bytes).is_ok()
        {
            return Ok(bytes);
        }
        let Failed = self.fault();
        Err(DiskFault::Failed)
    }

    fn write(&mut self, at: u32, bytes: &[u8]) -> Result<(), Failed> {
        if let Some(file) = &mut self.file
            && write_at(file, at, bytes).is_ok()
        {
            return Ok(());
        }
        Err(self.fault())
    }

    fn sync(&mut self) -> Result<(), Failed> {
        // The bytes, and the length if it changed: all that a read needs.
        if let Some(file) = &self.file
            && file.sync_data().is_ok()
        {
            return Ok(());
        }
        Err(self.fault())
    }
}

fn zeros(alloc: Global, count: usize) -> Result<Vec<u8>, OutOfMemory>
    ensures { IfOk result (λ bytes. length bytes.items ≡ count) }
{
    let mut bytes = Vec::new(alloc);
    bytes.resize(count, 0)?;
    Ok(bytes)
}
