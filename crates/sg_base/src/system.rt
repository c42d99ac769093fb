//! The files and the writers of the system. What they hold is not known: that a file is missing or too long, and which bytes
//! were written, is what the system says.
ghost use Rattle.std.specs.Prelude.{◌≡◌, None};

use crate::last_path::LastPath;
use crate::{Failed, FileFault, Files, Sink};
use std::alloc::Global;
use std::io::{ErrorKind, Read, Write};
use std::{fs, io, rt};

/// The files of the system.
#[derive(Drop)]
pub struct StdFiles<R: rt::Files> {
    rt: R,
    faults: u64,
    last: LastPath,
}

impl<R: rt::Files + Drop> StdFiles<R> {
    /// The files, of which none failed.
    pub fn new(rt: R) -> StdFiles<R>
        ensures { ⟦<StdFiles<R> as Files>⟧.faults result ≡ record { count = 0; last = None } }
    {
        StdFiles {
            rt,
            faults: 0,
            last: LastPath::new(),
        }
    }
}

// The first bytes of a file, at most one more than `max`.
fn read_prefix<R: rt::Files>(rt: &R, alloc: Global, name: &str, max: u32) -> io::Result<Vec<u8>>
where
    R::File: Drop,
{
    let file = fs::open(rt, name)?;
    let mut bytes = Vec::new(alloc);
    file.take(u64::from(max) + 1).read_to_end(&mut bytes)?;
    Ok(bytes)
}

impl<R: rt::Files + Drop> Files for StdFiles<R> {
    ghost use Rattle.std.specs.Prelude.{None};

    ghost faults = { λ f. record { count = f.faults; last = f.last } };

    ghost held = { λ _. None };

    fn read(&mut self, alloc: Global, name: &str, max: u32) -> Result<Option<Vec<u8>>, FileFault> {
        match read_prefix(&self.rt, alloc, name, max) {
            Ok(bytes) if bytes.len() > max as usize => Err(FileFault::TooLong),
            Ok(bytes) => Ok(Some(bytes)),
            Err(e) => match e.kind() {
                ErrorKind::NotFound => Ok(None),
                ErrorKind::OutOfMemory => Err(FileFault::OutOfMemory),
                _ => {
                    self.faults = self.faults.saturating_add(1);
                    self.last.put(name);
                    Err(FileFault::Failed)
                }
            },
        }
    }
}

/// A writer of the system. A write that is interrupted is made again.
#[derive(Drop)]
pub struct StdSink<W: Write> {
    writer: W,
    faults: u64,
}

impl<W: Write + Drop> StdSink<W> {
    /// A sink over a writer, with a count of faults of 0.
    pub fn new(writer: W) -> StdSink<W>
        ensures { ⟦<StdSink<W> as Sink>⟧.faults result ≡ 0 }
    {
        StdSink { writer, faults: 0 }
    }
}

// Writes the first bytes of a piece, and gives their number, which is 0 if the system failed.
fn write_prefix<W: Write>(writer: &mut W, piece: &[u8]) -> usize {
    for _ in 0..u64::MAX {
        match writer.write(piece) {
            Ok(count) => return count,
            Err(e) if e.kind() == ErrorKind::Interrupted => {}
            Err(_) => return 0,
        }
    }
    0
}

impl<W: Write> Sink for StdSink<W> {
    ghost use Rattle.std.specs.Prelude.{None};

    ghost faults = { λ s. s.faults };

    ghost written = { λ _. None };

    fn write(&mut self, piece: &[u8]) -> Result<usize, Failed> {
        let taken = write_prefix(&mut self.writer, piece);
        if taken == 0 || taken > piece.len() {
            self.faults = self.faults.saturating_add(1);
            return Err(Failed);
        }
        Ok(taken)
    }
}
