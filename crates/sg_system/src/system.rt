//! The standard descriptors of the system.
ghost use Rattle.std.specs.Prelude.{◌≡◌};

use crate::Descriptors;
use sg_base::Failed;
use std::fs::File;
use std::os::fd::{AsFd, AsRawFd, IntoRawFd};
use std::rt;

/// The number of Linux for the error of a descriptor that is not open (EBADF; POSIX.1-2017, `errno.h`).
const NOT_OPEN: i32 = 9;

/// The standard descriptors of this process: standard input, output and error. Which are free is not known.
#[derive(Drop)]
pub struct StdDescriptors<R: rt::Files<File = File>, I: AsFd, O: AsFd, E: AsFd> {
    rt: R,
    input: I,
    output: O,
    error: E,
    faults: u64,
}

impl<
    R: rt::Files<File = File> + Drop,
    I: AsFd + Drop,
    O: AsFd + Drop,
    E: AsFd + Drop,
> StdDescriptors<R, I, O, E> {
    /// The descriptors of these three, with a count of faults of 0.
    pub fn new(rt: R, input: I, output: O, error: E) -> StdDescriptors<R, I, O, E>
        ensures { ⟦<StdDescriptors<R, I, O, E> as Descriptors>⟧.faults result ≡ 0 }
    {
        StdDescriptors {
            rt,
            input,
            output,
            error,
            faults: 0,
        }
    }
}

// Whether the descriptor is open. One that can't be copied for want of room is.
fn is_open<D: AsFd>(descriptor: &D) -> bool {
    match descriptor.as_fd().try_clone_to_owned() {
        Ok(_) => true,
        Err(e) => e.raw_os_error() != Some(NOT_OPEN),
    }
}

// Opens the null device for reading at the lowest free descriptor, and keeps it open if that is a standard one. Whether it is.
fn take_lowest<R: rt::Files<File = File>>(rt: &R) -> bool {
    match File::open(rt, "/dev/null") {
        Ok(file) if file.as_raw_fd() <= 2 => {
            // It is never closed.
            let _ = file.into_raw_fd();
            true
        }
        _ => false,
    }
}

impl<R: rt::Files<File = File> + Drop, I: AsFd + Drop, O: AsFd + Drop, E: AsFd + Drop> Descriptors
    for StdDescriptors<R, I, O, E> {
    ghost use Rattle.std.specs.Prelude.{None};
    ghost use Rattle.sg_system.specs.Laws.{never_seen};

    ghost faults = { λ d. d.faults };

    ghost free = { λ _. None };

    ghost three = { λ _ all is. never_seen all is };

    fn are_open(&self) -> bool {
        is_open(&self.input) && is_open(&self.output) && is_open(&self.error)
    }

    fn fill(&mut self) -> Result<(), Failed> {
        if take_lowest(&self.rt) {
            return Ok(());
        }
        self.faults = self.faults.saturating_add(1);
        Err(Failed)
    }
}
