//! An input over a reader of the system. What is to come is not known.
ghost use Rattle.std.specs.Prelude.{◌≡◌, ◌≤◌, length, IfSome};

use crate::Input;
use sg_base::Failed;
use std::io::{ErrorKind, Read};

/// An input over a reader of the system. A read that is interrupted is made again.
#[derive(Drop)]
pub struct StdInput<R: Read> {
    reader: R,
    faults: u64,
}

impl<R: Read + Drop> StdInput<R> {
    /// An input over a reader, with a count of faults of 0.
    pub fn new(reader: R) -> StdInput<R>
        ensures { ⟦<StdInput<R> as Input>⟧.faults result ≡ 0 }
    {
        StdInput { reader, faults: 0 }
    }
}

// Reads the first bytes to come into a room, and gives their number, or `None` if the system failed.
fn read_prefix<R: Read>(reader: &mut R, room: &mut [u8]) -> Option<usize>
    ensures { IfSome result (λ count. count ≤ length room.new) }
{
    for _ in 0..u64::MAX {
        match reader.read(room) {
            Ok(count) => return Some(count),
            Err(e) if e.kind() == ErrorKind::Interrupted => {}
            Err(_) => return None,
        }
    }
    None
}

impl<R: Read + Drop> Input for StdInput<R> {
    ghost use Rattle.std.specs.Prelude.{None};

    ghost faults = { λ i. i.faults };

    ghost coming = { λ _. None };

    fn read(&mut self, room: &mut [u8]) -> Result<usize, Failed> {
        match read_prefix(&mut self.reader, room) {
            Some(count) => Ok(count),
            None => {
                self.faults = self.faults.saturating_add(1);
                Err(Failed)
            }
        }
    }
}
