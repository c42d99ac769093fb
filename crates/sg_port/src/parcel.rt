//! The message that a connection is bringing.
ghost use Rattle.std.specs.Prelude.{◌≡◌, ◌<◌, ◌≤◌, length, IfSome};
ghost use Rattle.std.specs.Int.{w32, to_be_bytes};
ghost use Rattle.sg_model.specs.Limits.{most_frame_bytes};
ghost use Rattle.sg_port.specs.Brought.{Fits};

use std::alloc::Global;
use std::io::{ErrorKind, Read};
use std::mem;

/// The greatest length of a frame.
const MOST_BYTES: u32 = 60_000;

/// What a connection brought.
#[derive(Drop)]
pub(crate) enum Brought {
    /// A whole frame.
    Frame(Vec<u8>),
    /// No whole frame yet.
    Nothing,
    /// Its end, or a length that no frame has.
    End,
    /// A frame is coming for which there is no memory.
    OutOfMemory,
}

// How far some room was filled.
#[derive(Clone, Copy, PartialEq, Eq)]
enum Filled {
    // All of it.
    Whole,
    // No more bytes have come yet.
    Part,
    // No more bytes will come.
    End,
}

/// A message as far as it has come: a frame's length in four bytes, the high byte first, and then the frame. No byte behind the message is
/// read, so what waits behind it waits in the system, and a frame has the only memory that is taken.
#[derive(Drop)]
pub(crate) struct Parcel {
    head: [u8; 4],
    headed: usize,
    // Empty until the length is there.
    frame: Vec<u8>,
    filled: usize,
    ghost fits: { length frame.items ≤ most_frame_bytes },
}

impl Parcel {
    /// A message of which nothing has come. It takes no memory.
    pub(crate) fn new(alloc: Global) -> Parcel {
        Parcel {
            head: [0; 4],
            headed: 0,
            frame: Vec::new(alloc),
            filled: 0,
        }
    }

    /// Reads on, no further than to the message's end. After a frame the next message begins; if memory is wanting, nothing is lost.
    pub(crate) fn read_on<S: Read>(&mut self, alloc: Global, stream: &mut S) -> Brought
        ensures { Fits result }
    {
        match fill(stream, &mut self.head, &mut self.headed) {
            Filled::Whole => {}
            Filled::Part => return Brought::Nothing,
            Filled::End => return Brought::End,
        }
        if self.frame.is_empty() {
            let Some(len) = frame_length(self.head) else {
                return Brought::End;
            };
            let Ok(room) = vec![in alloc; 0u8; len] else {
                return Brought::OutOfMemory;
            };
            self.frame = room;
            self.filled = 0;
        }
        match fill(stream, self.frame.as_mut_slice(), &mut self.filled) {
            Filled::Whole => {
                self.headed = 0;
                Brought::Frame(mem::replace(&mut self.frame, Vec::new(alloc)))
            }
            Filled::Part => Brought::Nothing,
            Filled::End => Brought::End,
        }
    }
}

// The length of the frame that comes behind these bytes, if a frame may have it.
fn frame_length(head: [u8; 4]) -> Option<usize>
    ensures spelled { IfSome result (λ len. to_be_bytes w32 len ≡ head) }
    ensures some { IfSome result (λ len. 0 < len) }
    ensures fits { IfSome result (λ len. len ≤ most_frame_bytes) }
{
    let len = u32::from_be_bytes(head);
    if len == 0 || len > MOST_BYTES {
        return None;
    }
    Some(len as usize)
}

// Reads into some room from `filled` on, until there are no more, or no more bytes have come.
fn fill<S: Read>(stream: &mut S, room: &mut [u8], filled: &mut usize) -> Filled {
    for _ in 0..u64::MAX {
        let at = *filled;
        if at >= room.len() {
            return Filled::Whole;
        }
        let missing = room.len() - at;
        match stream.read(&mut room[at..]) {
            Ok(count) if count > 0 && count <= missing => *filled = at + count,
            Err(e) if e.kind() == ErrorKind::Interrupted => {}
            Err(e) if e.kind() == ErrorKind::WouldBlock => return Filled::Part,
            _ => return Filled::End,
        }
    }
    Filled::Part
}
