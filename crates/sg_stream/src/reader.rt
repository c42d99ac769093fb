//! A reader of frames.
ghost use Rattle.std.specs.Prelude.{◌≡◌, ℕ, ◌+◌, ◌<◌, ◌≤◌, ◌↔◌, [], ◌++◌, None, length, take, drop, IfOk, IfErr, IfSome, IfNone, OnErr, OnOk};
ghost use Rattle.std.specs.Int.{w32, to_be_bytes};
ghost use Rattle.sg_model.specs.Limits.{most_frame_bytes};
ghost use Rattle.sg_stream.specs.Framed.{IsFrame, message, BeginsMessage, BeginsBad};
ghost use Rattle.sg_stream.specs.Faults.{IsBad};

use sg_base::OutOfMemory;
use std::alloc::Global;
use std::marker::Model;
use thiserror::Error;

/// The greatest length of a frame.
const MOST_BYTES: u32 = 60_000;

/// Why a reader took no piece, or gave no frame.
#[derive(Debug, Clone, Copy, PartialEq, Eq, Error)]
pub enum StreamFault {
    /// A message begins with a length of 0 or above 60,000.
    #[error("a length of {len}")]
    BadLength {
        /// The length.
        len: u32,
    },
    /// Out of memory.
    #[error("out of memory")]
    OutOfMemory,
}

/// Takes the frames off a stream of bytes that comes in pieces. A clause sees the bytes that were not taken.
///
/// Taken bytes stay where they are until they are at least half of what is held, so that the work is in proportion to the bytes
/// however they are cut.
#[derive(Drop)]
pub struct StreamReader {
    bytes: Vec<u8>,
    taken: usize,
}

impl Model for StreamReader {
    ghost use Rattle.std.specs.Prelude.{ℕ, ◌≤◌, List, drop, length};

    ghost Value = { List ℕ };

    ghost view = { λ r. drop r.taken r.bytes.items };

    ghost invariant = { λ r. r.taken ≤ length r.bytes.items };
}

impl StreamReader {
    /// A reader without bytes. It takes no memory.
    pub fn new(alloc: Global) -> StreamReader
        ensures { result ≡ [] }
    {
        StreamReader {
            bytes: Vec::new(alloc),
            taken: 0,
        }
    }

    /// Puts a piece at the end. It is refused only if memory runs out, and then the bytes are as before. A bad length stays where it
    /// is.
    pub fn feed(&mut self, piece: &[u8]) -> Result<(), StreamFault>
        ensures ok { OnOk result (self.new ≡ self.old ++ piece.now) }
        ensures err { OnErr result (self.new ≡ self.old) }
        ensures fault { IfErr result (λ e. e ≡ StreamFault.OutOfMemory) }
        ensures bad { (len : ℕ) → BeginsBad self.old len → BeginsBad self.new len }
    {
        if self.taken >= self.bytes.len() - self.taken {
            remove_prefix(&mut self.bytes, self.taken);
            self.taken = 0;
        }
        match self.bytes.extend_from_slice(piece) {
            Ok(()) => Ok(()),
            Err(_) => Err(StreamFault::OutOfMemory),
        }
    }

    /// Takes the next frame off the front, with its length, or gives `None` if no message is there whole. Once the bytes begin with
    /// a bad length, every call is refused. It takes memory only for a frame that it gives; if memory runs out, the bytes are as
    /// before.
    pub fn next(&mut self, alloc: Global) -> Result<Option<Vec<u8>>, StreamFault>
        ensures frame { IfOk result (λ found. IfSome found (λ f. IsFrame f.items)) }
        ensures taken { IfOk result (λ found. IfSome found (λ f. self.old ≡ message f.items ++ self.new)) }
        ensures none { (result ≡ Ok None) ↔ ((¬ BeginsMessage self.old) × ((len : ℕ) → ¬ BeginsBad self.old len)) }
        ensures bad { (len : ℕ) → (result ≡ Err (StreamFault.BadLength len)) ↔ BeginsBad self.old len }
        ensures kept { IfOk result (λ found. IfNone found (self.new ≡ self.old)) }
        ensures err { OnErr result (self.new ≡ self.old) }
    {
        match first_frame(alloc, self.left()) {
            Ok(Some(frame)) => {
                self.taken += 4 + frame.len();
                Ok(Some(frame))
            }
            Ok(None) => Ok(None),
            Err(fault) => Err(fault),
        }
    }

    // The bytes not taken.
    fn left(&self) -> &[u8]
        ensures { result.now ≡ self.now }
    {
        &self.bytes[self.taken..]
    }
}

// The frame whose message begins the bytes, if it is there whole.
fn first_frame(alloc: Global, bytes: &[u8]) -> Result<Option<Vec<u8>>, StreamFault>
    ensures frame { IfOk result (λ found. IfSome found (λ f. IsFrame f.items)) }
    ensures whole { IfOk result (λ found. IfSome found (λ f. 4 + length f.items ≤ length bytes.now)) }
    ensures prefix { IfOk result (λ found. IfSome found (λ f. bytes.now ≡ message f.items ++ drop (4 + length f.items) bytes.now)) }
    ensures none { (result ≡ Ok None) ↔ ((¬ BeginsMessage bytes.now) × ((len : ℕ) → ¬ BeginsBad bytes.now len)) }
    ensures bad { (len : ℕ) → (result ≡ Err (StreamFault.BadLength len)) ↔ BeginsBad bytes.now len }
{
    let found = frame_length(bytes)?;
    let Some(len) = found else {
        return Ok(None);
    };
    match copied(alloc, &bytes[4..4 + len]) {
        Ok(frame) => Ok(Some(frame)),
        Err(_) => Err(StreamFault::OutOfMemory),
    }
}

// The length of the frame whose message begins the bytes, if it is there whole.
fn frame_length(bytes: &[u8]) -> Result<Option<usize>, StreamFault>
    ensures there { IfOk result (λ found. IfSome found (λ len. (0 < len) × (len ≤ most_frame_bytes) × (4 + len ≤ length bytes.now) × (to_be_bytes w32 len ≡ take 4 bytes.now))) }
    ensures none { IfOk result (λ found. IfNone found ((¬ BeginsMessage bytes.now) × ((len : ℕ) → ¬ BeginsBad bytes.now len))) }
    ensures bad { IfErr result (λ e. IsBad bytes.now e) }
{
    if bytes.len() < 4 {
        return Ok(None);
    }
    let len = u32::from_be_bytes([bytes[0], bytes[1], bytes[2], bytes[3]]);
    if len == 0 || len > MOST_BYTES {
        return Err(StreamFault::BadLength { len });
    }
    if bytes.len() - 4 < len as usize {
        return Ok(None);
    }
    Ok(Some(len as usize))
}

// Moves the bytes from an offset on to the front, and lets go of those before it.
fn remove_prefix(bytes: &mut Vec<u8>, count: usize)
    requires { count ≤ length bytes.old.items }
    ensures { bytes.new.items ≡ drop count bytes.old.items }
{
    let left = bytes.len() - count;
    bytes.copy_within(count.., 0);
    bytes.truncate(left);
}

fn copied(alloc: Global, bytes: &[u8]) -> Result<Vec<u8>, OutOfMemory>
    ensures { IfOk result (λ copy. copy.items ≡ bytes.now) }
{
    let mut copy = Vec::new(alloc);
    copy.extend_from_slice(bytes)?;
    Ok(copy)
}
