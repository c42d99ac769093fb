//! Frames beside the bytes that spell them.
ghost use Rattle.std.specs.Prelude.{◌≡◌, ◌≢◌, ◌⊎◌, ◌<◌, length, Err, Ok, MatchResult, IfOk, IsErr};
ghost use Rattle.sg_model.specs.Limits.{most_frame_bytes};
ghost use Rattle.sg_protocol.specs.Frame.{Frame};
ghost use Rattle.sg_protocol.specs.Reading.{read, read_version};
ghost use Rattle.sg_frame.specs.Reads.{Refuses};
ghost use Rattle.sg_frame.specs.ReadFrames.{IsReading};

use crate::fault::DecodeFault;
use crate::frame::Frame;
use crate::reading::decode;
use std::alloc::Global;
use std::marker::Model;

/// A frame beside the bytes that spell it. Reading alone makes one, so neither is ever beside another's.
#[derive(Drop)]
pub struct ReadFrame<'b> {
    frame: Frame,
    bytes: &'b [u8],
}

impl<'b> Model for ReadFrame<'b> {
    ghost use Rattle.sg_frame.specs.ReadFrames.{ReadFrame, IsReading};

    ghost Value = { ReadFrame };

    ghost view = { λ r. record { frame = r.frame; bytes = r.bytes.now } };

    ghost invariant = { λ r. IsReading (record { frame = r.frame; bytes = r.bytes.now }) };
}

impl<'b> ReadFrame<'b> {
    /// The frame that the bytes spell, beside them; refused as by `decode`.
    pub fn new(alloc: Global, bytes: &'b [u8]) -> Result<ReadFrame<'b>, DecodeFault>
        ensures exact { MatchResult result (λ r. read bytes.now ≡ Ok r.frame) (Refuses (read bytes.now)) }
        ensures bytes { IfOk result (λ r. r.bytes ≡ bytes.now) }
        ensures early { (most_frame_bytes < length bytes.now) ⊎ IsErr (read_version 0 bytes.now) → result ≢ Err DecodeFault.OutOfMemory }
    {
        let frame = decode(alloc, bytes)?;
        Ok(ReadFrame { frame, bytes })
    }

    /// The frame. It takes no memory.
    pub fn frame(&self) -> &Frame
        ensures frame { result.now ≡ self.now.frame }
        ensures reading { IsReading self.now }
    {
        &self.frame
    }

    /// The bytes. They are the frame's one spelling. It takes no memory.
    pub fn bytes(&self) -> &'b [u8]
        ensures bytes { result.now ≡ self.now.bytes }
        ensures reading { IsReading self.now }
    {
        self.bytes
    }
}
