//! Frames from bytes.
ghost use Rattle.std.specs.Prelude.{◌≡◌, ◌≢◌, ◌⊎◌, ◌<◌, ◌==◌, ◌&&◌, not, [], ◌∷◌, length, Err, Ok, MatchResult, IfOk, IsErr};
ghost use Rattle.sg_model.specs.Limits.{most_frame_bytes};
ghost use Rattle.std.specs.Int.{w8, from_be_bytes};
ghost use Rattle.sg_protocol.specs.Frame.{Frame};
ghost use Rattle.sg_protocol.specs.Reading.{after, field, is_within, read_version, read_frame_of, read, whole};
ghost use Rattle.sg_protocol.specs.Spelling.{SpellsFrame};
ghost use Rattle.sg_protocol.specs.TextLaws.{IsVersion};
ghost use Rattle.sg_frame.specs.Reads.{Reads, ReadsSeen, Ends, Refuses, left};

use crate::fault::{DecodeFault, FrameStop};
use crate::frame::Frame;
use crate::{cast, field, item, opening};
use sg_base::{ByteIn, Role, Sid};
use std::alloc::Global;

/// The frame that the bytes spell, all of them, or the offset of the first field that is wrong. More than 60,000 bytes are refused.
pub fn decode(alloc: Global, bytes: &[u8]) -> Result<Frame, DecodeFault>
    // The frame, or the offset of the first field that is wrong.
    ensures exact { MatchResult result (λ f. read bytes.now ≡ Ok f) (Refuses (read bytes.now)) }
    // What is read is spelled so.
    ensures found { IfOk result (SpellsFrame bytes.now) }
    // Memory runs out neither for too many bytes nor for a wrong beginning.
    ensures early { (most_frame_bytes < length bytes.now) ⊎ IsErr (read_version 0 bytes.now) → result ≢ Err DecodeFault.OutOfMemory }
    // What is spelled so is read, unless memory runs out.
    ensures only { (f : Frame) → SpellsFrame bytes.now f → MatchResult result (λ g. g ≡ f) (λ e. e ≡ DecodeFault.OutOfMemory) }
{
    if bytes.len() > 60_000 {
        return Err(DecodeFault::Malformed { at: 60_000 });
    }
    match read_whole(alloc, bytes) {
        Ok(frame) => Ok(frame),
        Err(FrameStop::Malformed { at }) => Err(DecodeFault::Malformed { at: at as u32 }),
        Err(FrameStop::OutOfMemory) => Err(DecodeFault::OutOfMemory),
    }
}

// A frame, and nothing after it.
fn read_whole(alloc: Global, bytes: &[u8]) -> Result<Frame, FrameStop>
    ensures early { IsErr (read_version 0 bytes.now) → result ≢ Err FrameStop.OutOfMemory }
    ensures ends { Ends (whole (after read_version read_frame_of 0 bytes.now)) result }
{
    let mut input = ByteIn::new(bytes);
    let frame = read_frame(alloc, &mut input)?;
    let at = input.at();
    if input.u8().is_ok() {
        return Err(FrameStop::Malformed { at });
    }
    Ok(frame)
}

fn read_frame(alloc: Global, input: &mut ByteIn) -> Result<Frame, FrameStop>
    ensures early { IsErr (read_version input.old.at (left input.old)) → result ≢ Err FrameStop.OutOfMemory }
    ensures reads { Reads (after read_version read_frame_of) input.old input.new result }
{
    let version = read_version(input)?;
    read_frame_of(alloc, input, version)
}

// What the first four bytes say.
fn read_version(input: &mut ByteIn) -> Result<u8, FrameStop>
    ensures reads { Reads read_version input.old input.new result }
    ensures version { IfOk result IsVersion }
    ensures early { result ≢ Err FrameStop.OutOfMemory }
{
    let at = input.at();
    let magic = field::bytes(input, 4)?;
    if magic == b"SGF1".as_slice() {
        Ok(1)
    } else if magic == b"SGF2".as_slice() {
        Ok(2)
    } else {
        Err(FrameStop::Malformed { at })
    }
}

fn read_frame_of(alloc: Global, input: &mut ByteIn, version: u8) -> Result<Frame, FrameStop>
    requires { IsVersion version }
    ensures { Reads (read_frame_of version) input.old input.new result }
{
    let kind = field::byte(input, 0, 1)?;
    let sid = field::fixed::<32>(input)?;
    let sender = field::byte(input, 0, 15)?;
    let receiver = read_receiver(input, sender)?;
    let join = cast::read_join(alloc, input, version, kind)?;
    let count = field::two_bytes(input, 1, 65_535)?;
    let items = item::read_items(alloc, input, version, count)?;
    let opened = field::byte(input, 0, 32)?;
    let openings = opening::read_openings(alloc, input, opened)?;
    let tag = field::read_tag(input, version)?;
    Ok(Frame {
        version,
        sid: Sid(sid),
        sender: Role(sender),
        receiver: Role(receiver),
        join,
        items,
        openings,
        tag,
    })
}

// A role that is not the sender's.
fn read_receiver(input: &mut ByteIn, sender: u8) -> Result<u8, FrameStop>
    ensures { ReadsSeen (λ v. v ∷ []) (field 1 (λ bs. is_within 0 15 (from_be_bytes w8 bs) && not (from_be_bytes w8 bs == sender))) input.old input.new result }
{
    let at = input.at();
    let role = field::byte(input, 0, 15)?;
    if role == sender {
        return Err(FrameStop::Malformed { at });
    }
    Ok(role)
}
