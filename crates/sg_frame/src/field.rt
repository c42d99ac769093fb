//! Single fields of a frame.
ghost use Rattle.std.specs.Prelude.{◌≡◌, ◌≢◌, ◌≤◌, ◌++◌, Err, length, drop, IfOk, OnOk};
ghost use Rattle.std.specs.Int.{w8, w16, w32};
ghost use Rattle.sg_model.specs.Names.{is_name};
ghost use Rattle.sg_protocol.specs.Frame.{tag_len};
ghost use Rattle.sg_protocol.specs.Reading.{any_bytes, field, number, read_tag, read_name};
ghost use Rattle.sg_frame.specs.Reads.{Reads, ReadsSeen};

use crate::fault::FrameStop;
use sg_base::{ByteIn, Name, Tag};

// The next `n` bytes.
pub fn bytes<'a>(input: &mut ByteIn<'a>, n: usize) -> Result<&'a [u8], FrameStop>
    requires { 1 ≤ n }
    ensures reads { ReadsSeen (λ x. x.now) (any_bytes n) input.old input.new result }
    ensures length { IfOk result (λ x. length x.now ≡ n) }
    ensures early { result ≢ Err FrameStop.OutOfMemory }
{
    let bytes = input.bytes(n)?;
    Ok(bytes)
}

// The next `N` bytes, at least one.
pub fn fixed<const N: usize>(input: &mut ByteIn) -> Result<[u8; N], FrameStop>
    requires { 1 ≤ N }
    ensures { Reads (any_bytes N) input.old input.new result }
{
    let mut kept = [0u8; N];
    kept.copy_from_slice(bytes(input, N)?);
    Ok(kept)
}

// A number of one byte, from `low` to `high`.
pub fn byte(input: &mut ByteIn, low: u8, high: u8) -> Result<u8, FrameStop>
    ensures reads { Reads (number w8 low high) input.old input.new result }
    ensures range { IfOk result (λ v. (low ≤ v) × (v ≤ high)) }
{
    let at = input.at();
    let value = input.u8()?;
    if value < low || high < value {
        return Err(FrameStop::Malformed { at });
    }
    Ok(value)
}

// A number of two bytes, from `low` to `high`.
pub fn two_bytes(input: &mut ByteIn, low: u16, high: u16) -> Result<u16, FrameStop>
    ensures reads { Reads (number w16 low high) input.old input.new result }
    ensures range { IfOk result (λ v. (low ≤ v) × (v ≤ high)) }
{
    let at = input.at();
    let value = input.u16()?;
    if value < low || high < value {
        return Err(FrameStop::Malformed { at });
    }
    Ok(value)
}

// A number of four bytes, from `low` to `high`. The offset then stands within the bytes.
pub fn four_bytes(input: &mut ByteIn, low: u32, high: u32) -> Result<u32, FrameStop>
    ensures reads { Reads (number w32 low high) input.old input.new result }
    ensures range { IfOk result (λ v. (low ≤ v) × (v ≤ high)) }
    ensures within { OnOk result (input.new.at ≤ length input.new.bytes) }
{
    let at = input.at();
    let value = input.u32()?;
    if value < low || high < value {
        return Err(FrameStop::Malformed { at });
    }
    Ok(value)
}

// How many bytes of a tag are sent.
pub fn tag_len(version: u8) -> usize
    ensures value { result ≡ tag_len version }
    ensures bounds { (1 ≤ result) × (result ≤ 32) }
{
    if version == 2 { 16 } else { 32 }
}

// A tag, filled up with zeros.
pub fn read_tag(input: &mut ByteIn, version: u8) -> Result<Tag, FrameStop>
    ensures { Reads (read_tag version) input.old input.new result }
{
    let mut kept = [0u8; 32];
    put_prefix(&mut kept, bytes(input, tag_len(version))?);
    Ok(Tag(kept))
}

fn put_prefix(block: &mut [u8; 32], prefix: &[u8])
    requires { length prefix.now ≤ 32 }
    ensures { block.new ≡ prefix.now ++ drop (length prefix.now) block.old }
{
    block[..prefix.len()].copy_from_slice(prefix);
}

// A name after its length.
pub fn read_name(input: &mut ByteIn) -> Result<Name, FrameStop>
    ensures { Reads read_name input.old input.new result }
{
    let count = byte(input, 1, 32)?;
    read_name_of(input, count as usize)
}

fn read_name_of(input: &mut ByteIn, count: usize) -> Result<Name, FrameStop>
    requires { 1 ≤ count }
    ensures { Reads (field count is_name) input.old input.new result }
{
    let at = input.at();
    let bytes = bytes(input, count)?;
    match Name::new(bytes) {
        Some(name) => Ok(name),
        None => Err(FrameStop::Malformed { at }),
    }
}
