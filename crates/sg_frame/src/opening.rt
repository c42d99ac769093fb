//! The openings of a frame.
ghost use Rattle.std.specs.Prelude.{◌≡◌, ◌≤◌, ◌==◌, if◌then◌else◌, length, IfOk};
ghost use Rattle.std.specs.Str.{is_utf8};
ghost use Rattle.sg_base.specs.Model.{value_of};
ghost use Rattle.sg_protocol.specs.Reading.{field, rising_times, read_int, read_text, read_opening};
ghost use Rattle.sg_frame.specs.Reads.{Reads, ReadsSeen};

use crate::fault::FrameStop;
use crate::field;
use sg_base::{ByteIn, Chars, CharsFault, Opening, Seq, Value, Var};
use std::alloc::Global;

pub fn read_openings(
    alloc: Global,
    input: &mut ByteIn,
    count: u8,
) -> Result<Seq<Opening>, FrameStop>
    ensures { Reads (rising_times (λ o. o.variable) count 0 read_opening) input.old input.new result }
{
    let mut openings = Seq::new(alloc);
    let mut least = 0;
    'openings: for _ in 0..count {
        let opening = read_opening(alloc, input, least)?;
        least = var_of(&opening) + 1;
        openings.push(opening)?;
    }
    Ok(openings)
}

fn var_of(opening: &Opening) -> u8
    ensures { result ≡ opening.now.variable }
{
    opening.var.0
}

fn read_opening(alloc: Global, input: &mut ByteIn, least: u8) -> Result<Opening, FrameStop>
    ensures reads { Reads (read_opening least) input.old input.new result }
    ensures range { IfOk result (λ o. o.variable ≤ 31) }
{
    let var = field::byte(input, least, 31)?;
    let confounder = field::fixed::<16>(input)?;
    let kind = field::byte(input, 0, 1)?;
    let value = read_value(alloc, input, kind)?;
    Ok(Opening {
        var: Var(var),
        confounder,
        value,
    })
}

// A value of the type: 0 for a number, otherwise a text.
fn read_value(alloc: Global, input: &mut ByteIn, kind: u8) -> Result<Value, FrameStop>
    ensures { ReadsSeen value_of (if kind == 0 then read_int else read_text) input.old input.new result }
{
    if kind == 0 {
        read_number(input)
    } else {
        read_text(alloc, input)
    }
}

fn read_number(input: &mut ByteIn) -> Result<Value, FrameStop>
    ensures { ReadsSeen value_of read_int input.old input.new result }
{
    let _ = field::four_bytes(input, 8, 8)?;
    let bytes = field::bytes(input, 8)?;
    let number = i64::from_be_bytes([
        bytes[0], bytes[1], bytes[2], bytes[3], bytes[4], bytes[5], bytes[6], bytes[7],
    ]);
    Ok(Value::Int(number))
}

fn read_text(alloc: Global, input: &mut ByteIn) -> Result<Value, FrameStop>
    ensures { ReadsSeen value_of read_text input.old input.new result }
{
    let count = field::four_bytes(input, 0, 1024)?;
    let chars = read_chars(alloc, input, count as usize)?;
    Ok(Value::Text(chars))
}

fn read_chars(alloc: Global, input: &mut ByteIn, count: usize) -> Result<Chars, FrameStop>
    requires fits { count ≤ 1024 }
    requires within { input.old.at ≤ length input.old.bytes }
    ensures { Reads (field count is_utf8) input.old input.new result }
{
    let at = input.at();
    let bytes = input.bytes(count)?;
    match Chars::new(alloc, bytes) {
        Ok(chars) => Ok(chars),
        Err(CharsFault::OutOfMemory) => Err(FrameStop::OutOfMemory),
        Err(CharsFault::NotText) => Err(FrameStop::Malformed { at }),
        Err(CharsFault::TooLong { .. }) => Err(FrameStop::Malformed { at }),
    }
}
