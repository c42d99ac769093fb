//! Recorded frames, changes of their bytes, and confounders.
ghost use Rattle.std.specs.Prelude.{◌≡◌, take, IfOk};
ghost use Rattle.std.specs.Option.{option_copied};
ghost use Rattle.sg_protocol.specs.Schedule.{confounder};
ghost use Rattle.sg_protocol.specs.World.{World, frames, frame_at, flipped};

use byteorder::{BigEndian, ByteOrder};
use sg_base::{OutOfMemory, Seq, Var};
use std::alloc::Global;

/// The recorded frame of a number, counted from 1, or `None` if there is no such frame. It takes no memory.
pub fn frame_at<'f>(recorded: &'f [Seq<u8>], number: u32) -> Option<&'f [u8]>
    ensures { (w : World) → frames w ≡ recorded.now → option_copied result ≡ frame_at w number }
{
    if number == 0 {
        return None;
    }
    match recorded.get(number as usize - 1) {
        Some(frame) => Some(frame.as_slice()),
        None => None,
    }
}

/// The first bytes, this many or all. It takes no memory.
pub fn first_bytes(bytes: &[u8], count: u32) -> &[u8]
    ensures { result.now ≡ take count bytes.now }
{
    if (count as usize) < bytes.len() {
        &bytes[..count as usize]
    } else {
        bytes
    }
}

/// The bytes with the lowest bit of the one at an offset flipped, or as they are if there is no such byte.
#[cold]
pub fn flipped(alloc: Global, bytes: &[u8], at: u32) -> Result<Vec<u8>, OutOfMemory>
    ensures { IfOk result (λ v. v.items ≡ flipped at bytes.now) }
{
    let mut changed = Vec::new(alloc);
    changed.extend_from_slice(bytes)?;
    if (at as usize) < changed.len() {
        changed[at as usize] ^= 1;
    }
    Ok(changed)
}

/// The confounder of a variable at a step: the step's number and that of the variable, each in eight bytes, the greatest first. It takes
/// no memory.
pub fn confounder(step: u64, var: Var) -> [u8; 16]
    ensures { result ≡ confounder step var }
{
    let mut bytes = [0u8; 16];
    BigEndian::write_u64(&mut bytes, step);
    BigEndian::write_u64(&mut bytes[8..], u64::from(var.0));
    bytes
}
