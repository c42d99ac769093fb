//! The cast that a frame joins with.
ghost use Rattle.std.specs.Prelude.{◌≡◌, ◌==◌, if◌then◌else◌, None, vec_len, IfOk};
ghost use Rattle.sg_protocol.specs.Reading.{give, times, read_name, read_cast};
ghost use Rattle.sg_protocol.specs.TextLaws.{IsVersion};
ghost use Rattle.sg_frame.specs.Reads.{Reads, ReadsSeen};

use crate::fault::FrameStop;
use crate::field;
use sg_base::{ByteIn, Name};
use sg_crypt::{Cast, SharedCast};
use std::alloc::Global;

// The cast of a frame that joins, if the kind is 0.
pub fn read_join(
    alloc: Global,
    input: &mut ByteIn,
    version: u8,
    kind: u8,
) -> Result<Option<SharedCast>, FrameStop>
    requires { IsVersion version }
    ensures { Reads (if kind == 0 then read_cast version else give None) input.old input.new result }
{
    if kind == 0 {
        read_cast(alloc, input, version)
    } else {
        Ok(None)
    }
}

fn read_cast(
    alloc: Global,
    input: &mut ByteIn,
    version: u8,
) -> Result<Option<SharedCast>, FrameStop>
    requires { IsVersion version }
    ensures { Reads (read_cast version) input.old input.new result }
{
    let graph = field::fixed::<32>(input)?;
    let nonce = field::fixed::<16>(input)?;
    let count = field::byte(input, 2, 16)?;
    let names = read_names(alloc, input, count)?;
    let cast = Cast::new(version, graph, nonce, names.as_slice());
    let shared = SharedCast::optional(alloc, cast)?;
    Ok(shared)
}

fn read_names(alloc: Global, input: &mut ByteIn, count: u8) -> Result<Vec<Name>, FrameStop>
    ensures reads { ReadsSeen (λ v. v.items) (times count read_name) input.old input.new result }
    ensures length { IfOk result (λ v. vec_len v ≡ count) }
{
    let mut names = Vec::new(alloc);
    'names: for _ in 0..count {
        let name = field::read_name(input)?;
        names.push(name)?;
    }
    Ok(names)
}
