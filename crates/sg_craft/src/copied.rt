//! Tags of recorded frames.
ghost use Rattle.std.specs.Prelude.{◌≡◌, ◌==◌, ◌-◌, if◌then◌else◌, None, slice_get, unwrap_or, option_and_then, IfOk};
ghost use Rattle.std.specs.Option.{option_map_or};
ghost use Rattle.sg_model.specs.Lists.{value_at};
ghost use Rattle.sg_protocol.specs.Crafted.{frame_read, no_tag};
ghost use Rattle.sg_craft.specs.Means.{with_frames};

use crate::bytes::frame_at;
use sg_base::{OutOfMemory, Role, Seq, Tag};
use sg_frame::{DecodeFault, Frame, decode};
use std::alloc::{AllocError, Global};

/// The recorded frame of a number, read, or `None` if there is no such frame or its bytes are no frame.
pub fn frame_read(
    alloc: Global,
    frames: &[Seq<u8>],
    number: u32,
) -> Result<Option<Frame>, OutOfMemory>
    ensures { IfOk result (λ f. f ≡ frame_read (with_frames frames.now) number) }
{
    let Some(bytes) = frame_at(frames, number) else {
        return Ok(None);
    };
    match decode(alloc, bytes) {
        Ok(frame) => Ok(Some(frame)),
        Err(DecodeFault::Malformed { .. }) => Ok(None),
        Err(DecodeFault::OutOfMemory) => Err(AllocError),
    }
}

/// The tag for a role of an item, counted from 1; zeros if it isn't there.
pub fn item_tag(frame: &Option<Frame>, item: u32, role: Role) -> Tag
    ensures { result ≡ unwrap_or (option_and_then (λ f. option_and_then (λ i. value_at i.tags role) (if item == 0 then None else slice_get f.items (item - 1))) frame.now) no_tag }
{
    let Some(frame) = frame else {
        return Tag([0; 32]);
    };
    if item == 0 {
        return Tag([0; 32]);
    }
    match frame.items.as_slice().get(item as usize - 1) {
        Some(item) => tag_for(item.tags.as_slice(), role),
        None => Tag([0; 32]),
    }
}

// The tag for a role, or zeros.
fn tag_for(tags: &[(Role, Tag)], role: Role) -> Tag
    ensures { result ≡ unwrap_or (value_at tags.now role) no_tag }
{
    for tag in tags {
        if tag.0 == role {
            return tag.1;
        }
    }
    Tag([0; 32])
}

/// The tag of a frame; zeros if it isn't there.
pub fn frame_tag(frame: &Option<Frame>) -> Tag
    ensures { result ≡ option_map_or (λ f. f.tag) frame.now no_tag }
{
    match frame {
        Some(frame) => frame.tag,
        None => Tag([0; 32]),
    }
}
