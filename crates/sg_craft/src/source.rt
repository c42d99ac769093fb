//! Where the tags of a crafted frame come from.
ghost use Rattle.std.specs.Prelude.{◌≡◌, IfOk};
ghost use Rattle.sg_protocol.specs.Crafted.{tag_by};
ghost use Rattle.sg_protocol.specs.Texts.{real};
ghost use Rattle.sg_sched.specs.Format.Crafts.{source_of};
ghost use Rattle.sg_craft.specs.Means.{with_keys, with_frames};

use crate::Means;
use crate::copied::{frame_read, frame_tag, item_tag};
use sg_base::{OutOfMemory, Tag};
use sg_crypt::tag;
use sg_sched::Source;
use std::alloc::Global;

/// The tag of a source on a text.
pub fn tag_by(
    alloc: Global,
    means: &Means<'_>,
    text: &[u8],
    source: &Source,
) -> Result<Tag, OutOfMemory>
    ensures { IfOk result (λ t. t ≡ tag_by real (with_keys means.now.keys) (with_frames means.now.frames) text.now (source_of source.now)) }
{
    match source {
        Source::Key(one, two) => Ok(tag(means.keys.find(one, two), text, b"")),
        Source::CopyItem { frame, item, role } => {
            let frame = frame_read(alloc, means.frames, *frame)?;
            Ok(item_tag(&frame, *item, *role))
        }
        Source::CopySeal { frame } => {
            let frame = frame_read(alloc, means.frames, *frame)?;
            Ok(frame_tag(&frame))
        }
        Source::Zero => Ok(Tag([0; 32])),
    }
}
