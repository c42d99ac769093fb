//! The frame that a craft makes.
ghost use Rattle.std.specs.Prelude.{◌≡◌, ◌≤◌, ◌+◌, ◌-◌, ◌++◌, Some, option_map, length, take, IfOk, IfSome};
ghost use Rattle.sg_protocol.specs.Crafted.{crafted, crafted_cast, no_tag, tag_by};
ghost use Rattle.sg_protocol.specs.Frame.{IsCastOf, IsTag, tag_len};
ghost use Rattle.sg_protocol.specs.Schedule.{Schedule};
ghost use Rattle.sg_protocol.specs.Spelling.{HasSpelling, SpellsFrame, spelling, body};
ghost use Rattle.sg_protocol.specs.Texts.{real, cut, frame_text_of};
ghost use Rattle.sg_protocol.specs.World.{World};
ghost use Rattle.sg_sched.specs.Format.Crafts.{source_of};
ghost use Rattle.sg_craft.specs.Making.{seal_made};
ghost use Rattle.sg_craft.specs.Means.{AreMeans, CanBeMade, frame_by, with_keys, with_frames};

use crate::Means;
use crate::item::{craft_items, cut_tag};
use crate::source::tag_by;
use sg_base::{OutOfMemory, Tag, copy_openings};
use sg_crypt::{Cast, SharedCast, frame_text};
use sg_frame::{Frame, body_len, encode};
use sg_sched::cast::nonce_bytes;
use sg_sched::{Craft, CraftJoin, Source};
use std::alloc::Global;

/// The bytes of the frame that a craft makes by its means.
pub fn make_frame(alloc: Global, means: &Means<'_>, craft: &Craft) -> Result<Vec<u8>, OutOfMemory>
    requires { CanBeMade means.now craft.now }
    ensures spells { IfOk result (λ b. SpellsFrame b.items (frame_by means.now craft.now)) }
    // In a run it is the definition's.
    ensures crafted { (s : Schedule) (w : World) → AreMeans means.now craft.now s w → IfOk result (λ b. option_map spelling (crafted real s w craft.now) ≡ Some b.items) }
{
    let frame = zero_frame(alloc, means, craft)?;
    sealed(alloc, means, &frame, &craft.seal)
}

// The frame with zeros for its tag.
fn zero_frame(alloc: Global, means: &Means<'_>, craft: &Craft) -> Result<Frame, OutOfMemory>
    requires { CanBeMade means.now craft.now }
    ensures value { IfOk result (λ f. f ≡ record (frame_by means.now craft.now) { tag = no_tag }) }
    ensures range { IfOk result HasSpelling }
{
    let items = craft_items(alloc, means, craft.know.as_slice(), craft.items.as_slice())?;
    let join = SharedCast::optional(alloc, joined(means.cast, &craft.join))?;
    Ok(Frame {
        version: means.cast.version(),
        sid: *means.sid,
        sender: craft.from,
        receiver: craft.to,
        join,
        items,
        openings: copy_openings(alloc, craft.openings.as_slice())?,
        tag: Tag([0; 32]),
    })
}

// The bytes of the frame, with the tag of a source on those before it.
fn sealed(
    alloc: Global,
    means: &Means<'_>,
    frame: &Frame,
    seal: &Source,
) -> Result<Vec<u8>, OutOfMemory>
    requires spelled { HasSpelling frame.now }
    requires version { frame.now.version ≡ means.now.cast.version }
    ensures bytes { IfOk result (λ b. b.items ≡ body frame.now ++ take (tag_len means.now.cast.version) (seal_made means.now frame.now (source_of seal.now))) }
    ensures range { IfOk result (λ b. IsTag means.now.cast.version (seal_made means.now frame.now (source_of seal.now))) }
{
    let mut bytes = encode(alloc, frame)?;
    let body = body_len(frame.version, &bytes);
    let tag = make_seal(alloc, means, &bytes[..body], seal)?;
    put_tag(&mut bytes, body, &tag);
    Ok(bytes)
}

// The frame's tag on the bytes before it.
fn make_seal(
    alloc: Global,
    means: &Means<'_>,
    body: &[u8],
    seal: &Source,
) -> Result<Tag, OutOfMemory>
    ensures tag { IfOk result (λ t. t ≡ cut means.now.cast.version (tag_by real (with_keys means.now.keys) (with_frames means.now.frames) (frame_text_of means.now.cast.version body.now) (source_of seal.now))) }
    ensures range { IfOk result (IsTag means.now.cast.version) }
{
    let version = means.cast.version();
    let text = frame_text(alloc, version, body)?;
    let made = tag_by(alloc, means, &text, seal)?;
    Ok(cut_tag(version, made))
}

// Writes the first bytes of a tag over the bytes from here on.
fn put_tag(bytes: &mut [u8], at: usize, tag: &Tag)
    requires here { at ≤ length bytes.old }
    requires fits { length bytes.old ≤ at + 32 }
    ensures { bytes.new ≡ take at bytes.old ++ take (length bytes.old - at) tag.now }
{
    let count = bytes.len() - at;
    put_end(bytes, at, &tag.0[..count]);
}

// Writes bytes over the last ones.
fn put_end(bytes: &mut [u8], at: usize, end: &[u8])
    requires { at + length end.now ≡ length bytes.old }
    ensures { bytes.new ≡ take at bytes.old ++ end.now }
{
    bytes[at..].copy_from_slice(end);
}

// The cast that a craft puts in, if it joins.
fn joined(cast: &Cast, join: &Option<CraftJoin>) -> Option<Cast>
    requires { IfSome (option_map (crafted_cast cast.now) join.now) (IsCastOf cast.now.version) }
    ensures { result ≡ option_map (crafted_cast cast.now) join.now }
{
    let Some(join) = join else {
        return None;
    };
    let nonce = match join.nonce {
        Some(number) => nonce_bytes(number),
        None => cast.nonce(),
    };
    let names = match &join.names {
        Some(names) => names.as_slice(),
        None => cast.names(),
    };
    match Cast::new(cast.version(), cast.graph(), nonce, names) {
        Some(cast) => Some(cast),
        None => unreachable!(),
    }
}
