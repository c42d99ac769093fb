//! Frames as bytes.
ghost use Rattle.std.specs.Prelude.{◌≡◌, ◌≤◌, ◌-◌, ◌++◌, length, take, flat_map, IfOk, OnOk};
ghost use Rattle.std.specs.List.{AllByRecursion};
ghost use Rattle.sg_protocol.specs.Frame.{Frame, tag_len, IsItem};
ghost use Rattle.sg_protocol.specs.Spelling.{u8, HasSpelling, SpellsFrame, spelling, body, magic, join_code, join_bytes, map_bytes, item_bytes, opening_bytes};
ghost use Rattle.sg_protocol.specs.TextLaws.{IsVersion};

use crate::field;
use crate::frame::Frame;
use crate::item::Item;
use sg_base::{ByteOut, Opening, OutOfMemory, Role, Tag, Var};
use sg_crypt::{Cast, SharedCast, put_name, put_opening};
use std::alloc::Global;

// The room that a frame gets at first; a longer one takes more.
const ROOM: usize = 256;

/// The one spelling of a frame.
pub fn encode(alloc: Global, frame: &Frame) -> Result<Vec<u8>, OutOfMemory>
    requires { HasSpelling frame.now }
    ensures { IfOk result (λ v. v.items ≡ spelling frame.now) }
{
    let mut out = ByteOut::with_room(alloc, ROOM)?;
    put_head(&mut out, frame)?;
    put_join(&mut out, &frame.join)?;
    out.u16(frame.items.len() as u16)?;
    put_items(&mut out, frame.version, frame.items.as_slice())?;
    out.u8(frame.openings.len() as u8)?;
    put_openings(&mut out, frame.openings.as_slice())?;
    put_tag(&mut out, frame.version, &frame.tag)?;
    Ok(out.done())
}

/// The number of bytes before the tag.
pub fn body_len(version: u8, bytes: &[u8]) -> usize
    requires version { IsVersion version }
    requires long { tag_len version ≤ length bytes.now }
    ensures value { result ≡ length bytes.now - tag_len version }
    ensures body { (f : Frame) → SpellsFrame bytes.now f → f.version ≡ version → take result bytes.now ≡ body f }
{
    bytes.len() - field::tag_len(version)
}

fn put_head(out: &mut ByteOut, frame: &Frame) -> Result<(), OutOfMemory>
    ensures { OnOk result (out.new ≡ out.old ++ (magic frame.now.version ++ (u8 (join_code frame.now.join) ++ (frame.now.sid ++ (u8 frame.now.sender ++ u8 frame.now.receiver))))) }
{
    out.bytes(magic(frame.version))?;
    out.u8(join_code(&frame.join))?;
    out.bytes(&frame.sid.0)?;
    out.u8(frame.sender.0)?;
    out.u8(frame.receiver.0)
}

fn magic(version: u8) -> &'static [u8]
    ensures { result.now ≡ magic version }
{
    if version == 2 { b"SGF2" } else { b"SGF1" }
}

fn join_code(join: &Option<SharedCast>) -> u8
    ensures { result ≡ join_code join.now }
{
    if join.is_some() { 0 } else { 1 }
}

fn put_join(out: &mut ByteOut, join: &Option<SharedCast>) -> Result<(), OutOfMemory>
    ensures { OnOk result (out.new ≡ out.old ++ join_bytes join.now) }
{
    match join {
        None => Ok(()),
        Some(cast) => put_cast(out, cast.get()),
    }
}

fn put_cast(out: &mut ByteOut, cast: &Cast) -> Result<(), OutOfMemory>
    ensures { OnOk result (out.new ≡ out.old ++ join_bytes (Some cast.now)) }
{
    out.bytes(&cast.graph())?;
    out.bytes(&cast.nonce())?;
    out.u8(cast.count())?;
    'names: for name in cast.names() {
        put_name(out, name)?;
    }
    Ok(())
}

fn put_items(out: &mut ByteOut, version: u8, items: &[Item]) -> Result<(), OutOfMemory>
    requires { AllByRecursion (IsItem version) items.now }
    ensures { OnOk result (out.new ≡ out.old ++ flat_map (item_bytes version) items.now) }
{
    'items: for item in items {
        put_item(out, version, item)?;
    }
    Ok(())
}

fn put_item(out: &mut ByteOut, version: u8, item: &Item) -> Result<(), OutOfMemory>
    requires { IsItem version item.now }
    ensures { OnOk result (out.new ≡ out.old ++ item_bytes version item.now) }
{
    out.u8(item.role.0)?;
    out.u16(item.label.0)?;
    out.u32(item.time.0)?;
    put_delta(out, item.delta.as_slice())?;
    put_tags(out, version, item.tags.as_slice())
}

fn put_delta(out: &mut ByteOut, delta: &[(Var, [u8; 32])]) -> Result<(), OutOfMemory>
    requires { length delta.now ≤ 32 }
    ensures { OnOk result (out.new ≡ out.old ++ map_bytes (λ c. c) delta.now) }
{
    out.u8(delta.len() as u8)?;
    'delta: for (var, commitment) in delta {
        out.u8(var.0)?;
        out.bytes(commitment)?;
    }
    Ok(())
}

fn put_tags(out: &mut ByteOut, version: u8, tags: &[(Role, Tag)]) -> Result<(), OutOfMemory>
    requires { length tags.now ≤ 14 }
    ensures { OnOk result (out.new ≡ out.old ++ map_bytes (take (tag_len version)) tags.now) }
{
    out.u8(tags.len() as u8)?;
    'tags: for (role, tag) in tags {
        out.u8(role.0)?;
        put_tag(out, version, tag)?;
    }
    Ok(())
}

fn put_tag(out: &mut ByteOut, version: u8, tag: &Tag) -> Result<(), OutOfMemory>
    ensures { OnOk result (out.new ≡ out.old ++ take (tag_len version) tag.now) }
{
    out.bytes(&tag.0[..field::tag_len(version)])
}

fn put_openings(out: &mut ByteOut, openings: &[Opening]) -> Result<(), OutOfMemory>
    ensures { OnOk result (out.new ≡ out.old ++ flat_map opening_bytes openings.now) }
{
    'openings: for opening in openings {
        put_opening(out, opening)?;
    }
    Ok(())
}
