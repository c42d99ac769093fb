//! Steps as a frame shows them.
ghost use Rattle.std.specs.Prelude.{◌≤◌, ℕ, List, IfOk};
ghost use Rattle.sg_protocol.specs.Reading.{any_bytes, times, rising_times, read_tag, read_pair, read_map, read_item};
ghost use Rattle.sg_frame.specs.Reads.{Reads};

use crate::fault::FrameStop;
use crate::field;
use sg_base::{ByteIn, Label, Role, Seq, Tag, Time, Var};
use std::alloc::Global;
use std::marker::Model;

/// A step: the role that sent along the label, when, the commitments that are shown with it, and tags for other roles. Variables and
/// roles rise.
#[derive(Drop)]
pub struct Item {
    /// The role that sent.
    pub role: Role,
    /// The label of the edge along which it sent.
    pub label: Label,
    /// When it sent, in steps of the session.
    pub time: Time,
    /// Variables with their commitments, of 32 bytes each.
    pub delta: Seq<(Var, [u8; 32])>,
    /// Other roles with the tag of the step for each.
    pub tags: Seq<(Role, Tag)>,
}

impl Model for Item {
    ghost use Rattle.sg_protocol.specs.Frame.{Item};

    ghost Value = { Item };

    ghost view = { λ i. record { role = i.role; label = i.label; time = i.time; delta = i.delta; tags = i.tags } };
}

pub fn read_items(
    alloc: Global,
    input: &mut ByteIn,
    version: u8,
    count: u16,
) -> Result<Seq<Item>, FrameStop>
    ensures { Reads (times count (read_item version)) input.old input.new result }
{
    let mut items = Seq::new(alloc);
    'items: for _ in 0..count {
        let item = read_item(alloc, input, version)?;
        items.push(item)?;
    }
    Ok(items)
}

fn read_item(alloc: Global, input: &mut ByteIn, version: u8) -> Result<Item, FrameStop>
    ensures { Reads (read_item version) input.old input.new result }
{
    let role = field::byte(input, 0, 15)?;
    let label = field::two_bytes(input, 0, 511)?;
    let time = field::four_bytes(input, 1, 1_000_000)?;
    let delta = read_delta(alloc, input)?;
    let tags = read_tags(alloc, input, version)?;
    Ok(Item {
        role: Role(role),
        label: Label(label),
        time: Time(time),
        delta,
        tags,
    })
}

fn read_delta(alloc: Global, input: &mut ByteIn) -> Result<Seq<(Var, [u8; 32])>, FrameStop>
    ensures { Reads (read_map 32 31 (any_bytes 32)) input.old input.new result }
{
    let count = field::byte(input, 0, 32)?;
    read_commitments(alloc, input, count)
}

fn read_commitments(
    alloc: Global,
    input: &mut ByteIn,
    count: u8,
) -> Result<Seq<(Var, [u8; 32])>, FrameStop>
    ensures { Reads (rising_times (λ (p : ℕ × List ℕ). p.0) count 0 (read_pair 31 (any_bytes 32))) input.old input.new result }
{
    let mut delta = Seq::new(alloc);
    let mut least = 0;
    'commitments: for _ in 0..count {
        let (var, commitment) = read_commitment(input, least)?;
        delta.push((var, commitment))?;
        least = var.0 + 1;
    }
    Ok(delta)
}

fn read_commitment(input: &mut ByteIn, least: u8) -> Result<(Var, [u8; 32]), FrameStop>
    ensures reads { Reads (read_pair 31 (any_bytes 32) least) input.old input.new result }
    ensures range { IfOk result (λ p. p.0 ≤ 31) }
{
    let var = field::byte(input, least, 31)?;
    let commitment = field::fixed::<32>(input)?;
    Ok((Var(var), commitment))
}

fn read_tags(alloc: Global, input: &mut ByteIn, version: u8) -> Result<Seq<(Role, Tag)>, FrameStop>
    ensures { Reads (read_map 14 15 (read_tag version)) input.old input.new result }
{
    let count = field::byte(input, 0, 14)?;
    read_tags_of(alloc, input, version, count)
}

fn read_tags_of(
    alloc: Global,
    input: &mut ByteIn,
    version: u8,
    count: u8,
) -> Result<Seq<(Role, Tag)>, FrameStop>
    ensures { Reads (rising_times (λ (p : ℕ × List ℕ). p.0) count 0 (read_pair 15 (read_tag version))) input.old input.new result }
{
    let mut tags = Seq::new(alloc);
    let mut least = 0;
    'tags: for _ in 0..count {
        let (role, tag) = read_tag_for(input, version, least)?;
        tags.push((role, tag))?;
        least = role.0 + 1;
    }
    Ok(tags)
}

fn read_tag_for(input: &mut ByteIn, version: u8, least: u8) -> Result<(Role, Tag), FrameStop>
    ensures reads { Reads (read_pair 15 (read_tag version) least) input.old input.new result }
    ensures range { IfOk result (λ p. p.0 ≤ 15) }
{
    let role = field::byte(input, least, 15)?;
    let tag = field::read_tag(input, version)?;
    Ok((Role(role), tag))
}
