//! How long the frame of a craft is, up to 60,000 bytes.
ghost use Rattle.std.specs.Prelude.{◌≡◌, ◌<◌, ◌≤◌, ◌+◌, nat_le, IfOk, IsTrue, MatchOption};
ghost use Rattle.std.specs.List.{list_all};
ghost use Rattle.sg_model.specs.Limits.{most_frame_bytes};
ghost use Rattle.sg_protocol.specs.Frame.{tag_len};
ghost use Rattle.sg_sched.specs.Format.Forms.{is_committed, is_craft, is_item};
ghost use Rattle.sg_sched_text.specs.Crafting.{lens, name_len, item_len, opening_len, join_len};

use crate::values::spelled_value;
use sg_base::{Name, OutOfMemory, Value};
use sg_sched::CraftJoin;
use sg_sched::line::{Committed, CraftLine, ItemLine};
use std::alloc::Global;

const MOST: u32 = 60_000;

/// Whether the frame of a craft in a session of these principals and this version has at most 60,000 bytes.
#[tactic(auto, using(crate::proofs::FormParts::craft_parts))]
pub(crate) fn is_short(
    alloc: Global,
    names: &[Name],
    version: u8,
    craft: &CraftLine<'_>,
) -> Result<bool, OutOfMemory>
    requires { IsTrue (is_craft craft.now) }
    ensures { IfOk result (λ b. b
        ≡ nat_le (42 + join_len names.now craft.now.join + lens (item_len version) craft.now.items + lens opening_len craft.now.openings + tag_len version) most_frame_bytes) }
{
    let Some(join) = join_len(names, &craft.join) else {
        return Ok(false);
    };
    let Some(items) = items_len(version, craft.items.as_slice()) else {
        return Ok(false);
    };
    let Some(openings) = openings_len(alloc, craft.openings.as_slice())? else {
        return Ok(false);
    };
    Ok(42 + join + items + openings + tag_len(version) <= MOST)
}

// How many bytes of a tag are sent.
fn tag_len(version: u8) -> u32
    ensures len { result ≡ tag_len version }
    ensures few { result ≤ 32 }
{
    if version == 2 { 16 } else { 32 }
}

// The bytes of a cast with other names, if they are no more than a frame has.
fn join_len(names: &[Name], join: &Option<CraftJoin>) -> Option<u32>
    ensures { MatchOption result (most_frame_bytes < join_len names.now join.now) (λ n. (n ≡ join_len names.now join.now) × (n ≤ most_frame_bytes)) }
{
    let Some(join) = join else {
        return Some(0);
    };
    let len = match &join.names {
        Some(names) => names_len(names.as_slice())?,
        None => names_len(names)?,
    };
    if len + 49 > MOST {
        None
    } else {
        Some(len + 49)
    }
}

#[tactic(auto, using(crate::proofs::FormParts::name_few))]
fn names_len(names: &[Name]) -> Option<u32>
    ensures { MatchOption result (most_frame_bytes < lens name_len names.now) (λ n. (n ≡ lens name_len names.now) × (n ≤ most_frame_bytes)) }
{
    let mut len = 0u32;
    for name in names {
        len += 1 + name.as_bytes().len() as u32;
        if len > MOST {
            return None;
        }
    }
    Some(len)
}

#[tactic(auto, using(crate::proofs::FormParts::each))]
fn items_len(version: u8, items: &[ItemLine<'_>]) -> Option<u32>
    requires { IsTrue (list_all is_item items.now) }
    ensures { MatchOption result (most_frame_bytes < lens (item_len version) items.now) (λ n. (n ≡ lens (item_len version) items.now) × (n ≤ most_frame_bytes)) }
{
    let mut len = 0u32;
    for item in items {
        len += item_len(version, item);
        if len > MOST {
            return None;
        }
    }
    Some(len)
}

#[tactic(auto, using(crate::proofs::FormParts::item_parts))]
fn item_len(version: u8, item: &ItemLine<'_>) -> u32
    requires { IsTrue (is_item item.now) }
    ensures len { result ≡ item_len version item.now }
    ensures few { result ≤ 2000 }
{
    let delta = item.delta.len() as u32;
    let tags = item.tags.len() as u32;
    9 + 33 * delta + (1 + tag_len(version)) * tags
}

#[tactic(auto, using(crate::proofs::FormParts::each))]
fn openings_len(alloc: Global, list: &[Committed<'_>]) -> Result<Option<u32>, OutOfMemory>
    requires { IsTrue (list_all is_committed list.now) }
    ensures { IfOk result (λ o. MatchOption o (most_frame_bytes < lens opening_len list.now) (λ n. (n ≡ lens opening_len list.now) × (n ≤ most_frame_bytes))) }
{
    let mut len = 0u32;
    for committed in list {
        len += opening_len(alloc, committed)?;
        if len > MOST {
            return Ok(None);
        }
    }
    Ok(Some(len))
}

#[tactic(auto, using(crate::proofs::FormParts::committed_value))]
fn opening_len(alloc: Global, committed: &Committed<'_>) -> Result<u32, OutOfMemory>
    requires { IsTrue (is_committed committed.now) }
    ensures { IfOk result (λ n. (n ≡ opening_len committed.now) × (n ≤ 2000)) }
{
    match spelled_value(alloc, committed.value)? {
        Value::Int(_) => Ok(30),
        Value::Text(text) => Ok(22 + text.as_bytes().len() as u32),
    }
}
