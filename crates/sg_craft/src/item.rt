//! Items of a crafted frame.
ghost use Rattle.std.specs.Prelude.{◌≡◌, ◌∷◌, [], map, IfOk, OnOk};
ghost use Rattle.std.specs.List.{AllByRecursion};
ghost use Rattle.sg_model.specs.Bytes.{AreBytes};
ghost use Rattle.sg_model.specs.Shape.{sender};
ghost use Rattle.sg_protocol.specs.Crafted.{committed_to, crafted_items, known_item};
ghost use Rattle.sg_protocol.specs.Frame.{IsItem, IsTag};
ghost use Rattle.sg_protocol.specs.Graph.{shape};
ghost use Rattle.sg_protocol.specs.Session.{commitments, new_session};
ghost use Rattle.sg_protocol.specs.TextLaws.{IsVersion};
ghost use Rattle.sg_protocol.specs.Texts.{real, cut};
ghost use Rattle.sg_sched.specs.Format.Crafts.{tag_of};
ghost use Rattle.sg_craft.specs.Making.{with_first_pairs, item_by, tag_made, zero_item};
ghost use Rattle.sg_craft.specs.Means.{with_keys, with_frames};

use crate::Means;
use crate::commitments::{committed_to, none_yet, overwrite};
use crate::source::tag_by;
use sg_base::{Label, NodeId, Opening, OutOfMemory, Role, Seq, Tag, facts_of_bytes};
use sg_crypt::{cut, item_text};
use sg_frame::Item;
use sg_graph::Graph;
use sg_sched::{CraftItem, Source};
use std::alloc::Global;

/// The items in order, each over the commitments of those before it, which begin with what is known.
pub fn craft_items(
    alloc: Global,
    means: &Means<'_>,
    know: &[Opening],
    wanted: &[CraftItem],
) -> Result<Seq<Item>, OutOfMemory>
    ensures items { IfOk result (λ is. is ≡ crafted_items real (with_keys means.now.keys) (with_frames means.now.frames) means.now.graph
        (new_session means.now.sid means.now.cast 0) (known_item real means.now.sid know.now ∷ []) wanted.now) }
    ensures ranges { AllByRecursion (λ c. IsItem means.now.cast.version (zero_item means.now c)) wanted.now → IfOk result (AllByRecursion (IsItem means.now.cast.version)) }
{
    let mut current = known_commitments(alloc, means, know)?;
    let mut items = Seq::new(alloc);
    for item in wanted {
        items.push(craft_item(alloc, means, &mut current, item)?)?;
    }
    Ok(items)
}

// The commitments that are known, one for each variable of the graph that has one.
fn known_commitments(
    alloc: Global,
    means: &Means<'_>,
    know: &[Opening],
) -> Result<Vec<Option<[u8; 32]>>, OutOfMemory>
    ensures { IfOk result (λ c. c.items ≡ commitments means.now.graph (known_item real means.now.sid know.now ∷ [])) }
{
    let mut current = none_yet(alloc, means.graph.vars())?;
    let known = committed_to(alloc, means.sid, know)?;
    overwrite(&mut current, known.as_slice());
    Ok(current)
}

// One item, whose commitments become the current ones.
fn craft_item(
    alloc: Global,
    means: &Means<'_>,
    current: &mut [Option<[u8; 32]>],
    wanted: &CraftItem,
) -> Result<Item, OutOfMemory>
    ensures current { OnOk result (current.new ≡ with_first_pairs current.old (committed_to real means.now.sid wanted.now.delta)) }
    ensures item { IfOk result (λ i. i ≡ item_by means.now current.new wanted.now) }
    ensures range { IsItem means.now.cast.version (zero_item means.now wanted.now) → IfOk result (IsItem means.now.cast.version) }
{
    let role = sender_of(means.graph, wanted.label);
    let delta = committed_to(alloc, means.sid, wanted.delta.as_slice())?;
    overwrite(current, delta.as_slice());
    let tags = make_tags(alloc, means, current, wanted, role, wanted.tags.as_slice())?;
    Ok(Item {
        role,
        label: wanted.label,
        time: wanted.time,
        delta,
        tags,
    })
}

// The role that sends along a label; that of the first node if the graph has no such label.
fn sender_of(graph: &Graph, label: Label) -> Role
    ensures { result ≡ sender (shape graph.now) label }
{
    if label.0 < graph.edges() {
        graph.sender(label)
    } else if graph.nodes() > 0 {
        graph.node_role(NodeId(0))
    } else {
        Role(0)
    }
}

// The tags of an item over the current commitments, each for its role and of its source.
fn make_tags(
    alloc: Global,
    means: &Means<'_>,
    current: &[Option<[u8; 32]>],
    wanted: &CraftItem,
    role: Role,
    sources: &[(Role, Source)],
) -> Result<Seq<(Role, Tag)>, OutOfMemory>
    requires { role ≡ sender (shape means.now.graph) wanted.now.label }
    ensures tags { IfOk result (λ t. t ≡ map (tag_made means.now wanted.now current.now) (map tag_of sources.now)) }
    ensures each { IfOk result (AllByRecursion (λ t. IsTag means.now.cast.version t.1)) }
{
    let mut tags = Seq::new(alloc);
    for source in sources {
        tags.push(make_tag(alloc, means, current, wanted, role, source)?)?;
    }
    Ok(tags)
}

// The tag of one source.
fn make_tag(
    alloc: Global,
    means: &Means<'_>,
    current: &[Option<[u8; 32]>],
    wanted: &CraftItem,
    role: Role,
    tag: &(Role, Source),
) -> Result<(Role, Tag), OutOfMemory>
    requires { role ≡ sender (shape means.now.graph) wanted.now.label }
    ensures tag { IfOk result (λ t. t ≡ tag_made means.now wanted.now current.now (tag_of tag.now)) }
    ensures range { IfOk result (λ t. IsTag means.now.cast.version t.1) }
{
    let version = means.cast.version();
    let text = item_text(
        alloc,
        version,
        means.sid,
        role,
        tag.0,
        wanted.label,
        wanted.time,
        current,
    )?;
    let made = tag_by(alloc, means, &text, &tag.1)?;
    Ok((tag.0, cut_tag(version, made)))
}

// The tag as the version sends it.
pub(crate) fn cut_tag(version: u8, tag: Tag) -> Tag
    requires { IsVersion version }
    ensures value { result ≡ cut version tag }
    ensures range { IsTag version result }
{
    facts_of_tag(&tag);
    cut(version, tag)
}

// What the type `Tag` says.
fn facts_of_tag(tag: &Tag)
    ensures { AreBytes 32 tag.now }
{
    facts_of_bytes(&tag.0);
}
