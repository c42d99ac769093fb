//! What a step makes while the state stays as it is.
ghost use Rattle.std.specs.Prelude.{◌≡◌, ◌<◌, ◌≤◌, ◌+◌, ◌-◌, ◌++◌, [], ◌∷◌, Some, None, if◌then◌else◌, map, filter_map, get_or, length, take, replicate, IfOk, OnOk, OnErr};
ghost use Rattle.std.specs.List.{AllByRecursion};
ghost use Rattle.std.specs.Option.{option_or};
ghost use Rattle.sg_model.specs.Limits.{most_time};
ghost use Rattle.sg_model.specs.Lists.{first_some};
ghost use Rattle.sg_model.specs.Shape.{receiver};
ghost use Rattle.sg_protocol.specs.Acting.{openings_for};
ghost use Rattle.sg_model.specs.Last.{has};
ghost use Rattle.sg_protocol.specs.Graph.{shape, reads};
ghost use Rattle.sg_protocol.specs.IsSchedule.{IsProgram};
ghost use Rattle.sg_protocol.specs.Keyring.{targets_of};
ghost use Rattle.sg_protocol.specs.Notes.{note_of};
ghost use Rattle.sg_protocol.specs.Sending.{tag_for, text_of};
ghost use Rattle.sg_protocol.specs.Session.{opening_in, principal};
ghost use Rattle.sg_protocol.specs.Spelling.{HasSpelling, spelling};
ghost use Rattle.sg_protocol.specs.Bounds.{IsShortFrame};
ghost use Rattle.sg_protocol.specs.Texts.{real};
ghost use Rattle.sg_walk.specs.Model.{event_of, values_of};
ghost use Rattle.sg_role.specs.Sending.{with_notes, step_of};
ghost use Rattle.sg_role.specs.Model.{state_of};
ghost use Rattle.sg_role.specs.Noting.{with_item};
ghost use Rattle.sg_role.specs.Invariant.{HoldsTurn};
ghost use Rattle.sg_role.specs.Stepping.{send_rows, own_text, step_commitments, step_item, items_after, step_frame, step_held, step_notes, frame_with, held_next, Extends};

use crate::evidence::{items_with, openings_of, shown_to, take_over, vars_of};
use crate::kept_state::KeptState;
use crate::next::{copied_openings, has_role};
use crate::own::{
    commit_each, commitments_with, copy_values, make_tag, name_of, roles_of, tags_for,
    written_openings,
};
use crate::values::facts_of_values;
use sg_base::{Label, Opening, OutOfMemory, Role, Sealed, Seq, Tag, Time, Value, Var};
use sg_crypt::{Notes, SharedCast, frame_text};
use sg_frame::{Frame, Item, body_len, encode};
use sg_keys::Keyring;
use sg_vis::Origin;
use sg_walk::Event;
use std::alloc::Global;
use std::rc::Rc;

/// What a step makes: what it did, the frame, and what is kept afterwards.
pub(crate) struct MadeStep<'p> {
    pub event: Event,
    pub sealed: Sealed,
    pub kept: Rc<KeptState<'p>>,
}

/// Makes a step along the label, on which no refusal holds. What is tagged and hashed is noted.
pub(crate) fn make_step<'p>(
    alloc: Global,
    kept: &KeptState<'p>,
    keys: &Keyring,
    label: Label,
    values: &[(Var, Value)],
    confounders: &[[u8; 16]],
    notes: &mut Notes,
) -> Result<MadeStep<'p>, OutOfMemory>
    requires turn { HoldsTurn (state_of kept.now) }
    requires count { length confounders.now ≡ length values.now }
    requires none { first_some (send_rows (state_of kept.now).program (state_of kept.now).held label (values_of values.now)) ≡ None }
    ensures event { IfOk result (λ st. event_of st.event ≡ step_of (state_of kept.now).held label (values_of values.now)) }
    ensures state { IfOk result (λ st. state_of st.kept.value ≡ record {
      program = (state_of kept.now).program;
      held = step_held keys.now (state_of kept.now).program (state_of kept.now).held label (openings_for (values_of values.now) confounders.now);
    }) }
    ensures frame { IfOk result (λ st. st.sealed ≡ (
      principal kept.now.cast (receiver (shape (state_of kept.now).program.graph) label),
      spelling (step_frame keys.now (state_of kept.now).program (state_of kept.now).held label (openings_for (values_of values.now) confounders.now)),
    )) }
    ensures noted { OnOk result (notes.new ≡ with_notes notes.old (step_notes keys.now (state_of kept.now).program (state_of kept.now).held label (openings_for (values_of values.now) confounders.now))) }
    ensures keeps { Extends notes.old notes.new }
{
    facts_of_values(values, confounders);
    let written = written_openings(alloc, values, confounders)?;
    let event = step_event(alloc, kept, label, values)?;
    let (items, commitments) = next_items(alloc, kept, keys, label, written.as_slice(), notes)?;
    let (frame, next) = frame_and_next(alloc, kept, label, items, commitments, written)?;
    let sealed = seal(alloc, kept, keys, &frame, notes)?;
    Ok(MadeStep {
        event,
        sealed,
        kept: next,
    })
}

// The kept items with the own one, and the commitments with it. What is tagged and hashed is noted.
fn next_items(
    alloc: Global,
    kept: &KeptState,
    keys: &Keyring,
    label: Label,
    written: &[Opening],
    notes: &mut Notes,
) -> Result<(Vec<Item>, Vec<Option<[u8; 32]>>), OutOfMemory>
    requires label { label < length (state_of kept.now).program.graph.edges }
    requires time { kept.now.time < most_time }
    requires counted { length kept.now.cast.names ≡ length (state_of kept.now).program.graph.roles }
    ensures program { IfOk result (λ r. IsProgram real (state_of kept.now).program) }
    ensures items { IfOk result (λ r. r.0.items ≡ items_after (state_of kept.now).program.graph (state_of kept.now).held (step_item keys.now (state_of kept.now).program (state_of kept.now).held label written.now)) }
    ensures commitments { IfOk result (λ r. r.1.items ≡ step_commitments (state_of kept.now).program (state_of kept.now).held written.now) }
    ensures noted { OnOk result (notes.new ≡ with_item keys.now (state_of kept.now).program (state_of kept.now).held label written.now notes.old) }
    ensures keeps { Extends notes.old notes.new }
{
    let (own, commitments) = own_item(alloc, kept, keys, label, written, notes)?;
    let count = kept.program.graph().vars();
    let items = items_with(alloc, count, kept.items.as_slice(), &own)?;
    Ok((items, commitments))
}

// The frame that shows these items, with zeros for its tag, and what is kept after the step.
fn frame_and_next<'p>(
    alloc: Global,
    kept: &KeptState<'p>,
    label: Label,
    items: Vec<Item>,
    commitments: Vec<Option<[u8; 32]>>,
    written: Vec<Opening>,
) -> Result<(Frame, Rc<KeptState<'p>>), OutOfMemory>
    requires label { label < length (state_of kept.now).program.graph.edges }
    requires time { kept.now.time < most_time }
    ensures frame { IfOk result (λ r. r.0 ≡ record (frame_with (state_of kept.now).program (state_of kept.now).held label items.items written.items) { tag = replicate 32 0 }) }
    ensures receiver { IfOk result (λ r. (r.0).receiver < length (state_of kept.now).program.graph.roles) }
    ensures state { IfOk result (λ r. state_of r.1.value ≡ record {
      program = (state_of kept.now).program;
      held = held_next (state_of kept.now).program (state_of kept.now).held label items.items commitments.items written.items;
    }) }
{
    let frame = untagged(alloc, kept, label, items.as_slice(), written.as_slice())?;
    let next = next_kept(alloc, kept, label, items, commitments, written)?;
    Ok((frame, next))
}

// What is kept after a step.
fn next_kept<'p>(
    alloc: Global,
    kept: &KeptState<'p>,
    label: Label,
    items: Vec<Item>,
    commitments: Vec<Option<[u8; 32]>>,
    written: Vec<Opening>,
) -> Result<Rc<KeptState<'p>>, OutOfMemory>
    requires label { label < length (state_of kept.now).program.graph.edges }
    requires time { kept.now.time < most_time }
    ensures { IfOk result (λ k. state_of k.value ≡ record {
      program = (state_of kept.now).program;
      held = held_next (state_of kept.now).program (state_of kept.now).held label items.items commitments.items written.items;
    }) }
{
    let mut openings = copied_openings(alloc, kept.openings.as_slice())?;
    take_over(&mut openings, written);
    let time = next_time(kept);
    let place = kept.program.graph().edge(label).target;
    let from = Origin::After(label);
    let next = kept.stepped(alloc, from, time, time, place, items, commitments, openings)?;
    Ok(next)
}

// What the role does.
fn step_event(
    alloc: Global,
    kept: &KeptState,
    label: Label,
    values: &[(Var, Value)],
) -> Result<Event, OutOfMemory>
    requires { kept.now.time < most_time }
    ensures { IfOk result (λ e. event_of e ≡ step_of (state_of kept.now).held label (values_of values.now)) }
{
    Ok(Event::Sent {
        sid: kept.sid,
        role: kept.program.role(),
        label,
        time: next_time(kept),
        values: copy_values(alloc, values)?,
    })
}

// The time of the step.
fn next_time(kept: &KeptState) -> Time
    requires { kept.now.time < most_time }
    ensures { result ≡ kept.now.time + 1 }
{
    Time(kept.time.0 + 1)
}

// The targets of the step.
fn step_targets(alloc: Global, kept: &KeptState, label: Label) -> Result<Vec<Role>, OutOfMemory>
    requires { label < length (state_of kept.now).program.graph.edges }
    ensures value { IfOk result (λ v. v.items ≡ targets_of (state_of kept.now).program label) }
    ensures there { IfOk result (λ v. AllByRecursion (λ t. t < length (state_of kept.now).program.graph.roles) v.items) }
{
    let targets = roles_of(alloc, kept.program.targets().of(label))?;
    Ok(targets)
}

// The own item, and the commitments with it. What is tagged and hashed is noted.
fn own_item(
    alloc: Global,
    kept: &KeptState,
    keys: &Keyring,
    label: Label,
    written: &[Opening],
    notes: &mut Notes,
) -> Result<(Item, Vec<Option<[u8; 32]>>), OutOfMemory>
    requires label { label < length (state_of kept.now).program.graph.edges }
    requires time { kept.now.time < most_time }
    requires counted { length kept.now.cast.names ≡ length (state_of kept.now).program.graph.roles }
    ensures item { IfOk result (λ r. r.0 ≡ step_item keys.now (state_of kept.now).program (state_of kept.now).held label written.now) }
    ensures commitments { IfOk result (λ r. r.1.items ≡ step_commitments (state_of kept.now).program (state_of kept.now).held written.now) }
    ensures noted { OnOk result (notes.new ≡ with_item keys.now (state_of kept.now).program (state_of kept.now).held label written.now notes.old) }
    ensures keeps { Extends notes.old notes.new }
{
    let delta = commit_each(alloc, &kept.sid, written, notes)?;
    let count = kept.program.graph().vars();
    let commitments = commitments_with(
        alloc,
        count,
        kept.commitments.as_slice(),
        delta.as_slice(),
    )?;
    let tags = step_tags(alloc, kept, keys, label, commitments.as_slice(), notes)?;
    let own = Item {
        role: kept.program.role(),
        label,
        time: next_time(kept),
        delta: Seq::from_vec(delta),
        tags: Seq::from_vec(tags),
    };
    Ok((own, commitments))
}

// The tag of the own item for each target of the step, with these commitments. Each text is noted.
fn step_tags(
    alloc: Global,
    kept: &KeptState,
    keys: &Keyring,
    label: Label,
    commitments: &[Option<[u8; 32]>],
    notes: &mut Notes,
) -> Result<Vec<(Role, Tag)>, OutOfMemory>
    requires label { label < length (state_of kept.now).program.graph.edges }
    requires time { kept.now.time < most_time }
    requires counted { length kept.now.cast.names ≡ length (state_of kept.now).program.graph.roles }
    ensures value { IfOk result (λ d. d.items ≡ map (λ t. (t, tag_for real keys.now kept.now.cast t (own_text (state_of kept.now).held label commitments.now t))) (targets_of (state_of kept.now).program label)) }
    ensures noted { OnOk result (notes.new ≡ record notes.old {
      made = notes.old.made ++ map (λ t. note_of keys.now.me (principal kept.now.cast t) (own_text (state_of kept.now).held label commitments.now t)) (targets_of (state_of kept.now).program label);
    }) }
    ensures keeps { Extends notes.old notes.new }
{
    let targets = step_targets(alloc, kept, label)?;
    let tags = tags_for(
        alloc,
        kept,
        keys,
        label,
        commitments,
        targets.as_slice(),
        notes,
    )?;
    Ok(tags)
}

// The frame that shows these kept items, with zeros for its tag.
fn untagged(
    alloc: Global,
    kept: &KeptState,
    label: Label,
    items: &[Item],
    written: &[Opening],
) -> Result<Frame, OutOfMemory>
    requires { label < length (state_of kept.now).program.graph.edges }
    ensures frame { IfOk result (λ f. f ≡ record (frame_with (state_of kept.now).program (state_of kept.now).held label items.now written.now) { tag = replicate 32 0 }) }
    ensures receiver { IfOk result (λ f. f.receiver < length (state_of kept.now).program.graph.roles) }
{
    let to = kept.program.graph().receiver(label);
    let join = join_for(kept, to)?;
    let shown = shown_to(alloc, items, to)?;
    let openings = step_openings(alloc, kept, label, written)?;
    Ok(Frame {
        version: kept.cast.version(),
        sid: kept.sid,
        sender: kept.program.role(),
        receiver: to,
        join,
        items: shown,
        openings,
        tag: Tag([0; 32]),
    })
}

// The cast, if the role has no item yet.
fn join_for(kept: &KeptState, to: Role) -> Result<Option<SharedCast>, OutOfMemory>
    ensures { IfOk result (λ join. join ≡ (if has (λ j. j.role) to kept.now.items.items then None else Some kept.now.cast)) }
{
    if has_role(kept.items.as_slice(), to) {
        Ok(None)
    } else {
        Ok(Some(kept.cast.share()?))
    }
}

// The openings of what the step's edge reads: the written ones take precedence.
fn step_openings(
    alloc: Global,
    kept: &KeptState,
    label: Label,
    written: &[Opening],
) -> Result<Seq<Opening>, OutOfMemory>
    requires { label < length (state_of kept.now).program.graph.edges }
    ensures { IfOk result (λ os. os ≡ filter_map (λ x. option_or (opening_in written.now x) (get_or kept.now.openings.items x None)) (reads (state_of kept.now).program.graph label)) }
{
    let reads = step_reads(alloc, kept, label)?;
    let openings = openings_of(alloc, reads.as_slice(), written, kept.openings.as_slice())?;
    Ok(openings)
}

// What the step's edge reads.
fn step_reads(alloc: Global, kept: &KeptState, label: Label) -> Result<Vec<Var>, OutOfMemory>
    requires { label < length (state_of kept.now).program.graph.edges }
    ensures { IfOk result (λ v. v.items ≡ reads (state_of kept.now).program.graph label) }
{
    let vars = vars_of(alloc, kept.program.graph().edge(label).reads)?;
    Ok(vars)
}

// The frame with its tag, for the receiver's principal. Its text is noted.
fn seal(
    alloc: Global,
    kept: &KeptState,
    keys: &Keyring,
    frame: &Frame,
    notes: &mut Notes,
) -> Result<Sealed, OutOfMemory>
    requires receiver { frame.now.receiver < length kept.now.cast.names }
    requires spelled { HasSpelling frame.now }
    requires short { IsShortFrame frame.now }
    requires version { frame.now.version ≡ kept.now.cast.version }
    ensures sealed { IfOk result (λ s. s ≡ (
      principal kept.now.cast frame.now.receiver,
      spelling (record (frame.now) { tag = tag_for real keys.now kept.now.cast frame.now.receiver (text_of frame.now) }),
    )) }
    ensures noted { OnOk result (notes.new ≡ record notes.old {
      made = notes.old.made ++ note_of keys.now.me (principal kept.now.cast frame.now.receiver) (text_of frame.now) ∷ [];
    }) }
    ensures same { OnErr result (notes.new ≡ notes.old) }
{
    let version = kept.cast.version();
    let bytes = encode(alloc, frame)?;
    let len = body_len(version, bytes.as_slice());
    let text = frame_text(alloc, version, &bytes.as_slice()[..len])?;
    let made = make_tag(alloc, &kept.cast, keys, frame.receiver, text, notes)?;
    let peer = name_of(&kept.cast, frame.receiver);
    Ok(Sealed::seal(peer, with_tag(bytes, len, &made)))
}

// The bytes with a prefix of a tag in the place of what stands from there on.
fn with_tag(mut bytes: Vec<u8>, from: usize, tag: &Tag) -> Vec<u8>
    requires from { from ≤ length bytes.items }
    requires fits { length bytes.items ≤ from + 32 }
    ensures bytes { result.items ≡ take from bytes.items ++ take (length bytes.items - from) tag.now }
    ensures count { length result.items ≡ length bytes.items }
{
    put_tag(bytes.as_mut_slice(), from, tag);
    bytes
}

// Puts a prefix of a tag in the place of what stands from there on.
fn put_tag(bytes: &mut [u8], from: usize, tag: &Tag)
    requires from { from ≤ length bytes.old }
    requires fits { length bytes.old ≤ from + 32 }
    ensures { bytes.new ≡ take from bytes.old ++ take (length bytes.old - from) tag.now }
{
    let count = bytes.len() - from;
    bytes[from..].copy_from_slice(&tag.0[..count]);
}
