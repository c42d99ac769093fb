//! Whether the tags of a frame and of its items are right.
ghost use Rattle.std.specs.Prelude.{◌≡◌, ◌≢◌, ◌<◌, ◌≤◌, ◌++◌, [], ◌∷◌, Err, None, true, false, nat_lt, not, length, unwrap_or, All, IfOk, IfErr, IfSome, OnErr, bytes_eq};
ghost use Rattle.sg_crypt.specs.Model.{pair_of};
ghost use Rattle.sg_model.specs.Lists.{value_at};
ghost use Rattle.sg_protocol.specs.Calls.{BadFrameTag};
ghost use Rattle.sg_protocol.specs.Keyring.{key_of};
ghost use Rattle.sg_protocol.specs.Notes.{note_of};
ghost use Rattle.sg_protocol.specs.Sending.{text_of};
ghost use Rattle.sg_protocol.specs.Session.{principal};
ghost use Rattle.sg_protocol.specs.Spelling.{SpellsFrame};
ghost use Rattle.sg_protocol.specs.TextLaws.{IsVersion};
ghost use Rattle.sg_protocol.specs.Texts.{real, cut, hmac};
ghost use Rattle.sg_protocol.specs.Verdict.{row, has_frame_tag, has_item_tag};
ghost use Rattle.sg_role.specs.Faults.{Refuses};
ghost use Rattle.sg_role.specs.Looking.{bare, evidence_row, found_items, overwritten, overwritten_by, text_for, KeepsNotes};
ghost use Rattle.sg_role.specs.Model.{state_of};

use crate::Refusal;
use crate::kept_state::{KeptState, copied};
use sg_base::{Name, OutOfMemory, Role, Tag, Var};
use sg_crypt::{Note, Notes, Pair, cut_matches, frame_text, item_text};
use sg_frame::{Frame, Item, body_len};
use sg_keys::Keyring;
use std::alloc::Global;

/// Whether the sender is a role of the cast and the frame's tag is right, which is then noted. A sender that is no role is refused
/// without memory.
pub(crate) fn check_frame_tag(
    alloc: Global,
    kept: &KeptState,
    keys: &Keyring,
    frame: &Frame,
    bytes: &[u8],
    notes: &mut Notes,
) -> Result<(), Refusal>
    requires spelled { SpellsFrame bytes.now frame.now }
    requires version { frame.now.version ≡ kept.now.cast.version }
    ensures right { IfOk result (λ u. has_frame_tag real keys.now (bare (state_of kept.now).held) frame.now ≡ true) }
    ensures wrong { IfErr result (Refuses (row (not (has_frame_tag real keys.now (bare (state_of kept.now).held) frame.now)) BadFrameTag)) }
    ensures noted { IfOk result (λ u. notes.new ≡ record notes.old {
      found = notes.old.found ++ note_of keys.now.me (principal kept.now.cast frame.now.sender) (text_of frame.now) ∷ [];
    }) }
    ensures same { IfErr result (λ e. notes.new ≡ notes.old) }
    ensures early { nat_lt frame.now.sender (length kept.now.cast.names) ≡ false → result ≢ Err Refusal.OutOfMemory }
{
    let Some(peer) = kept.principal(frame.sender) else {
        return Err(Refusal::BadFrameTag);
    };
    let text = text_of_frame(alloc, frame, bytes)?;
    let right = note_right(alloc, keys, peer, frame.version, text, &frame.tag, notes)?;
    if !right {
        return Err(Refusal::BadFrameTag);
    }
    Ok(())
}

// The text under a frame's tag, by the frame's bytes.
fn text_of_frame(alloc: Global, frame: &Frame, bytes: &[u8]) -> Result<Vec<u8>, OutOfMemory>
    requires { SpellsFrame bytes.now frame.now }
    ensures { IfOk result (λ t. t.items ≡ text_of frame.now) }
{
    let body = &bytes[..body_len(frame.version, bytes)];
    frame_text(alloc, frame.version, body)
}

// Whether this is the tag of a text under the key shared with a principal, or under no bytes if none is shared. If so, the text is
// noted.
fn note_right(
    alloc: Global,
    keys: &Keyring,
    peer: Name,
    version: u8,
    text: Vec<u8>,
    tag: &Tag,
    notes: &mut Notes,
) -> Result<bool, OutOfMemory>
    requires { IsVersion version }
    ensures same { IfOk result (λ right. right ≡ bytes_eq (cut version (hmac real (unwrap_or (key_of keys.now peer) []) text.items)) tag.now) }
    ensures turned { IfOk result (λ right. right ≡ bytes_eq tag.now (cut version (hmac real (unwrap_or (key_of keys.now peer) []) text.items))) }
    ensures noted { IfOk result (λ right. right ≡ true → notes.new ≡ record notes.old {
      found = notes.old.found ++ note_of keys.now.me peer text.items ∷ [];
    }) }
    ensures wrong { IfOk result (λ right. right ≡ false → notes.new ≡ notes.old) }
    ensures lacks { OnErr result (notes.new ≡ notes.old) }
{
    let (right, pair) = is_tag(keys, &peer, version, text.as_slice(), tag);
    if right {
        notes.note_found(note_for(alloc, keys, pair, peer, text)?)?;
    }
    Ok(right)
}

// Whether this is the tag of a text under the key shared with a principal, or under no bytes if none is shared; and the two that share
// a key.
fn is_tag<'k>(
    keys: &'k Keyring,
    peer: &Name,
    version: u8,
    text: &[u8],
    tag: &Tag,
) -> (bool, Option<&'k Pair>)
    requires { IsVersion version }
    ensures same { result.0 ≡ bytes_eq (cut version (hmac real (unwrap_or (key_of keys.now peer.now) []) text.now)) tag.now }
    ensures turned { result.0 ≡ bytes_eq tag.now (cut version (hmac real (unwrap_or (key_of keys.now peer.now) []) text.now)) }
    ensures pair { IfSome result.1 (λ p. p.now ≡ pair_of keys.now.me peer.now) }
{
    match keys.key_with(peer) {
        Some((key, pair)) => (key.cut_matches(version, &[], text, tag), Some(pair)),
        None => (cut_matches(version, &[], &[], text, tag), None),
    }
}

/// The note of a text for the principal of a keyring and a peer, if the two may have been found as a pair.
pub(crate) fn note_for(
    alloc: Global,
    keys: &Keyring,
    found: Option<&Pair>,
    peer: Name,
    text: Vec<u8>,
) -> Result<Note, OutOfMemory>
    requires { IfSome found (λ p. p.now ≡ pair_of keys.now.me peer) }
    ensures { IfOk result (λ n. n ≡ note_of keys.now.me peer text.items) }
{
    let pair = match found {
        Some(pair) => pair.share()?,
        None => Pair::new(alloc, keys.me(), peer)?,
    };
    Ok(Note::new(pair, text))
}

/// Whether each item except the last has a right tag for the role. Those found right, up to the first that is not, are noted. It gives
/// the commitments after all items.
pub(crate) fn check_items(
    alloc: Global,
    kept: &KeptState,
    keys: &Keyring,
    items: &[Item],
    notes: &mut Notes,
) -> Result<Vec<Option<[u8; 32]>>, Refusal>
    requires roles { All (λ i. i.role < length kept.now.cast.names) items.now }
    requires few { length items.now ≤ 65535 }
    ensures right { IfOk result (λ cs. evidence_row keys.now (state_of kept.now).held items.now ≡ None) }
    ensures commitments { IfOk result (λ cs. cs.items ≡ overwritten_by kept.now.commitments.items items.now) }
    ensures wrong { IfErr result (Refuses (evidence_row keys.now (state_of kept.now).held items.now)) }
    ensures noted { result ≢ Err Refusal.OutOfMemory → notes.new ≡ record notes.old { found = notes.old.found ++ found_items keys.now (state_of kept.now).held items.now } }
    ensures keeps { KeepsNotes notes.old notes.new }
{
    let mut commitments = copied(alloc, kept.commitments.as_slice())?;
    for at in 0..items.len() {
        let item = &items[at];
        overwrite(&mut commitments, item.delta.as_slice());
        if at + 1 < items.len() {
            let number = at as u32 + 1;
            check_item(
                alloc,
                kept,
                keys,
                item,
                number,
                commitments.as_slice(),
                notes,
            )?;
        }
    }
    Ok(commitments)
}

// Whether an item of this number has a right tag for the role, which is then noted.
fn check_item(
    alloc: Global,
    kept: &KeptState,
    keys: &Keyring,
    item: &Item,
    number: u32,
    commitments: &[Option<[u8; 32]>],
    notes: &mut Notes,
) -> Result<(), Refusal>
    requires { item.now.role < length kept.now.cast.names }
    ensures right { IfOk result (λ u. has_item_tag real keys.now (bare (state_of kept.now).held) (item.now, text_for (state_of kept.now).held commitments.now item.now) ≡ true) }
    ensures wrong { IfErr result (λ e. e ≢ Refusal.OutOfMemory → e ≡ Refusal.BadEvidence number) }
    ensures has_not { result ≡ Err (Refusal.BadEvidence number)
        → has_item_tag real keys.now (bare (state_of kept.now).held) (item.now, text_for (state_of kept.now).held commitments.now item.now) ≡ false }
    ensures noted { IfOk result (λ u. notes.new ≡ record notes.old {
      found = notes.old.found ++ note_of keys.now.me (principal kept.now.cast item.now.role) (text_for (state_of kept.now).held commitments.now item.now) ∷ [];
    }) }
    ensures same { IfErr result (λ e. notes.new ≡ notes.old) }
{
    let version = kept.cast.version();
    let role = kept.program.role();
    let Some(peer) = kept.principal(item.role) else {
        return Err(Refusal::BadEvidence { item: number });
    };
    let Some(tag) = tag_at(item.tags.as_slice(), role) else {
        return Err(Refusal::BadEvidence { item: number });
    };
    let text = item_text(
        alloc,
        version,
        &kept.sid,
        item.role,
        role,
        item.label,
        item.time,
        commitments,
    )?;
    let right = note_right(alloc, keys, peer, version, text, &tag, notes)?;
    if !right {
        return Err(Refusal::BadEvidence { item: number });
    }
    Ok(())
}

// The tag for a role.
fn tag_at(tags: &[(Role, Tag)], role: Role) -> Option<Tag>
    ensures { result ≡ value_at tags.now role }
{
    for at in 0..tags.len() {
        let (target, tag) = tags[at];
        if target == role {
            return Some(tag);
        }
    }
    None
}

/// Overwrites commitments by a delta.
pub(crate) fn overwrite(commitments: &mut Vec<Option<[u8; 32]>>, delta: &[(Var, [u8; 32])])
    ensures { commitments.new.items ≡ overwritten commitments.old.items delta.now }
{
    for at in 0..delta.len() {
        let (var, commitment) = delta[at];
        let index = var.0 as usize;
        if index < commitments.len() {
            commitments[index] = Some(commitment);
        }
    }
}
