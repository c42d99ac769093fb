//! The own item of a step.
ghost use Rattle.std.specs.Prelude.{◌≡◌, ◌<◌, ◌++◌, [], ◌∷◌, None, map, filter, get_or, length, unwrap_or, IfOk, IfSome, OnOk, OnErr};
ghost use Rattle.std.specs.List.{AllByRecursion};
ghost use Rattle.sg_crypt.specs.Model.{pair_of};
ghost use Rattle.sg_model.specs.Limits.{most_time};
ghost use Rattle.sg_protocol.specs.Acting.{openings_for};
ghost use Rattle.sg_protocol.specs.Keyring.{key_of};
ghost use Rattle.sg_protocol.specs.Notes.{note_of};
ghost use Rattle.sg_protocol.specs.Sending.{tag_for};
ghost use Rattle.sg_protocol.specs.Session.{principal};
ghost use Rattle.sg_protocol.specs.TextLaws.{IsVersion};
ghost use Rattle.sg_protocol.specs.Texts.{real, cut, hmac, commitment, commitment_text_of};
ghost use Rattle.sg_walk.specs.Model.{values_of};
ghost use Rattle.sg_role.specs.Model.{state_of};
ghost use Rattle.sg_role.specs.Stepping.{delta_of, commitments_after, own_text, Extends};
ghost use Rattle.sg_model.specs.Lists.{value_at, is_in, below};
ghost use Rattle.std.specs.Option.{option_or};

use crate::kept_state::KeptState;
use crate::tags::note_for;
use sg_base::{Label, Name, Opening, OutOfMemory, Role, RoleSet, Seq, Sid, Tag, Time, Value, Var};
use sg_crypt::{Hashed, Notes, Pair, SharedCast, commit_text, cut, item_text, tag};
use sg_keys::Keyring;
use std::alloc::Global;

/// The openings of what is written.
pub(crate) fn written_openings(
    alloc: Global,
    values: &[(Var, Value)],
    confounders: &[[u8; 16]],
) -> Result<Vec<Opening>, OutOfMemory>
    requires { length confounders.now ≡ length values.now }
    ensures { IfOk result (λ os. os.items ≡ openings_for (values_of values.now) confounders.now) }
{
    let mut openings = Vec::new(alloc);
    for at in 0..values.len() {
        openings.push(Opening {
            var: values[at].0,
            confounder: confounders[at],
            value: values[at].1.copy(alloc)?,
        })?;
    }
    Ok(openings)
}

/// The same values.
pub(crate) fn copy_values(
    alloc: Global,
    values: &[(Var, Value)],
) -> Result<Seq<(Var, Value)>, OutOfMemory>
    ensures { IfOk result (λ l. l ≡ values.now) }
{
    let mut list = Seq::from_vec(Vec::with_capacity(alloc, values.len())?);
    for at in 0..values.len() {
        let value = values[at].1.copy(alloc)?;
        list.push((values[at].0, value))?;
    }
    Ok(list)
}

/// The commitments of what is written. What is hashed is noted.
#[tactic(auto, using(crate::proofs::Walked::extends_hashed))]
pub(crate) fn commit_each(
    alloc: Global,
    sid: &Sid,
    written: &[Opening],
    notes: &mut Notes,
) -> Result<Vec<(Var, [u8; 32])>, OutOfMemory>
    ensures value { IfOk result (λ d. d.items ≡ delta_of sid.now written.now) }
    ensures noted { OnOk result (notes.new ≡ record notes.old { hashed = notes.old.hashed ++ map (commitment_text_of sid.now) written.now }) }
    ensures keeps { Extends notes.old notes.new }
{
    let mut delta = Vec::new(alloc);
    for at in 0..written.len() {
        let made = commit_one(alloc, sid, &written[at], notes)?;
        delta.push(made)?;
    }
    Ok(delta)
}

// The commitment of what is written. What is hashed is noted.
fn commit_one(
    alloc: Global,
    sid: &Sid,
    opening: &Opening,
    notes: &mut Notes,
) -> Result<(Var, [u8; 32]), OutOfMemory>
    ensures value { IfOk result (λ d. d ≡ (opening.now.variable, commitment real sid.now opening.now)) }
    ensures noted { OnOk result (notes.new ≡ record notes.old { hashed = notes.old.hashed ++ commitment_text_of sid.now opening.now ∷ [] }) }
    ensures same { OnErr result (notes.new ≡ notes.old) }
{
    Ok((opening.var, note_commitment(alloc, sid, opening, notes)?))
}

/// The commitment of an opening. What is hashed is noted.
pub(crate) fn note_commitment(
    alloc: Global,
    sid: &Sid,
    opening: &Opening,
    notes: &mut Notes,
) -> Result<[u8; 32], OutOfMemory>
    ensures value { IfOk result (λ c. c ≡ commitment real sid.now opening.now) }
    ensures noted { OnOk result (notes.new ≡ record notes.old { hashed = notes.old.hashed ++ commitment_text_of sid.now opening.now ∷ [] }) }
    ensures same { OnErr result (notes.new ≡ notes.old) }
{
    let text = Hashed::new(commit_text(alloc, sid, opening)?);
    let commitment = *text.digest();
    notes.note_hashed(text)?;
    Ok(commitment)
}

/// The current commitments after a delta.
#[tactic(auto, using(crate::proofs::Lists::map_below))]
pub(crate) fn commitments_with(
    alloc: Global,
    count: u8,
    commitments: &[Option<[u8; 32]>],
    delta: &[(Var, [u8; 32])],
) -> Result<Vec<Option<[u8; 32]>>, OutOfMemory>
    ensures { IfOk result (λ v. v.items ≡ commitments_after count commitments.now delta.now) }
{
    let mut list = Vec::new(alloc);
    for number in 0..count {
        list.push(current(commitments, delta, Var(number)))?;
    }
    Ok(list)
}

// The current commitment of a variable after a delta.
fn current(
    commitments: &[Option<[u8; 32]>],
    delta: &[(Var, [u8; 32])],
    var: Var,
) -> Option<[u8; 32]>
    ensures { result ≡ option_or (value_at delta.now var) (get_or commitments.now var None) }
{
    match commitment_in(delta, var) {
        Some(commitment) => Some(commitment),
        None => {
            if (var.0 as usize) < commitments.len() {
                commitments[var.0 as usize]
            } else {
                None
            }
        }
    }
}

/// The commitment of a variable in a delta.
pub(crate) fn commitment_in(delta: &[(Var, [u8; 32])], var: Var) -> Option<[u8; 32]>
    ensures { result ≡ value_at delta.now var }
{
    for at in 0..delta.len() {
        let (other, commitment) = delta[at];
        if other == var {
            return Some(commitment);
        }
    }
    None
}

/// The roles of a set.
pub(crate) fn roles_of(alloc: Global, set: RoleSet) -> Result<Vec<Role>, OutOfMemory>
    ensures { IfOk result (λ v. v.items ≡ filter (λ x. is_in x set) (below 16)) }
{
    let mut list = Vec::new(alloc);
    for number in 0..16u8 {
        if set.has(Role(number)) {
            list.push(Role(number))?;
        }
    }
    Ok(list)
}

/// The tag of the own item along the label for each target, with these commitments. Each text is noted.
pub(crate) fn tags_for(
    alloc: Global,
    kept: &KeptState,
    keys: &Keyring,
    label: Label,
    commitments: &[Option<[u8; 32]>],
    targets: &[Role],
    notes: &mut Notes,
) -> Result<Vec<(Role, Tag)>, OutOfMemory>
    requires targets { AllByRecursion (λ t. t < length kept.now.cast.names) targets.now }
    requires time { kept.now.time < most_time }
    ensures value { IfOk result (λ d. d.items ≡ map (λ t. (t, tag_for real keys.now kept.now.cast t (own_text (state_of kept.now).held label commitments.now t))) targets.now) }
    ensures noted { OnOk result (notes.new ≡ record notes.old {
      made = notes.old.made ++ map (λ t. note_of keys.now.me (principal kept.now.cast t) (own_text (state_of kept.now).held label commitments.now t)) targets.now;
    }) }
    ensures keeps { Extends notes.old notes.new }
{
    let mut tags = Vec::new(alloc);
    for at in 0..targets.len() {
        let target = targets[at];
        let made = tag_target(alloc, kept, keys, label, commitments, target, notes)?;
        tags.push((target, made))?;
    }
    Ok(tags)
}

// The tag of the own item for a target. Its text is noted.
fn tag_target(
    alloc: Global,
    kept: &KeptState,
    keys: &Keyring,
    label: Label,
    commitments: &[Option<[u8; 32]>],
    target: Role,
    notes: &mut Notes,
) -> Result<Tag, OutOfMemory>
    requires target { target < length kept.now.cast.names }
    requires time { kept.now.time < most_time }
    ensures value { IfOk result (λ t. t ≡ tag_for real keys.now kept.now.cast target (own_text (state_of kept.now).held label commitments.now target)) }
    ensures noted { OnOk result (notes.new ≡ record notes.old {
      made = notes.old.made ++ note_of keys.now.me (principal kept.now.cast target) (own_text (state_of kept.now).held label commitments.now target) ∷ [];
    }) }
    ensures same { OnErr result (notes.new ≡ notes.old) }
{
    let text = item_text(
        alloc,
        kept.cast.version(),
        &kept.sid,
        kept.program.role(),
        target,
        label,
        Time(kept.time.0 + 1),
        commitments,
    )?;
    make_tag(alloc, &kept.cast, keys, target, text, notes)
}

/// The tag of a text for the principal of a role. The text is noted.
pub(crate) fn make_tag(
    alloc: Global,
    cast: &SharedCast,
    keys: &Keyring,
    role: Role,
    text: Vec<u8>,
    notes: &mut Notes,
) -> Result<Tag, OutOfMemory>
    requires { role < length cast.now.names }
    ensures value { IfOk result (λ t. t ≡ tag_for real keys.now cast.now role text.items) }
    ensures noted { OnOk result (notes.new ≡ record notes.old {
      made = notes.old.made ++ note_of keys.now.me (principal cast.now role) text.items ∷ [];
    }) }
    ensures same { OnErr result (notes.new ≡ notes.old) }
{
    let version = cast.version();
    let peer = name_of(cast, role);
    let (made, pair) = tag_to(keys, &peer, version, text.as_slice());
    notes.note_made(note_for(alloc, keys, pair, peer, text)?)?;
    Ok(made)
}

/// The principal of a role.
pub(crate) fn name_of(cast: &SharedCast, role: Role) -> Name
    requires { role < length cast.now.names }
    ensures { result ≡ principal cast.now role }
{
    cast.get().names()[role.0 as usize]
}

// The tag of a text under the key shared with a principal, or under no bytes if none is shared, as the version sends it; and the two
// that share a key.
fn tag_to<'k>(keys: &'k Keyring, peer: &Name, version: u8, text: &[u8]) -> (Tag, Option<&'k Pair>)
    requires { IsVersion version }
    ensures tag { result.0 ≡ cut version (hmac real (unwrap_or (key_of keys.now peer.now) []) text.now) }
    ensures pair { IfSome result.1 (λ p. p.now ≡ pair_of keys.now.me peer.now) }
{
    match keys.key_with(peer) {
        Some((key, pair)) => (cut(version, key.tag(&[], text)), Some(pair)),
        None => (cut(version, tag(&[], &[], text)), None),
    }
}
