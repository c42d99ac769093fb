//! The texts that are hashed or tagged.
ghost use Rattle.std.specs.Prelude.{◌≡◌, ◌==◌, ◌++◌, codes, if◌then◌else◌, flat_map, IfOk, OnOk};
ghost use Rattle.sg_protocol.specs.Graph.{Graph, canonical};
ghost use Rattle.sg_protocol.specs.Texts.{graph_text_of, session_text_of, commitment_text_of, item_text_of, frame_text_of, maybe_commitment};
ghost use Rattle.sg_protocol.specs.TextLaws.{IsVersion};

use crate::cast::Cast;
use crate::put::{put_name, put_opening};
use sg_base::{ByteOut, Label, Opening, OutOfMemory, Role, Sid, Time};
use std::alloc::Global;

// The room that each text begins with: enough for one of the usual length, and a longer one takes more.
const SESSION_ROOM: usize = 128;

const COMMIT_ROOM: usize = 96;

const WORD_ROOM: usize = 12;

const ITEM_ROOM: usize = 52;

const COMMITMENT_ROOM: usize = 33;

// How many variables a graph has at most.
const MOST_VARS: usize = 32;

/// The text under the digest of a graph with this canonical text.
pub fn graph_text(alloc: Global, text: &[u8]) -> Result<Vec<u8>, OutOfMemory>
    ensures value { IfOk result (λ t. t.items ≡ codes "sg-graph-1" ++ text.now) }
    ensures graph { IfOk result (λ t. (g : Graph) → text.now ≡ canonical g → t.items ≡ graph_text_of g) }
{
    let mut out = ByteOut::new(alloc);
    out.bytes(GRAPH)?;
    out.bytes(text)?;
    Ok(out.done())
}

/// The text under the identifier of a session: the digest of its graph, its nonce, and its principals in the order of their roles.
pub fn session_text(alloc: Global, cast: &Cast) -> Result<Vec<u8>, OutOfMemory>
    ensures { IfOk result (λ t. t.items ≡ session_text_of cast.now) }
{
    let mut out = ByteOut::with_room(alloc, SESSION_ROOM)?;
    out.bytes(session_word(cast.version()))?;
    out.bytes(&cast.graph())?;
    out.bytes(&cast.nonce())?;
    out.u8(cast.count())?;
    for name in cast.names() {
        put_name(&mut out, name)?;
    }
    Ok(out.done())
}

/// The text under the commitment to a value in a session: the session, the variable, the confounder and the value.
pub fn commit_text(alloc: Global, sid: &Sid, opening: &Opening) -> Result<Vec<u8>, OutOfMemory>
    ensures { IfOk result (λ t. t.items ≡ commitment_text_of sid.now opening.now) }
{
    let mut out = ByteOut::with_room(alloc, COMMIT_ROOM)?;
    out.bytes(COMMIT)?;
    out.bytes(&sid.0)?;
    put_opening(&mut out, opening)?;
    Ok(out.done())
}

/// What the sender's tag for another role says: the step, and the current commitment of each variable of the graph in order.
pub fn item_text(
    alloc: Global,
    version: u8,
    sid: &Sid,
    sender: Role,
    target: Role,
    label: Label,
    time: Time,
    commitments: &[Option<[u8; 32]>],
) -> Result<Vec<u8>, OutOfMemory>
    requires { IsVersion version }
    ensures { IfOk result (λ t. t.items ≡ item_text_of version sid.now sender target label time commitments.now) }
{
    let mut out = ByteOut::with_room(alloc, item_room(commitments.len()))?;
    out.bytes(item_word(version))?;
    out.bytes(&sid.0)?;
    out.u8(sender.0)?;
    out.u8(target.0)?;
    out.u16(label.0)?;
    out.u32(time.0)?;
    put_commitments(&mut out, commitments)?;
    Ok(out.done())
}

// The room for an item's text with `count` commitments.
fn item_room(count: usize) -> usize {
    if count < MOST_VARS {
        ITEM_ROOM + COMMITMENT_ROOM * count
    } else {
        ITEM_ROOM + COMMITMENT_ROOM * MOST_VARS
    }
}

/// The text under the tag of a frame with these bytes before the tag.
pub fn frame_text(alloc: Global, version: u8, body: &[u8]) -> Result<Vec<u8>, OutOfMemory>
    requires { IsVersion version }
    ensures { IfOk result (λ t. t.items ≡ frame_text_of version body.now) }
{
    let mut out = ByteOut::with_room(alloc, WORD_ROOM + body.len())?;
    out.bytes(frame_word(version))?;
    out.bytes(body)?;
    Ok(out.done())
}

// The byte 0, or the byte 1 and the commitment, for each.
fn put_commitments(out: &mut ByteOut, commitments: &[Option<[u8; 32]>]) -> Result<(), OutOfMemory>
    ensures { OnOk result (out.new ≡ out.old ++ flat_map maybe_commitment commitments.now) }
{
    for commitment in commitments {
        put_commitment(out, commitment)?;
    }
    Ok(())
}

fn put_commitment(out: &mut ByteOut, commitment: &Option<[u8; 32]>) -> Result<(), OutOfMemory>
    ensures { OnOk result (out.new ≡ out.old ++ maybe_commitment commitment.now) }
{
    match commitment {
        None => out.u8(0),
        Some(bytes) => {
            out.u8(1)?;
            out.bytes(bytes)
        }
    }
}

/// The prefix of the text of a graph.
pub const GRAPH: &[u8] = b"sg-graph-1";

/// The prefix of the text of a commitment.
pub const COMMIT: &[u8] = b"sg-commit-1";

/// The prefix of the text of a session.
pub fn session_word(version: u8) -> &'static [u8]
    ensures { result.now ≡ (if version == 2 then codes "sg-session-2" else codes "sg-session-1") }
{
    word_of(version, b"sg-session-1", b"sg-session-2")
}

/// The prefix of the text of an item.
pub fn item_word(version: u8) -> &'static [u8]
    ensures { result.now ≡ (if version == 2 then codes "sg-item-2" else codes "sg-item-1") }
{
    word_of(version, b"sg-item-1", b"sg-item-2")
}

/// The prefix of the text of a frame.
pub fn frame_word(version: u8) -> &'static [u8]
    ensures { result.now ≡ (if version == 2 then codes "sg-frame-2" else codes "sg-frame-1") }
{
    word_of(version, b"sg-frame-1", b"sg-frame-2")
}

// The word of version 1 or of version 2.
fn word_of(version: u8, first: &'static [u8], second: &'static [u8]) -> &'static [u8]
    ensures { result.now ≡ (if version == 2 then second.now else first.now) }
{
    if version == 2 { second } else { first }
}
