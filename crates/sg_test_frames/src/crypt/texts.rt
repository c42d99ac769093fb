//! The texts that are hashed or tagged.
ghost use Rattle.std.specs.Prelude.{◌≡◌, ◌⊎◌};

use sg_base::{Chars, Label, Opening, Role, Sid, Time, Value, Var};
use sg_crypt::{
    Cast, commit, commit_text, frame_text, graph_digest, graph_text, item_text, session_id,
    session_text,
};
use sg_table::{Args, bytes, fixed, name, name_or_none};
use std::alloc::Global;

pub fn of_text(alloc: Global, call: &str, words: &[Vec<u8>]) -> Option<Vec<u8>> {
    let mut args = Args::new(words);
    let text = match call {
        "graph_text" => graph_text(alloc, args.word()).ok(),
        "graph_digest" => bytes(alloc, &graph_digest(args.word())),
        _ => frame_text(alloc, version(&mut args), args.word()).ok(),
    };
    args.gives(text)
}

// An empty word is no commitment.
pub fn of_item(alloc: Global, words: &[Vec<u8>]) -> Option<Vec<u8>> {
    let mut args = Args::new(words);
    let version = version(&mut args);
    let sid = Sid(args.fixed());
    let sender = Role(args.byte());
    let target = Role(args.byte());
    let label = Label(u16::from_be_bytes(args.fixed()));
    let time = Time(u32::from_be_bytes(args.fixed()));
    let commitments = [fixed(args.word()), fixed(args.word())];
    let text = item_text(
        alloc,
        version,
        &sid,
        sender,
        target,
        label,
        time,
        &commitments,
    );
    args.gives(text.ok())
}

pub fn of_cast(alloc: Global, call: &str, words: &[Vec<u8>]) -> Option<Vec<u8>> {
    let mut args = Args::new(words);
    let cast = cast(&mut args)?;
    let answer = if call == "session_id" {
        bytes(alloc, &session_id(&cast).0)
    } else {
        session_text(alloc, &cast).ok()
    };
    args.gives(answer)
}

pub fn principal(alloc: Global, words: &[Vec<u8>]) -> Option<Vec<u8>> {
    let mut args = Args::new(words);
    let at = Role(args.byte());
    let answer = name_or_none(alloc, cast(&mut args)?.of(at));
    args.gives(answer)
}

pub fn of_opening(alloc: Global, call: &str, words: &[Vec<u8>]) -> Option<Vec<u8>> {
    let mut args = Args::new(words);
    let sid = Sid(args.fixed());
    let var = Var(args.byte());
    let confounder = args.fixed();
    let value = typed(alloc, args.word(), args.word())?;
    let opening = Opening {
        var,
        confounder,
        value,
    };
    args.gives(of_one(alloc, call, &sid, &opening))
}

// The commitment of an opening, or the text under it.
fn of_one(alloc: Global, call: &str, sid: &Sid, opening: &Opening) -> Option<Vec<u8>> {
    if call == "commit" {
        bytes(alloc, &commit(sid, opening))
    } else {
        commit_text(alloc, sid, opening).ok()
    }
}

fn cast(args: &mut Args<'_>) -> Option<Cast> {
    let version = args.byte();
    let digest = args.fixed();
    let nonce = args.fixed();
    let names = [name(args.word())?, name(args.word())?, name(args.word())?];
    Cast::new(version, digest, nonce, &names)
}

/// A version, 1 or 2.
pub fn version(args: &mut Args<'_>) -> u8
    ensures { (result ≡ 1) ⊎ (result ≡ 2) }
{
    if args.byte() == 2 {
        return 2;
    }
    1
}

/// A value of a type: a number of eight bytes for 0, and a text for 1.
pub fn typed(alloc: Global, kind: &[u8], value: &[u8]) -> Option<Value> {
    match kind {
        [0] => Some(Value::Int(i64::from_be_bytes(fixed(value)?))),
        [1] => Some(Value::Text(Chars::new(alloc, value).ok()?)),
        _ => None,
    }
}
