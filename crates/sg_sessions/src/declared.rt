//! What a generated run declares.
ghost use Rattle.std.specs.Prelude.{◌≡◌, ◌<◌, ◌≤◌, ◌++◌, ◌∷◌, [], length, map, IfOk, OnOk};
ghost use Rattle.std.specs.Fmt.{decimal};
ghost use Rattle.sg_model.specs.Limits.{most_driven};
ghost use Rattle.sg_protocol.specs.Crafted.{nonce_of};
ghost use Rattle.sg_protocol.specs.IsSchedule.{IsSchedule};
ghost use Rattle.sg_protocol.specs.Texts.{real};
ghost use Rattle.sg_sessions.specs.Setup.{key_of, keys_for, keys_with_later, numbered_session, player, players, setup};
ghost use Rattle.sg_model.specs.Lists.{range_from};

use sg_base::{ByteOut, Name, OutOfMemory, Seq};
use sg_crypt::Cast;
use sg_graph::Graph;
use sg_sched::cast::{digest_of, nonce_bytes};
use sg_sched::node_name::name_of;
use sg_sched::{NamedSession, PairKey, Schedule};
use std::alloc::Global;

/// `sessions` sessions of a graph, counted from 1, with a principal for each role, all of them honest; no step.
pub fn setup(alloc: Global, sessions: u32, graph: &Graph) -> Result<Schedule, OutOfMemory>
    requires two { 2 ≤ length graph.now.roles }
    requires few { sessions ≤ most_driven }
    ensures setup { IfOk result (λ s. s ≡ setup sessions graph.now) }
    ensures schedule { OnOk result (IsSchedule real (setup sessions graph.now)) }
{
    let roles = graph.roles();
    let honest = players(alloc, roles)?;
    let keys = keys_for(alloc, roles)?;
    let sessions = sessions_of(alloc, sessions, graph, honest.as_slice())?;
    let graphs = alone(alloc, graph)?;
    Ok(Schedule {
        graphs,
        honest,
        keys,
        sessions,
        steps: Seq::new(alloc),
    })
}

// A list of an equal graph alone.
fn alone(alloc: Global, graph: &Graph) -> Result<Seq<Graph>, OutOfMemory>
    ensures { IfOk result (λ graphs. graphs ≡ graph.now ∷ []) }
{
    let copy = graph.copy(alloc)?;
    let mut graphs = Seq::new(alloc);
    graphs.push(copy)?;
    Ok(graphs)
}

/// The principal of a role.
pub fn player(role: u8) -> Name
    requires { role < 16 }
    ensures { result ≡ player role }
{
    if role < 10 {
        name_of(&[b'p', b'0' + role])
    } else {
        name_of(&[b'p', b'1', b'0' + role % 10])
    }
}

// The principals of `roles` roles, in order.
fn players(alloc: Global, roles: u8) -> Result<Seq<Name>, OutOfMemory>
    requires { roles ≤ 16 }
    ensures { IfOk result (λ names. names ≡ players roles) }
{
    let mut names = Seq::new(alloc);
    for role in 0..roles {
        names.push(player(role))?;
    }
    Ok(names)
}

// A key for each two principals.
fn keys_for(alloc: Global, roles: u8) -> Result<Seq<PairKey>, OutOfMemory>
    requires { roles ≤ 16 }
    ensures { IfOk result (λ keys. keys ≡ keys_for roles) }
{
    let mut keys = Seq::new(alloc);
    for role in 0..roles {
        put_keys(&mut keys, roles, role)?;
    }
    Ok(keys)
}

// Puts the keys of a role's principal and those of later roles after the others.
fn put_keys(keys: &mut Seq<PairKey>, roles: u8, role: u8) -> Result<(), OutOfMemory>
    requires { (role < roles) × (roles ≤ 16) }
    ensures { OnOk result (keys.new ≡ keys.old ++ keys_with_later roles role) }
{
    for later in role + 1..roles {
        keys.push(key_of(role, later))?;
    }
    Ok(())
}

// The key of the principals of two roles: both numbers, then zeros.
fn key_of(one: u8, two: u8) -> PairKey
    requires { (one < 16) × (two < 16) }
    ensures { result ≡ key_of one two }
{
    let mut key = [0u8; 32];
    key[0] = one;
    key[1] = two;
    PairKey {
        one: player(one),
        two: player(two),
        key,
    }
}

// `sessions` sessions of a graph, counted from 1.
fn sessions_of(
    alloc: Global,
    sessions: u32,
    graph: &Graph,
    names: &[Name],
) -> Result<Seq<NamedSession>, OutOfMemory>
    requires names { names.now ≡ players (length graph.now.roles) }
    requires two { 2 ≤ length graph.now.roles }
    requires many { length graph.now.roles ≤ 16 }
    requires few { sessions ≤ most_driven }
    ensures { IfOk result (λ list. list ≡ map (numbered_session graph.now) (range_from 1 sessions)) }
{
    let digest = digest_of(alloc, graph)?;
    let mut list = Seq::new(alloc);
    for index in 0..sessions {
        list.push(session(alloc, index + 1, digest, names)?)?;
    }
    Ok(list)
}

// The session of a number: its name is s and the number, and its nonce is the number.
fn session(
    alloc: Global,
    number: u32,
    digest: [u8; 32],
    names: &[Name],
) -> Result<NamedSession, OutOfMemory>
    requires number { number ≤ most_driven }
    requires names { (2 ≤ length names.now) × (length names.now ≤ 16) }
    ensures { IfOk result (λ d. d ≡ record {
      name = 115 ∷ decimal number;
      cast = record { version = 1; graph = digest; nonce = nonce_of number; names = names.now };
    }) }
{
    let name = session_name(alloc, number)?;
    match Cast::new(1, digest, nonce_bytes(u64::from(number)), names) {
        Some(cast) => Ok(NamedSession { name, cast }),
        None => unreachable!(),
    }
}

// The name of the session of a number.
fn session_name(alloc: Global, number: u32) -> Result<Name, OutOfMemory>
    requires { number ≤ most_driven }
    ensures { IfOk result (λ n. n ≡ 115 ∷ decimal number) }
{
    let mut out = ByteOut::new(alloc);
    out.u8(b's')?;
    out.decimal(u64::from(number))?;
    Ok(name_of(out.done().as_slice()))
}
