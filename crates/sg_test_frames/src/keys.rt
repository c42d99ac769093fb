//! Key files, and keyrings.
use sg_base::{Addr, ByteOut, Name, OutOfMemory};
use sg_crypt::Cast;
use sg_keys::{KeyFault, Keyring};
use sg_table::{Args, Calls, Target, answers, bytes, hold, name, name_or_none, text};
use std::alloc::Global;

const ADDR: Addr = Addr {
    ip: [0; 4],
    port: 0,
};

struct Keys;

impl Calls for Keys {
    fn answer(&self, alloc: Global, call: &str, words: &[Vec<u8>]) -> Option<Vec<u8>> {
        if call == "added" {
            return added(alloc, words);
        }
        let mut args = Args::new(words);
        let answer = match call {
            "keys" => is_read(alloc, Keyring::from_toml(alloc, args.word())),
            "many" => many(alloc, &mut args),
            _ => said(alloc, call, &mut args),
        };
        args.gives(answer)
    }
}

fn added(alloc: Global, words: &[Vec<u8>]) -> Option<Vec<u8>> {
    let (me, peers) = words.split_first()?;
    let keys = Keyring::new(alloc, name(me)?, ADDR);
    answers(alloc, &mut Peers { keys }, peers)
}

fn many(alloc: Global, args: &mut Args<'_>) -> Option<Vec<u8>> {
    let mut text = ByteOut::new(alloc);
    put_many(
        &mut text,
        args.word(),
        args.number(),
        args.word(),
        args.word(),
    )
    .ok()?;
    is_read(alloc, Keyring::from_toml(alloc, &text.done()))
}

// What a key file says.
fn said(alloc: Global, call: &str, args: &mut Args<'_>) -> Option<Vec<u8>> {
    let keys = Keyring::from_toml(alloc, args.word()).ok()?;
    of_keyring(alloc, &keys, call, args)
}

// `read`, or why the bytes are no key file.
fn is_read(alloc: Global, keys: Result<Keyring, KeyFault>) -> Option<Vec<u8>> {
    match keys {
        Ok(_) => bytes(alloc, b"read"),
        Err(fault) => text(alloc, &fault),
    }
}

// Puts a key file with so many peers p0, p1, .. with these entries behind their names, and then the last one.
fn put_many(
    out: &mut ByteOut,
    head: &[u8],
    count: u32,
    peer: &[u8],
    last: &[u8],
) -> Result<(), OutOfMemory> {
    out.bytes(head)?;
    for number in 0..count {
        write!(out, "[[peer]]\nname = \"p{number}\"\n")?;
        out.bytes(peer)?;
    }
    out.bytes(last)
}

fn of_keyring(alloc: Global, keys: &Keyring, call: &str, args: &mut Args<'_>) -> Option<Vec<u8>> {
    match call {
        "me" => bytes(alloc, keys.me().as_bytes()),
        "listen" => spelled(alloc, Some(keys.listen())),
        "addr" => spelled(alloc, keys.addr(&name(args.word())?)),
        "key" => key_or_none(alloc, keys, &name(args.word())?),
        _ => covered(alloc, keys, args),
    }
}

fn key_or_none(alloc: Global, keys: &Keyring, peer: &Name) -> Option<Vec<u8>> {
    match keys.key(peer) {
        Some(key) => bytes(alloc, key),
        None => bytes(alloc, b"none"),
    }
}

// The first of three principals that has no key.
fn covered(alloc: Global, keys: &Keyring, args: &mut Args<'_>) -> Option<Vec<u8>> {
    let principals = [name(args.word())?, name(args.word())?, name(args.word())?];
    let cast = Cast::new(1, [0; 32], [0; 16], &principals)?;
    name_or_none(alloc, keys.covers(&cast))
}

fn spelled(alloc: Global, addr: Option<Addr>) -> Option<Vec<u8>> {
    let Some(addr) = addr else {
        return bytes(alloc, b"none");
    };
    let ip = addr.ip;
    let mut out = ByteOut::new(alloc);
    out.bytes(&ip).ok()?;
    out.u16(addr.port).ok()?;
    Some(out.done())
}

// A keyring to which peers are added.
#[derive(Drop)]
struct Peers {
    keys: Keyring,
}

// A call is a byte of a peer's key, and its name. The answer has the key with this name afterwards.
impl Target for Peers {
    fn call(&mut self, alloc: Global, out: &mut ByteOut, word: &[u8]) -> Option<()> {
        let (byte, peer) = word.split_first()?;
        let peer = name(peer)?;
        match self.keys.add(alloc, peer, ADDR, [*byte; 32]) {
            Ok(()) => out.bytes(b"ok,").ok()?,
            Err(fault) => write!(out, "{fault},").ok()?,
        }
        match self.keys.key(&peer) {
            Some(key) => out.bytes(key).ok(),
            None => Some(()),
        }
    }
}

#[test]
fn key_files_and_keyrings(rt: HostRuntime) -> Result<(), &'static str> {
    hold(rt.alloc(), &Keys, &[LINES])
}

// What is said of shorter key files is in tools/cases/runs.cases.
const LINES: &str = "
let HEAD 'me_=_\"a\"^listen_=_\"127.0.0.1:4001\"^
let B '[[peer]]^name_=_\"b\"^addr_=_\"127.0.0.1:4002\"^key_=_\"1111111111111111111111111111111111111111111111111111111111111111\"^

# What a key file says: its principal's name and address; a peer's address and key; and of a cast the first principal without a key.

keys $HEAD+$B 'read
me $HEAD+$B 'a
listen $HEAD+$B 7f000001+0fa1
addr $HEAD+$B 'b 7f000001+0fa2
key $HEAD+$B 'b 32*11
key $HEAD+$B 'a 'none
covers $HEAD+$B 'b 'a 'c 'c

# The head is looked at before the peers.

keys 'me_=_\"a\"^+$B 'entry_0
keys 'me_=_\"1\"^listen_=_\"127.0.0.1:4001\"^+$B 'entry_0

# A peer is added once, and no principal is its own peer.

added 'a 07+'b 08+'b 08+'a 'ok,+32*07+'a_peer_twice,+32*07+'a_peer_twice,

# An entry that is bad, or whose name was there, is named by its number, however many are before it: here 65,535.

let PEER 'addr_=_\"1.2.3.4:5\"^key_=_\"AAAAAAAAAAAAAAAAAAAAAAAAAAAAAAAAaaaaaaaaaaaaaaaaaaaaaaaaaaaaaaaa\"^
many $HEAD '65535 $PEER ' 'read
many $HEAD '65535 $PEER '[[peer]]^ 'entry_65536
many $HEAD '65535 $PEER '[[peer]]^name_=_\"p0\"^+$PEER 'twice_65536
";
