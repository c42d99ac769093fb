//! The reader of key files.
ghost use Rattle.std.specs.Prelude.{◌≡◌, ◌≢◌, ◌⊎◌, Err, Some, None, map, option_map, IfErr, IfOk, IsUtf8, OnOk};
ghost use Rattle.toml.specs.View.{view, table_view};
ghost use Rattle.sg_keys.specs.KeyFile.{document, key_file, head_of, peer_of, with_entry, with_entries, SpellsKeys};
ghost use Rattle.sg_keys.specs.Names.{peer_at};

use crate::document::read_document;
use crate::table::{address_at, has_keys_alone, key_at, name_at, tables_at};
use crate::{Keyring, PeerFault};
use sg_base::{Addr, Name};
use std::alloc::Global;
use std::error::Error;
use std::fmt;
use toml::{Table, Value};

/// Why a key file can't be read: the fault of the first entry that has one. The head is entry 0, and peers are counted from 1.
#[derive(Debug, Clone, Copy, PartialEq, Eq)]
pub enum KeyFault {
    /// The bytes are not TOML.
    NotToml,
    /// A key of the entry is missing, is not allowed, or has a value that isn't what it must be. A `peer` that isn't a list of
    /// tables is a fault of the head.
    BadEntry {
        /// The entry's number: 0 for the head, and from 1 on for the peers in order.
        entry: usize,
    },
    /// The peer's name is the principal's own, or an earlier peer's.
    Twice {
        /// The later peer's entry, from 1 on.
        entry: usize,
    },
    /// Out of memory.
    OutOfMemory,
}

impl Error for KeyFault {}

impl fmt::Display for KeyFault {
    ghost use Rattle.std.specs.Prelude.{Some};
    ghost use Rattle.sg_keys.specs.FaultText.{keys_text};

    ghost output = { λ fault. Some (keys_text fault) };

    fn fmt<W: fmt::Write>(&self, f: &mut fmt::Formatter<W>) -> fmt::Result {
        match self {
            KeyFault::NotToml => f.write_str("not toml"),
            KeyFault::BadEntry { entry } => write!(f, "entry {entry}"),
            KeyFault::Twice { entry } => write!(f, "twice {entry}"),
            KeyFault::OutOfMemory => f.write_str("out of memory"),
        }
    }
}

// The head of a key file: a keyring without peers, and the entries of its peers.
#[derive(Clone, Copy)]
struct Head<'a> {
    me: Name,
    listen: Addr,
    entries: &'a [Value],
}

// A peer of a key file.
#[derive(Clone, Copy)]
struct PeerEntry {
    name: Name,
    addr: Addr,
    key: [u8; 32],
}

impl Keyring {
    ghost use Rattle.sg_protocol.specs.Keyring.{Keyring};

    /// The keyring that the bytes of a key file spell, or the first fault. The head is looked at first, then each peer in order, for
    /// a bad entry and then for a name that is there. Bytes that are no UTF-8 are refused before any memory is taken.
    pub fn from_toml(alloc: Global, bytes: &[u8]) -> Result<Keyring, KeyFault>
        ensures spelled { IfOk result (SpellsKeys bytes.now) }
        ensures each { (keys : Keyring) → SpellsKeys bytes.now keys → (result ≡ Ok keys) ⊎ (result ≡ Err KeyFault.OutOfMemory) }

        ensures answer { IfOk result (λ k. key_file bytes.now ≡ Ok k) }
        ensures first_fault { IfErr result (λ e. e ≢ KeyFault.OutOfMemory → key_file bytes.now ≡ Err e) }
        // Memory never runs out for bytes that are no text.
        ensures not_text { ¬ IsUtf8 bytes.now → result ≡ Err KeyFault.NotToml }
    {
        read_keys(alloc, bytes)
    }
}

// The keyring or the first fault.
fn read_keys(alloc: Global, bytes: &[u8]) -> Result<Keyring, KeyFault>
    ensures answer { IfOk result (λ k. key_file bytes.now ≡ Ok k) }
    ensures fault { IfErr result (λ e. e ≢ KeyFault.OutOfMemory → key_file bytes.now ≡ Err e) }
    ensures not_text { ¬ IsUtf8 bytes.now → result ≡ Err KeyFault.NotToml }
{
    let Some(table) = read_document(alloc, bytes).map_err(|_| KeyFault::OutOfMemory)? else {
        return Err(KeyFault::NotToml);
    };
    let Some(head) = read_head(&table) else {
        return Err(KeyFault::BadEntry { entry: 0 });
    };
    add_entries(
        alloc,
        Keyring::new(alloc, head.me, head.listen),
        head.entries,
    )
}

// The head of the data of a key file.
#[tactic(auto, unfolding(crate::specs::KeyFile::head_of))]
fn read_head(table: &Table) -> Option<Head<'_>>
    ensures { option_map (λ h. record { me = h.me; listen = h.listen; entries = map view h.entries.now }) result ≡ head_of (table_view table.now) }
{
    if !has_keys_alone(table, &["me", "listen", "peer"]) {
        return None;
    }
    let me = name_at(table, "me")?;
    let listen = address_at(table, "listen")?;
    let entries = tables_at(table, "peer")?;
    Some(Head {
        me,
        listen,
        entries,
    })
}

// The peer of an entry.
#[tactic(auto, unfolding(crate::specs::KeyFile::peer_of))]
fn read_peer(value: &Value) -> Option<PeerEntry>
    ensures { option_map (λ p. peer_at p.name p.addr p.key) result ≡ peer_of (view value.now) }
{
    let table = value.as_table()?;
    if !has_keys_alone(table, &["name", "addr", "key"]) {
        return None;
    }
    let name = name_at(table, "name")?;
    let addr = address_at(table, "addr")?;
    let key = key_at(table, "key")?;
    Some(PeerEntry { name, addr, key })
}

// Adds the peer of the entry of this number. After a refusal the keyring is as before.
fn add_entry(
    alloc: Global,
    keys: &mut Keyring,
    number: usize,
    value: &Value,
) -> Result<(), KeyFault>
    ensures ok { OnOk result (with_entry keys.old number (peer_of (view value.now)) ≡ Ok keys.new) }
    ensures fault { IfErr result (λ e. e ≢ KeyFault.OutOfMemory → with_entry keys.old number (peer_of (view value.now)) ≡ Err e) }
{
    let Some(peer) = read_peer(value) else {
        return Err(KeyFault::BadEntry { entry: number });
    };
    match keys.add(alloc, peer.name, peer.addr, peer.key) {
        Ok(()) => Ok(()),
        Err(PeerFault::Twice) => Err(KeyFault::Twice { entry: number }),
        Err(PeerFault::OutOfMemory) => Err(KeyFault::OutOfMemory),
    }
}

// Adds the peers of the entries, from entry 1 on.
fn add_entries(alloc: Global, mut keys: Keyring, values: &[Value]) -> Result<Keyring, KeyFault>
    ensures ok { IfOk result (λ k. with_entries keys 1 (map peer_of (map view values.now)) ≡ Ok k) }
    ensures fault { IfErr result (λ e. e ≢ KeyFault.OutOfMemory → with_entries keys 1 (map peer_of (map view values.now)) ≡ Err e) }
{
    for (at, value) in values.iter().enumerate() {
        add_entry(alloc, &mut keys, at + 1, value)?;
    }
    Ok(keys)
}
