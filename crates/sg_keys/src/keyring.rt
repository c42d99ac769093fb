//! A principal's name and address, and its peers.
ghost use Rattle.std.specs.Prelude.{◌≡◌, ◌↔◌, ◌++◌, [], ◌∷◌, ◌&&◌, false, not, bytes_eq, is_none, option_map, IfSome, IsTrue, OnErr, OnOk};
ghost use Rattle.std.specs.Option.{option_copied};
ghost use Rattle.sg_model.specs.Lists.{all_differ, has_text};
ghost use Rattle.sg_protocol.specs.Keyring.{key_of};
ghost use Rattle.sg_protocol.specs.Node.{stranger};
ghost use Rattle.sg_crypt.specs.Model.{pair_of};

use indexmap::IndexMap;
use sg_base::{Addr, Name, OutOfMemory};
use sg_crypt::{Cast, Key, Pair};
use std::alloc::Global;
use std::marker::Model;
use thiserror::Error;

/// Where a peer is, and the key that two principals share: this one and the peer.
#[derive(Drop)]
struct Contact {
    addr: Addr,
    key: Key,
    pair: Pair,
}

/// One principal's name and address, and its peers in the order in which they were added. All names differ. It has no `Debug`, which
/// would print the keys.
#[derive(Drop)]
pub struct Keyring {
    me: Name,
    listen: Addr,
    peers: IndexMap<Name, Contact>,
}

impl Model for Keyring {
    ghost use Rattle.sg_protocol.specs.Keyring.{Keyring};

    ghost Value = { Keyring };

    ghost use Rattle.sg_keys.specs.Model.{keyring_of, HoldsKeyring};

    ghost view = { keyring_of };

    ghost invariant = { HoldsKeyring };
}

/// Why a peer can't be added.
#[derive(Debug, Clone, Copy, PartialEq, Eq, Error)]
pub enum PeerFault {
    /// The peer is the principal itself, or is there.
    #[error("a peer twice")]
    Twice,
    /// Out of memory.
    #[error("out of memory")]
    OutOfMemory,
}

impl Keyring {
    ghost use Rattle.sg_keys.specs.Names.{addr_of, names_of, with_peer};

    /// A principal without peers. It takes no memory.
    pub fn new(alloc: Global, me: Name, listen: Addr) -> Keyring
        ensures { result ≡ record { me = me; ip = listen.ip; port = listen.port; peers = [] } }
    {
        Keyring {
            me,
            listen,
            peers: IndexMap::new(alloc),
        }
    }

    /// Adds a peer as the last one. Refused if the name is the principal's own or a peer's, or if memory runs out; then the
    /// keyring is as before.
    pub fn add(
        &mut self,
        alloc: Global,
        peer: Name,
        addr: Addr,
        key: [u8; 32],
    ) -> Result<(), PeerFault>
        ensures twice { (result ≡ Err PeerFault.Twice) ↔ IsTrue (has_text peer (names_of self.old)) }
        ensures added { OnOk result (self.new ≡ with_peer self.old peer addr key) }
        ensures err { OnErr result (self.new ≡ self.old) }
    {
        if self.has_name(&peer) {
            return Err(PeerFault::Twice);
        }
        let Ok(pair) = Pair::new(alloc, self.me, peer) else {
            return Err(PeerFault::OutOfMemory);
        };
        match put_last(
            &mut self.peers,
            peer,
            Contact {
                addr,
                key: Key::new(key),
                pair,
            },
        ) {
            Ok(()) => Ok(()),
            Err(_) => Err(PeerFault::OutOfMemory),
        }
    }

    /// The principal's name. It takes no memory.
    pub fn me(&self) -> Name
        ensures me { result ≡ self.now.me }
        ensures different { IsTrue (all_differ (names_of self.now)) }
    {
        self.me
    }

    /// The address at which the principal waits. It takes no memory.
    pub fn listen(&self) -> Addr
        ensures ip { result.ip ≡ self.now.ip }
        ensures port { result.port ≡ self.now.port }
    {
        self.listen
    }

    /// The key shared with a peer, or `None` if no peer has the name. It takes no memory.
    pub fn key(&self, peer: &Name) -> Option<&[u8; 32]>
        ensures { option_copied result ≡ key_of self.now peer.now }
    {
        match self.key_with(peer) {
            Some((key, _)) => Some(key.bytes()),
            None => None,
        }
    }

    /// The key shared with a peer, ready to tag, and the two that share it, or `None` if no peer has the name. It takes no memory.
    pub fn key_with(&self, peer: &Name) -> Option<(&Key, &Pair)>
        ensures key { option_map (λ k. k.0.now) result ≡ key_of self.now peer.now }
        ensures pair { IfSome result (λ k. k.1.now ≡ pair_of self.now.me peer.now) }
    {
        match self.peers.get(peer) {
            Some(contact) => Some((&contact.key, &contact.pair)),
            None => None,
        }
    }

    /// Where a peer is, or `None` if no peer has the name. It takes no memory.
    pub fn addr(&self, peer: &Name) -> Option<Addr>
        ensures { result ≡ addr_of self.now peer.now }
    {
        match self.peers.get(peer) {
            Some(contact) => Some(contact.addr),
            None => None,
        }
    }

    /// The first principal of a cast in role order, other than this one, with whom no key is shared, if there is one. It takes no memory.
    pub fn covers(&self, cast: &Cast) -> Option<Name>
        ensures { result ≡ stranger self.now cast.now }
    {
        for name in cast.names() {
            if self.is_stranger(name) {
                return Some(*name);
            }
        }
        None
    }

    // The name is another principal's, and no key is shared with it.
    fn is_stranger(&self, name: &Name) -> bool
        ensures { result ≡ not (bytes_eq name.now self.now.me) && is_none (key_of self.now name.now) }
    {
        name.as_bytes() != self.me.as_bytes() && self.key(name).is_none()
    }

    // The name is the principal's own, or a peer's.
    fn has_name(&self, name: &Name) -> bool
        ensures { result ≡ has_text name.now (names_of self.now) }
    {
        name.as_bytes() == self.me.as_bytes() || has_peer(&self.peers, name)
    }
}

ghost use Rattle.sg_keys.specs.Model.{names_in};

// The name is a peer's.
fn has_peer(peers: &IndexMap<Name, Contact>, name: &Name) -> bool
    ensures { result ≡ has_text name.now (names_in peers.now.entries) }
{
    peers.contains_key(name)
}

// Adds a peer that isn't there, as the last one.
fn put_last(
    peers: &mut IndexMap<Name, Contact>,
    peer: Name,
    contact: Contact,
) -> Result<(), OutOfMemory>
    requires { has_text peer (names_in peers.old.entries) ≡ false }
    ensures ok { OnOk result (peers.new.entries ≡ peers.old.entries ++ (peer, contact) ∷ []) }
    ensures err { OnErr result (peers.new.entries ≡ peers.old.entries) }
{
    peers.insert(peer, contact)?;
    Ok(())
}
