//! The keyring of an honest principal.
ghost use Rattle.std.specs.Prelude.{◌≡◌, ◌++◌, ◌∷◌, [], false, filter_map, option_map, IfOk, IfSome, OnOk};
ghost use Rattle.sg_keys.specs.Names.{names_of};
ghost use Rattle.sg_model.specs.Lists.{has_text};
ghost use Rattle.sg_protocol.specs.World.{keyring_of, peer, shared};
ghost use Rattle.sg_setting.specs.Pairs.{ArePairs};

use sg_base::{Addr, Name, OutOfMemory};
use sg_keys::{Keyring, PeerFault};
use sg_sched::PairKey;
use std::alloc::{AllocError, Global};

// Replays have no addresses.
const NOWHERE: Addr = Addr {
    ip: [0; 4],
    port: 0,
};

/// The keys of the pairs that the principal is one of, in order. No pair has two keys.
pub fn keyring(alloc: Global, me: Name, keys: &[PairKey]) -> Result<Keyring, OutOfMemory>
    requires { ArePairs keys.now }
    ensures { IfOk result (λ k. k ≡ keyring_of keys.now me) }
{
    let mut ring = Keyring::new(alloc, me, NOWHERE);
    for pair in keys {
        add_shared(alloc, &mut ring, &me, pair)?;
    }
    Ok(ring)
}

// Adds the pair's key, if the principal is one of it.
fn add_shared(
    alloc: Global,
    ring: &mut Keyring,
    me: &Name,
    pair: &PairKey,
) -> Result<(), OutOfMemory>
    requires { IfSome (shared me.now pair.now) (λ p. has_text p.name (names_of ring.old) ≡ false) }
    ensures { OnOk result (ring.new ≡ record ring.old { peers = ring.old.peers ++ filter_map (shared me.now) (pair.now ∷ []) }) }
{
    let Some(other) = other_of(me, pair) else {
        return Ok(());
    };
    match ring.add(alloc, other, NOWHERE, pair.key) {
        Ok(()) => Ok(()),
        Err(PeerFault::OutOfMemory) => Err(AllocError),
        Err(PeerFault::Twice) => unreachable!(),
    }
}

// The other one of the pair, if the principal is one of it.
fn other_of(me: &Name, pair: &PairKey) -> Option<Name>
    ensures { option_map (λ n. peer n pair.now.key) result ≡ shared me.now pair.now }
{
    if pair.one.as_bytes() == me.as_bytes() {
        Some(pair.two)
    } else if pair.two.as_bytes() == me.as_bytes() {
        Some(pair.one)
    } else {
        None
    }
}
