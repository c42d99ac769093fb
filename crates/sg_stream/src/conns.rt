//! Connections, as a trait: pieces of bytes come in from some and are given to others.
//!
//! A piece that comes in bears its connection's number, and no two open connections have the same number. What connections hold is known
//! of those in memory and not of those of the system, so the clauses on it speak of what is known. At which address they wait is known of
//! all.
ghost use Rattle.std.specs.Prelude.{◌≡◌, ◌==◌, ◌<◌, ◌≤◌, ℕ, [], ◌∷◌, true, false, Option, Some, take, drop, length, OnErr, OnOk, IfOk, IfSome, IfNone};
ghost use Rattle.std.specs.Option.{option_map};
ghost use Rattle.std.specs.List.{list_any};
ghost use Rattle.sg_base.specs.Outside.{HasRisen};
ghost use Rattle.sg_base.specs.declared.address.Addr.{Addr};
ghost use Rattle.sg_stream.specs.Counts.{no_faults, total};
ghost use Rattle.sg_stream.specs.declared.conns.ConnFaults.{ConnFaults};
ghost use Rattle.sg_stream.specs.Traffic.{Traffic, after_take, after_connect, after_give, after_close, IfHeld};

use sg_base::{Addr, Failed, LinkFault};
use std::alloc::Global;

/// How often each call of connections failed.
#[derive(Clone, Copy, PartialEq, Eq)]
pub struct ConnFaults {
    /// To wait at an address.
    pub opens: u64,
    /// To take a piece.
    pub takes: u64,
    /// To make a connection.
    pub connects: u64,
    /// To give bytes.
    pub gives: u64,
}

impl ConnFaults {
    /// No call failed.
    pub fn none() -> ConnFaults
        ensures { result ≡ no_faults }
    {
        ConnFaults {
            opens: 0,
            takes: 0,
            connects: 0,
            gives: 0,
        }
    }
}

/// Connections, each with a number while it is open.
pub trait Conns {
    /// How often each call failed. A call that answers is no fault, and one that fails counts as its own.
    ghost faults: { Self → ConnFaults };

    /// The address at which they wait, or `None` before they are opened.
    ghost bound: { Self → Option Addr };

    /// What the connections hold, if it is known.
    ghost held: { Self → Option Traffic };

    /// Waits for connections at an address from now on. If it fails, it waits where it did before.
    fn open(&mut self, at: Addr) -> Result<(), Failed>
        ensures never_falls { total (faults self.old) ≤ total (faults self.new) }
        ensures failed { OnErr result (HasRisen (total (faults self.old)) (total (faults self.new))) }
        ensures waits { OnOk result (bound self.new ≡ Some at) }
        ensures counted { faults self.new ≡ record (faults self.old) { opens = (faults self.new).opens } }
        ensures no_fault { OnOk result (faults self.new ≡ faults self.old) }
        ensures kept_bound { OnErr result (bound self.new ≡ bound self.old) }
        ensures kept { held self.new ≡ held self.old };

    /// The next piece, with its connection's number, or `None` at the end of all. An empty piece is the end of its connection, whose
    /// number may be given again.
    fn take(&mut self, alloc: Global) -> Result<Option<(u8, Vec<u8>)>, LinkFault>
        ensures never_falls { total (faults self.old) ≤ total (faults self.new) }
        ensures failed { result ≡ Err LinkFault.Failed → HasRisen (total (faults self.old)) (total (faults self.new)) }
        ensures counted { faults self.new ≡ record (faults self.old) { takes = (faults self.new).takes } }
        ensures no_fault { OnOk result (faults self.new ≡ faults self.old) }
        ensures kept_bound { bound self.new ≡ bound self.old }
        ensures first { IfOk result (λ found. IfSome found (λ p. IfHeld (held self.old) (λ t. t.coming ≡ (p.0, p.1.items) ∷ drop 1 t.coming))) }
        ensures taken { IfOk result (λ found. IfSome found (λ p. held self.new ≡ option_map after_take (held self.old))) }
        ensures at_end { IfOk result (λ found. IfNone found (IfHeld (held self.old) (λ t. t.coming ≡ []))) }
        ensures kept_at_end { IfOk result (λ found. IfNone found (held self.new ≡ held self.old)) }
        ensures kept { OnErr result (held self.new ≡ held self.old) };

    /// Closes a connection. No more of its pieces come, and its number may be given again.
    fn close(&mut self, conn: u8)
        ensures no_fault { faults self.new ≡ faults self.old }
        ensures kept_bound { bound self.new ≡ bound self.old }
        ensures closed { held self.new ≡ option_map (after_close conn) (held self.old) };

    /// Makes a connection for writing, and gives its number.
    fn connect(&mut self, to: Addr) -> Result<u8, Failed>
        ensures never_falls { total (faults self.old) ≤ total (faults self.new) }
        ensures failed { OnErr result (HasRisen (total (faults self.old)) (total (faults self.new))) }
        ensures counted { faults self.new ≡ record (faults self.old) { connects = (faults self.new).connects } }
        ensures no_fault { OnOk result (faults self.new ≡ faults self.old) }
        ensures kept_bound { bound self.new ≡ bound self.old }
        ensures apart { IfOk result (λ conn. IfHeld (held self.old) (λ t. (list_any (λ c. c == conn) t.open_ones ≡ false) × (list_any (λ p. p.0 == conn) t.coming ≡ false))) }
        ensures made { IfOk result (λ conn. held self.new ≡ option_map (after_connect conn to) (held self.old)) }
        ensures kept { OnErr result (held self.new ≡ held self.old) };

    /// Gives the first bytes of a piece to a connection, and returns their number. It fails for a number that `connect` did not give, and
    /// for a connection that was closed since.
    fn give(&mut self, conn: u8, piece: &[u8]) -> Result<usize, Failed>
        requires { 0 < length piece.now }
        ensures never_falls { total (faults self.old) ≤ total (faults self.new) }
        ensures failed { OnErr result (HasRisen (total (faults self.old)) (total (faults self.new))) }
        ensures counted { faults self.new ≡ record (faults self.old) { gives = (faults self.new).gives } }
        ensures no_fault { OnOk result (faults self.new ≡ faults self.old) }
        ensures kept_bound { bound self.new ≡ bound self.old }
        ensures is_open { IfOk result (λ _. IfHeld (held self.old) (λ t. list_any (λ c. c == conn) t.open_ones ≡ true)) }
        ensures some { IfOk result (λ count. 0 < count) }
        ensures fits { IfOk result (λ count. count ≤ length piece.now) }
        ensures given { IfOk result (λ count. held self.new ≡ option_map (after_give conn (take count piece.now)) (held self.old)) }
        ensures kept { OnErr result (held self.new ≡ held self.old) };
}
