//! The outside as traits: files, sinks of bytes, links, and random bytes.
//!
//! Each object that can fail has a count of faults. The count never falls, and a call answers `Failed` only if it rose in that
//! call. Files also tell for which file a call last failed. What an object holds is known of objects in memory and not of those of the system, so the clauses on it speak of what is
//! known. At which address a link waits is known of each link.
ghost use Rattle.std.specs.Prelude.{◌≡◌, ◌≢◌, ◌<◌, ◌≤◌, ℕ, List, [], ◌∷◌, Option, Some, None, take, drop, replicate, length, slice_index_or, OnOk, OnErr, IfOk, IfErr, IfSome, IfNone, IsSomeAnd};
ghost use Rattle.sg_base.specs.Outside.{FileFaults, FailsAt, HasRisen, Appends, AppendsPrefix, TakesFirst, file_at};
ghost use Rattle.sg_base.specs.declared.address.Addr.{Addr};

use crate::{Addr, Sealed};
use std::alloc::Global;

/// Why a file was not read.
#[derive(Debug, Drop, PartialEq, thiserror::Error)]
pub enum FileFault {
    /// The system failed.
    #[error("the file could not be read")]
    Failed,
    /// The file has more bytes than were asked for.
    #[error("the file is too long")]
    TooLong,
    /// Out of memory.
    #[error("out of memory")]
    OutOfMemory,
}

/// A call that failed.
#[derive(Debug, Drop, PartialEq, thiserror::Error)]
#[error("the call failed")]
pub struct Failed;

/// Files, by name.
pub trait Files {
    /// How often a call failed, and for which file one last did.
    ghost faults: { Self → FileFaults };

    /// The files, each as the bytes of its name and its own bytes, if they are known.
    ghost held: { Self → Option (List (List ℕ × List ℕ)) };

    /// The whole file of a name, of at most `max` bytes, or `None` if there is no such file. No call changes the files.
    fn read(&mut self, alloc: Global, name: &str, max: u32) -> Result<Option<Vec<u8>>, FileFault>
        ensures never_falls { (faults self.old).count ≤ (faults self.new).count }
        ensures failed { result ≡ Err FileFault.Failed → FailsAt name.now (faults self.old) (faults self.new) }
        ensures no_fault { result ≢ Err FileFault.Failed → faults self.new ≡ faults self.old }
        ensures fits { IfOk result (λ found. IfSome found (λ bytes. length bytes.items ≤ max)) }
        ensures kept { held self.new ≡ held self.old }

        // What each answer says of the files, if they are known.
        ensures whole { IfOk result (λ found. IfSome found (λ bytes.
            (files : List (List ℕ × List ℕ)) → held self.old ≡ Some files → file_at files name.now ≡ Some bytes.items)) }
        ensures missing { IfOk result (λ found. IfNone found (
            (files : List (List ℕ × List ℕ)) → held self.old ≡ Some files → file_at files name.now ≡ None)) }
        ensures too_long { result ≡ Err FileFault.TooLong →
            (files : List (List ℕ × List ℕ)) → held self.old ≡ Some files → IsSomeAnd (file_at files name.now) (λ bytes. max < length bytes) };
}

/// Where bytes go.
pub trait Sink {
    /// How often a call failed.
    ghost faults: { Self → ℕ };

    /// The bytes so far, if they are known.
    ghost written: { Self → Option (List ℕ) };

    /// Takes the first bytes of a piece, and gives their number. Taking none is a fault.
    fn write(&mut self, piece: &[u8]) -> Result<usize, Failed>
        requires { 0 < length piece.now }
        ensures never_falls { faults self.old ≤ faults self.new }
        ensures failed { OnErr result (HasRisen (faults self.old) (faults self.new)) }
        ensures no_fault { OnOk result (faults self.new ≡ faults self.old) }
        ensures some { IfOk result (λ count. 0 < count) }
        ensures fits { IfOk result (λ count. count ≤ length piece.now) }
        ensures appended { IfOk result (λ count. Appends (written self.old) (written self.new) (take count piece.now)) }
        ensures kept { OnErr result (written self.new ≡ written self.old) };
}

/// Why a link gave no delivery.
#[derive(Debug, Drop, PartialEq, thiserror::Error)]
pub enum LinkFault {
    /// The system failed.
    #[error("the link failed")]
    Failed,
    /// Out of memory.
    #[error("out of memory")]
    OutOfMemory,
}

/// Where frames come in and go out.
pub trait Link {
    /// How often a call failed.
    ghost faults: { Self → ℕ };

    /// The address at which it waits, or `None` before it is opened.
    ghost bound: { Self → Option Addr };

    /// The deliveries to come, each its bytes, if they are known.
    ghost deliveries: { Self → Option (List (List ℕ)) };

    /// The frames that were sent, each its address and its bytes, if they are known.
    ghost sent: { Self → Option (List (Addr × List ℕ)) };

    /// Waits at an address from now on. If it fails, it waits where it did before.
    fn open(&mut self, at: Addr) -> Result<(), Failed>
        ensures never_falls { faults self.old ≤ faults self.new }
        ensures failed { OnErr result (HasRisen (faults self.old) (faults self.new)) }
        ensures waits { OnOk result (bound self.new ≡ Some at) }
        ensures kept_bound { OnErr result (bound self.new ≡ bound self.old) }
        ensures kept { deliveries self.new ≡ deliveries self.old }
        ensures kept_sent { sent self.new ≡ sent self.old };

    /// The next delivery, or `None` at the end.
    fn recv(&mut self, alloc: Global) -> Result<Option<Vec<u8>>, LinkFault>
        ensures never_falls { faults self.old ≤ faults self.new }
        ensures failed { result ≡ Err LinkFault.Failed → HasRisen (faults self.old) (faults self.new) }
        ensures kept_bound { bound self.new ≡ bound self.old }
        ensures kept_sent { sent self.new ≡ sent self.old }

        // What each answer says of the deliveries to come.
        ensures first { IfOk result (λ found. IfSome found (λ bytes. TakesFirst (deliveries self.old) (deliveries self.new) bytes.items)) }
        ensures at_end { IfOk result (λ found. IfNone found (
            (all : List (List ℕ)) → deliveries self.old ≡ Some all → all ≡ [])) }
        ensures kept_at_end { IfOk result (λ found. IfNone found (deliveries self.new ≡ deliveries self.old)) }
        ensures kept { OnErr result (deliveries self.new ≡ deliveries self.old) };

    /// Sends a frame to an address, or hands it back.
    fn send(&mut self, to: Addr, frame: Sealed) -> Result<(), (Sealed, Failed)>
        ensures never_falls { faults self.old ≤ faults self.new }
        ensures failed { OnErr result (HasRisen (faults self.old) (faults self.new)) }
        ensures kept_bound { bound self.new ≡ bound self.old }
        ensures kept { deliveries self.new ≡ deliveries self.old }
        ensures posted { OnOk result (Appends (sent self.old) (sent self.new) ((to, frame.1) ∷ [])) }
        ensures back { IfErr result (λ e. e.0 ≡ frame) }
        ensures kept_sent { OnErr result (sent self.new ≡ sent self.old) };
}

/// A source of nonces and confounders, sixteen random bytes each, which cannot fail.
pub trait Fresh {
    /// The nonces and confounders to come, if they are known.
    ghost random: { Self → Option (List (List ℕ)) };

    /// The next nonce or confounder, or zeros if there is none.
    fn next(&mut self) -> [u8; 16]
        ensures drawn { (all : List (List ℕ)) → random self.old ≡ Some all → result ≡ slice_index_or all 0 (replicate 16 0) }
        ensures taken { (all : List (List ℕ)) → random self.old ≡ Some all → random self.new ≡ Some (drop 1 all) };
}

/// Writes all of a text, in as many calls as it takes. If a call fails, a prefix may have been written.
pub fn write_all<O: Sink>(out: &mut O, text: &[u8]) -> Result<(), Failed>
    ensures never_falls { O.faults out.old ≤ O.faults out.new }
    ensures failed { OnErr result (HasRisen (O.faults out.old) (O.faults out.new)) }
    ensures no_fault { OnOk result (O.faults out.new ≡ O.faults out.old) }
    ensures whole { OnOk result (Appends (O.written out.old) (O.written out.new) text.now) }
    ensures prefix { OnErr result (AppendsPrefix (O.written out.old) (O.written out.new) text.now) }
{
    let mut at = 0usize;
    while at < text.len() {
        at += out.write(&text[at..])?;
    }
    Ok(())
}
