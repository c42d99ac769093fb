//! The slots of a ledger's file, and the joins that they represent.
ghost use Rattle.std.specs.Prelude.{◌≡◌, ◌≢◌, ◌⊎◌, ◌↔◌, ◌++◌, ◌<◌, ◌≤◌, [], ◌∷◌, ℕ, length, true, false, Contains, IfOk, IfErr, IsTrue, IsOk, OnErr, OnOk};
ghost use Rattle.indexmap.specs.IndexSet.{spare};
ghost use Rattle.sg_model.specs.Limits.{most_joins};
ghost use Rattle.sg_ledger.specs.Format.{slot_of, IsOpen, pair_of, SlotsRepresent};
ghost use Rattle.sg_ledger.specs.Opening.{RefusesSlots};

use crate::OpenFault;
use indexmap::IndexSet;
use sg_base::{OutOfMemory, Role, Sid};
use std::alloc::Global;

/// The first bytes of a ledger.
pub(crate) const MAGIC: [u8; 8] = *b"SGLEDG01";

/// The bytes of the head, of a slot, and of the file.
pub(crate) const HEAD: usize = 8;

pub(crate) const SLOT: usize = 34;

pub(crate) const FILE: usize = HEAD + SLOT * MOST_JOINS;

/// How many joins a ledger has at most.
pub(crate) const MOST_JOINS: usize = 65_536;

// Reads a slot. It gives false if no ledger has this slot after these joins.
fn read_slot(
    joins: &mut IndexSet<(Sid, Role)>,
    slot: &[u8],
    is_next: bool,
) -> Result<bool, OutOfMemory>
    requires { length slot.now ≡ 34 }
    ensures shut { (¬ IsOpen slot.now) → (result ≡ Ok true) × (joins.new.keys ≡ joins.old.keys) }
    ensures role { IfOk result (λ good. IsTrue good → IsOpen slot.now → (pair_of slot.now).1 < 16) }
    ensures next { IfOk result (λ good. IsTrue good → IsOpen slot.now → IsTrue is_next) }
    ensures absent { IfOk result (λ good. IsTrue good → IsOpen slot.now → ¬ Contains joins.old.keys (pair_of slot.now)) }
    ensures added { IfOk result (λ good. IsTrue good → IsOpen slot.now → joins.new.keys ≡ joins.old.keys ++ pair_of slot.now ∷ []) }
    ensures bad { result ≡ Ok false → IsOpen slot.now × ((16 ≤ (pair_of slot.now).1) ⊎ Contains joins.old.keys (pair_of slot.now) ⊎ (is_next ≡ false)) }
{
    if slot[0] != 1 {
        return Ok(true);
    }
    let join = (sid_of(&slot[1..33]), Role(slot[33]));
    if !is_next || slot[33] > 15 || has(joins, &join) {
        return Ok(false);
    }
    put_last(joins, join)?;
    Ok(true)
}

fn sid_of(bytes: &[u8]) -> Sid
    requires { length bytes.now ≡ 32 }
    ensures { result ≡ bytes.now }
{
    let mut sid = [0; 32];
    sid.copy_from_slice(bytes);
    Sid(sid)
}

fn slot_bytes(file: &[u8], slot: usize) -> &[u8]
    requires within { slot < most_joins }
    requires length { length file.now ≡ 2228232 }
    ensures slot { result.now ≡ slot_of file.now slot }
    ensures length { length result.now ≡ 34 }
{
    let at = HEAD + SLOT * slot;
    &file[at..at + SLOT]
}

/// The joins that the slots of a file represent, or the first slot that no ledger has.
pub(crate) fn read_slots(alloc: Global, file: &[u8]) -> Result<IndexSet<(Sid, Role)>, OpenFault>
    requires { length file.now ≡ 2228232 }
    ensures joins { IfOk result (λ joins. SlotsRepresent file.now most_joins joins.keys) }
    ensures bad { IfErr result (λ e. RefusesSlots file.now e) }
{
    let mut joins = IndexSet::new(alloc);
    let mut slot = 0usize;
    while slot < MOST_JOINS {
        let is_next = joins.len() == slot;
        match read_slot(&mut joins, slot_bytes(file, slot), is_next) {
            Ok(true) => slot += 1,
            Ok(false) => return Err(OpenFault::BadSlot { slot: slot as u32 }),
            Err(_) => return Err(OpenFault::OutOfMemory),
        }
    }
    Ok(joins)
}

/// Whether the pair is there.
pub(crate) fn has(joins: &IndexSet<(Sid, Role)>, join: &(Sid, Role)) -> bool
    ensures { IsTrue result ↔ Contains joins.now.keys join.now }
{
    joins.contains(join)
}

/// Adds a pair that isn't there, as the last one.
pub(crate) fn put_last(
    joins: &mut IndexSet<(Sid, Role)>,
    join: (Sid, Role),
) -> Result<(), OutOfMemory>
    requires { ¬ Contains joins.old.keys join }
    ensures ok { OnOk result (joins.new.keys ≡ joins.old.keys ++ join ∷ []) }
    ensures err { OnErr result (joins.new.keys ≡ joins.old.keys) }
    ensures room { 0 < spare joins.old → IsOk result }
{
    joins.insert(join)?;
    Ok(())
}
