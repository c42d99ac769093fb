//! The ledger: joins that outlive a restart.
ghost use Rattle.std.specs.Prelude.{◌≡◌, ◌≢◌, ◌⊎◌, ◌↔◌, ◌++◌, ◌+◌, ◌^◌, ◌<◌, ◌≤◌, [], ◌∷◌, List, ℕ, Some, true, false, length, take, drop, All, AllPairs, Contains, IfOk, IfErr, IsTrue, OnErr, OnOk};
ghost use Rattle.sg_model.specs.Limits.{most_joins};
ghost use Rattle.sg_base.specs.Outside.{HasRisen};
ghost use Rattle.sg_ledger.specs.Disk.{overlaid, Torn, Keeps, LeavesOnly, IsLeftAlone, IfSeen};
ghost use Rattle.sg_ledger.specs.Format.{magic, Join, IsBlank, Represents, RepresentsOneOf};
ghost use Rattle.sg_ledger.specs.Opening.{Refuses, Opens};

use crate::slots::{FILE, HEAD, MAGIC, MOST_JOINS, SLOT, has, put_last, read_slots};
use crate::{Disk, DiskFault};
use indexmap::IndexSet;
use sg_base::{Failed, OutOfMemory, Role, Sid};
use std::alloc::Global;
use std::marker::Model;
use thiserror::Error;

/// Why a ledger was not made.
#[derive(Debug, Clone, Copy, PartialEq, Eq, Error)]
pub enum CreateFault {
    /// The file has bytes already.
    #[error("not empty")]
    NotEmpty {
        /// How many.
        size: u32,
    },
    /// The disk failed.
    #[error("the disk failed")]
    Failed,
    /// Out of memory.
    #[error("out of memory")]
    OutOfMemory,
}

/// Why a ledger was not opened, the first cause that holds.
#[derive(Debug, Clone, Copy, PartialEq, Eq, Error)]
pub enum OpenFault {
    /// The length or the head is no ledger's.
    #[error("not made")]
    NotALedger,
    /// A slot with an open gate has a role above 15, repeats a pair, or follows a gate that isn't open.
    #[error("slot {slot}")]
    BadSlot {
        /// The first such slot, counted from 0.
        slot: u32,
    },
    /// The disk failed.
    #[error("the disk failed")]
    Failed,
    /// Out of memory.
    #[error("out of memory")]
    OutOfMemory,
}

/// Why a join was not added, the first cause that holds.
#[derive(Debug, Clone, Copy, PartialEq, Eq, Error)]
pub enum AddJoinFault {
    /// The pair is in the ledger.
    #[error("joined already")]
    Twice,
    /// 65,536 pairs are in the ledger.
    #[error("the ledger is full")]
    Full,
    /// The disk failed, and so has the ledger: it is to be opened again.
    #[error("the disk failed")]
    Failed,
    /// Out of memory.
    #[error("out of memory")]
    OutOfMemory,
}

/// The joins of an opened ledger, in the order in which they were added, and whether a call of `add` has failed. It doesn't hold the
/// disk, and looks up a pair in a hash table. A clause sees its joins and whether it has failed.
#[derive(Drop)]
pub struct Ledger {
    joins: IndexSet<(Sid, Role)>,
    failed: bool,
}

impl Model for Ledger {
    ghost use Rattle.std.specs.Prelude.{◌≤◌, length};
    ghost use Rattle.sg_ledger.specs.Format.{OpenLedger};
    ghost use Rattle.sg_model.specs.Limits.{most_joins};

    ghost Value = { OpenLedger };

    ghost view = { λ l. record { joins = l.joins.keys; failed = l.failed } };

    ghost invariant = { λ l. length l.joins.keys ≤ most_joins };
}

impl Ledger {
    /// Makes a ledger of an empty file: the head and closed gates. It is made once this has answered Ok; after a crash before that
    /// the file is to be removed. Refused if the file has bytes, if the disk fails, or if memory runs out; unless the disk
    /// failed, the file is then as before.
    pub fn create<D: Disk>(alloc: Global, disk: &mut D) -> Result<(), CreateFault>
        ensures never_falls { D.faults disk.old ≤ D.faults disk.new }
        ensures kept_bound { D.bound disk.new ≡ D.bound disk.old }
        ensures failed { result ≡ Err CreateFault.Failed → HasRisen (D.faults disk.old) (D.faults disk.new) }
        ensures no_fault { result ≢ Err CreateFault.Failed → D.faults disk.new ≡ D.faults disk.old }
        ensures empty { OnOk result (IfSeen (D.seen disk.old) (λ file. file ≡ [])) }
        ensures not_empty { IfErr result (λ e. (size : ℕ) → e ≡ CreateFault.NotEmpty size → (0 < size) × IfSeen (D.seen disk.old) (λ file. length file ≡ size)) }
        ensures blank { OnOk result ((image : List ℕ) → D.may_leave disk.new image → IsBlank image) }
        ensures made { OnOk result ((image : List ℕ) → D.may_leave disk.new image → Represents image []) }

        // A file that has bytes is left alone whatever the answer is, and any file if memory ran out.
        ensures refused { IfErr result (λ e. e ≢ CreateFault.Failed → IsLeftAlone D.seen D.may_leave D.moment D.left_since disk.old disk.new) }
        ensures used { (file : List ℕ) → D.seen disk.old ≡ Some file → file ≢ [] → IsLeftAlone D.seen D.may_leave D.moment D.left_since disk.old disk.new }
    {
        let size = match disk.size() {
            Ok(size) => size,
            Err(_) => return Err(CreateFault::Failed),
        };
        if size != 0 {
            return Err(CreateFault::NotEmpty { size });
        }
        let Ok(file) = empty_file(alloc) else {
            return Err(CreateFault::OutOfMemory);
        };
        match write_through(disk, 0, &file) {
            Ok(()) => Ok(()),
            Err(_) => Err(CreateFault::Failed),
        }
    }

    /// Opens a ledger: brings to the disk what a read gives, and reads the joins. It writes nothing. Refused if the bytes are no
    /// ledger, if a slot is bad, if the disk fails, or if memory runs out. Whatever image a crash has left, it gives the
    /// joins that the image represents.
    pub fn open<D: Disk>(alloc: Global, disk: &mut D) -> Result<Ledger, OpenFault>
        ensures never_falls { D.faults disk.old ≤ D.faults disk.new }
        ensures kept_bound { D.bound disk.new ≡ D.bound disk.old }
        ensures failed { result ≡ Err OpenFault.Failed → HasRisen (D.faults disk.old) (D.faults disk.new) }
        ensures no_fault { result ≢ Err OpenFault.Failed → D.faults disk.new ≡ D.faults disk.old }
        ensures not_failed { IfOk result (λ ledger. ledger.failed ≡ false) }
        ensures joins { IfOk result (λ ledger. IfSeen (D.seen disk.old) (λ file. Represents file ledger.joins)) }
        ensures refused { IfErr result (λ e. IfSeen (D.seen disk.old) (λ file. Refuses file e)) }
        ensures represents { (joins : List Join) → IfSeen (D.seen disk.old) (λ file. Represents file joins → Opens result joins) }

        // Every image represents the joins, now and at each moment of the call it is one of those from before.
        ensures images { IfOk result (λ ledger. (image : List ℕ) → D.may_leave disk.new image → Represents image ledger.joins) }
        ensures kept { D.seen disk.new ≡ D.seen disk.old }
        ensures keeps { Keeps (D.may_leave disk.old) (D.may_leave disk.new) }
        ensures any_moment { LeavesOnly D.moment D.left_since disk.old disk.new (D.may_leave disk.old) }
    {
        let file = match read_file(alloc, disk) {
            Ok(file) => file,
            Err(fault) => return Err(fault),
        };
        if !has_head(&file) {
            return Err(OpenFault::NotALedger);
        }
        match read_slots(alloc, &file) {
            Ok(joins) => Ok(Ledger {
                joins,
                failed: false,
            }),
            Err(fault) => Err(fault),
        }
    }

    /// The joins, in the order in which they were added, all different. It takes no memory.
    pub fn joins(&self) -> &[(Sid, Role)]
        ensures joins { result.now ≡ self.now.joins }
        ensures most { length result.now ≤ most_joins }
        ensures differ { AllPairs (λ a b. a ≢ b) result.now }
    {
        self.joins.as_slice()
    }

    /// Whether a call of `add` has answered `Failed`. It takes no memory.
    pub fn failed(&self) -> bool
        ensures { result ≡ self.now.failed }
    {
        self.failed
    }

    /// Adds a join, as the last one: room in memory, the pair behind a closed gate, a sync, the gate, a sync. Once it has answered
    /// Ok, every image has the pair. Refused if the pair is there, if 65,536 pairs are there, if the disk fails, or if
    /// memory runs out. After `Failed` the ledger has failed, and is to be opened again; after another refusal ledger and disk are
    /// as before.
    pub fn add<D: Disk>(&mut self, disk: &mut D, sid: Sid, role: Role) -> Result<(), AddJoinFault>
        requires role { role < 16 }
        requires working { self.old.failed ≡ false }
        requires represents { (image : List ℕ) → D.may_leave disk.old image → Represents image self.old.joins }
        ensures never_falls { D.faults disk.old ≤ D.faults disk.new }
        ensures kept_bound { D.bound disk.new ≡ D.bound disk.old }
        ensures twice { (result ≡ Err AddJoinFault.Twice) ↔ Contains self.old.joins (sid, role) }
        ensures full { (result ≡ Err AddJoinFault.Full) ↔ ((¬ Contains self.old.joins (sid, role)) × (length self.old.joins ≡ most_joins)) }
        ensures failed { result ≡ Err AddJoinFault.Failed → HasRisen (D.faults disk.old) (D.faults disk.new) }
        ensures no_fault { result ≢ Err AddJoinFault.Failed → D.faults disk.new ≡ D.faults disk.old }
        ensures added { OnOk result (self.new ≡ record { joins = self.old.joins ++ (sid, role) ∷ []; failed = false }) }
        ensures broken { result ≡ Err AddJoinFault.Failed → self.new ≡ record { joins = self.old.joins; failed = true } }
        ensures same { IfErr result (λ e. e ≢ AddJoinFault.Failed → (self.new ≡ self.old) × (disk.new ≡ disk.old)) }

        // From Ok on each image represents the joins with the new one; at each moment of the call, them with or without it.
        ensures acknowledged { OnOk result ((image : List ℕ) → D.may_leave disk.new image → Represents image self.new.joins) }
        ensures any_moment { LeavesOnly D.moment D.left_since disk.old disk.new (RepresentsOneOf self.old.joins (sid, role)) }
    {
        if has(&self.joins, &(sid, role)) {
            return Err(AddJoinFault::Twice);
        }
        if self.joins.len() == MOST_JOINS {
            return Err(AddJoinFault::Full);
        }
        if self.joins.reserve(1).is_err() {
            return Err(AddJoinFault::OutOfMemory);
        }
        if write_join(disk, &self.joins, (sid, role)).is_err() {
            self.failed = true;
            return Err(AddJoinFault::Failed);
        }
        match put_last(&mut self.joins, (sid, role)) {
            Ok(()) => Ok(()),
            Err(_) => Err(AddJoinFault::OutOfMemory),
        }
    }
}

// The bytes of a ledger with no joins.
fn empty_file(alloc: Global) -> Result<Vec<u8>, OutOfMemory>
    ensures { IfOk result (λ file. IsBlank file.items) }
{
    padded(alloc, &MAGIC, FILE)
}

// The bytes of a head, and zeros up to a length.
fn padded(alloc: Global, head: &[u8], len: usize) -> Result<Vec<u8>, OutOfMemory>
    requires { length head.now ≤ len }
    ensures length { IfOk result (λ file. length file.items ≡ len) }
    ensures head { IfOk result (λ file. take (length head.now) file.items ≡ head.now) }
    ensures zeros { IfOk result (λ file. All (λ b. b ≡ 0) (drop (length head.now) file.items)) }
{
    let mut file = Vec::new(alloc);
    file.extend_from_slice(head)?;
    file.resize(len, 0)?;
    Ok(file)
}

fn has_head(file: &[u8]) -> bool
    requires { 8 ≤ length file.now }
    ensures { IsTrue result ↔ (take 8 file.now ≡ magic) }
{
    file[..HEAD] == MAGIC[..]
}

// The bytes of a file that is as long as a ledger, synced first.
fn read_file<D: Disk>(alloc: Global, disk: &mut D) -> Result<Vec<u8>, OpenFault>
    ensures never_falls { D.faults disk.old ≤ D.faults disk.new }
    ensures kept_bound { D.bound disk.new ≡ D.bound disk.old }
    ensures failed { result ≡ Err OpenFault.Failed → HasRisen (D.faults disk.old) (D.faults disk.new) }
    ensures no_fault { result ≢ Err OpenFault.Failed → D.faults disk.new ≡ D.faults disk.old }
    ensures length { IfOk result (λ file. length file.items ≡ 2228232) }
    ensures seen { IfOk result (λ file. IfSeen (D.seen disk.old) (λ seen. file.items ≡ seen)) }
    ensures refused { IfErr result (λ e. IfSeen (D.seen disk.old) (λ seen. Refuses seen e)) }
    ensures images { IfOk result (λ file. (image : List ℕ) → D.may_leave disk.new image → image ≡ file.items) }
    ensures kept { D.seen disk.new ≡ D.seen disk.old }
    ensures keeps { Keeps (D.may_leave disk.old) (D.may_leave disk.new) }
    ensures any_moment { LeavesOnly D.moment D.left_since disk.old disk.new (D.may_leave disk.old) }
{
    match disk.sync() {
        Ok(()) => {}
        Err(_) => return Err(OpenFault::Failed),
    }
    match disk.size() {
        Ok(size) if size as usize == FILE => {}
        Ok(_) => return Err(OpenFault::NotALedger),
        Err(_) => return Err(OpenFault::Failed),
    }
    match disk.read(alloc, 0, FILE as u32) {
        Ok(file) => Ok(file),
        Err(DiskFault::Failed) => Err(OpenFault::Failed),
        Err(DiskFault::OutOfMemory) => Err(OpenFault::OutOfMemory),
    }
}

// Writes a pair after the joins of a file, and then opens its gate.
fn write_join<D: Disk>(
    disk: &mut D,
    joins: &IndexSet<(Sid, Role)>,
    join: (Sid, Role),
) -> Result<(), Failed>
    requires room { length joins.now.keys < most_joins }
    requires role { join.1 < 16 }
    requires absent { ¬ Contains joins.now.keys join }
    requires represents { (image : List ℕ) → D.may_leave disk.old image → Represents image joins.now.keys }
    ensures never_falls { D.faults disk.old ≤ D.faults disk.new }
    ensures kept_bound { D.bound disk.new ≡ D.bound disk.old }
    ensures failed { OnErr result (HasRisen (D.faults disk.old) (D.faults disk.new)) }
    ensures no_fault { OnOk result (D.faults disk.new ≡ D.faults disk.old) }
    ensures acknowledged { OnOk result ((image : List ℕ) → D.may_leave disk.new image → Represents image (joins.now.keys ++ join ∷ [])) }
    ensures any_moment { LeavesOnly D.moment D.left_since disk.old disk.new (RepresentsOneOf joins.now.keys join) }
{
    let gate = (HEAD + SLOT * joins.len()) as u32;
    write_through(disk, gate + 1, &pair_bytes(join))?;
    write_through(disk, gate, &[1])
}

// The bytes of a pair.
fn pair_bytes(join: (Sid, Role)) -> [u8; 33]
    ensures bytes { result ≡ join.0 ++ join.1 ∷ [] }
    ensures sid { length join.0 ≡ 32 }
{
    let (Sid(sid), Role(role)) = join;
    let mut bytes = [role; 33];
    bytes[..32].copy_from_slice(&sid);
    bytes
}

// Writes bytes, and brings them to the disk.
fn write_through<D: Disk>(disk: &mut D, at: u32, bytes: &[u8]) -> Result<(), Failed>
    requires fits { at + length bytes.now < 2 ^ 32 }
    requires begins { IfSeen (D.seen disk.old) (λ file. at ≤ length file) }
    ensures never_falls { D.faults disk.old ≤ D.faults disk.new }
    ensures kept_bound { D.bound disk.new ≡ D.bound disk.old }
    ensures failed { OnErr result (HasRisen (D.faults disk.old) (D.faults disk.new)) }
    ensures no_fault { OnOk result (D.faults disk.new ≡ D.faults disk.old) }
    ensures written { OnOk result (IfSeen (D.seen disk.old) (λ file. D.seen disk.new ≡ Some (overlaid file at bytes.now))) }
    ensures durable { OnOk result ((image : List ℕ) → D.may_leave disk.new image → (file : List ℕ) × (D.seen disk.old ≡ Some file) × (image ≡ overlaid file at bytes.now)) }
    ensures any_moment { LeavesOnly D.moment D.left_since disk.old disk.new (λ image. (from : List ℕ) × D.may_leave disk.old from × Torn at (length bytes.now) from image) }
{
    disk.write(at, bytes)?;
    disk.sync()
}
