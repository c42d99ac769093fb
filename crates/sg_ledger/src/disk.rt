//! A disk, as a trait: one file, and what a crash may leave of it.
//!
//! Between two syncs a crash may leave any bytes in each range that was written and past the old end, also if the write failed;
//! the bytes elsewhere stay. After a sync that succeeds it leaves what a read gives. What a crash may leave are the images of the
//! disk. Of a disk in memory its file and its images are known; of one of the system neither, so the clauses on them speak of what is
//! known. The name of the file that it is bound to, each disk tells.
//!
//! A call that answers that it failed has counted a fault, and any other has counted none. So none tries again what failed: after a sync
//! that failed the system may have dropped the bytes, and one more that succeeds says nothing of them.
ghost use Rattle.std.specs.Prelude.{◌≡◌, ◌≢◌, ℕ, ◌+◌, ◌<◌, ◌≤◌, ◌^◌, List, Option, Some, length, take, drop, IfOk, OnErr, OnOk};
ghost use Rattle.sg_base.specs.Outside.{HasRisen};
ghost use Rattle.sg_ledger.specs.Disk.{overlaid, Torn, Keeps, Follows, Elapses, IfSeen};

use sg_base::Failed;
use std::alloc::Global;
use thiserror::Error;

/// Why a disk gave no bytes.
#[derive(Debug, Clone, Copy, PartialEq, Eq, Error)]
pub enum DiskFault {
    /// The system failed.
    #[error("the disk failed")]
    Failed,
    /// Out of memory.
    #[error("out of memory")]
    OutOfMemory,
}

/// One file on a disk. Offsets and lengths are in bytes.
pub trait Disk {
    /// How often a call failed.
    ghost faults: { Self → ℕ };

    /// The name of the file that it is bound to, or `None` before one is opened.
    ghost bound: { Self → Option (List ℕ) };

    /// The bytes of the file as a read gives them, if they are known.
    ghost seen: { Self → Option (List ℕ) };

    /// The images: what a crash at this moment may leave of the file. If nothing is known, there is no image.
    ghost may_leave: { Self → List ℕ → Type 0 };

    /// The moment, a number that doesn't fall.
    ghost moment: { Self → ℕ };

    /// What a crash at some moment from that one on might have left, within a call or between two.
    ghost left_since: { Self → ℕ → List ℕ → Type 0 };

    /// Binds the file of a name, which is made empty if it is missing. Where it fails, it is bound to the file of before.
    fn open(&mut self, name: &str) -> Result<(), Failed>
        ensures never_falls { faults self.old ≤ faults self.new }
        ensures failed { OnErr result (HasRisen (faults self.old) (faults self.new)) }
        ensures no_fault { OnOk result (faults self.new ≡ faults self.old) }
        ensures binds { OnOk result (bound self.new ≡ Some name.now) }
        ensures kept_bound { OnErr result (bound self.new ≡ bound self.old) }
        ensures kept { seen self.new ≡ seen self.old }
        ensures images { Keeps (may_leave self.old) (may_leave self.new) }
        ensures time { Elapses (moment self.old) (moment self.new) (left_since self.old) (left_since self.new) (may_leave self.new) };

    /// The length of the file.
    fn size(&mut self) -> Result<u32, Failed>
        ensures never_falls { faults self.old ≤ faults self.new }
        ensures failed { OnErr result (HasRisen (faults self.old) (faults self.new)) }
        ensures no_fault { OnOk result (faults self.new ≡ faults self.old) }
        ensures kept_bound { bound self.new ≡ bound self.old }
        ensures length { IfOk result (λ n. IfSeen (seen self.old) (λ file. n ≡ length file)) }
        ensures kept { seen self.new ≡ seen self.old }
        ensures images { Keeps (may_leave self.old) (may_leave self.new) }
        ensures time { Elapses (moment self.old) (moment self.new) (left_since self.old) (left_since self.new) (may_leave self.new) };

    /// The `count` bytes from the offset `at` on.
    fn read(&mut self, alloc: Global, at: u32, count: u32) -> Result<Vec<u8>, DiskFault>
        requires { IfSeen (seen self.old) (λ file. at + count ≤ length file) }
        ensures never_falls { faults self.old ≤ faults self.new }
        ensures failed { result ≡ Err DiskFault.Failed → HasRisen (faults self.old) (faults self.new) }
        ensures no_fault { result ≢ Err DiskFault.Failed → faults self.new ≡ faults self.old }
        ensures kept_bound { bound self.new ≡ bound self.old }
        ensures count { IfOk result (λ bytes. length bytes.items ≡ count) }
        ensures bytes { IfOk result (λ bytes. IfSeen (seen self.old) (λ file. bytes.items ≡ take count (drop at file))) }
        ensures kept { seen self.new ≡ seen self.old }
        ensures images { Keeps (may_leave self.old) (may_leave self.new) }
        ensures time { Elapses (moment self.old) (moment self.new) (left_since self.old) (left_since self.new) (may_leave self.new) };

    /// Writes over what is there, from an offset on, and past the end. If it fails, any part of the range may be written.
    fn write(&mut self, at: u32, bytes: &[u8]) -> Result<(), Failed>
        requires fits { at + length bytes.now < 2 ^ 32 }
        requires begins { IfSeen (seen self.old) (λ file. at ≤ length file) }
        ensures never_falls { faults self.old ≤ faults self.new }
        ensures failed { OnErr result (HasRisen (faults self.old) (faults self.new)) }
        ensures no_fault { OnOk result (faults self.new ≡ faults self.old) }
        ensures kept_bound { bound self.new ≡ bound self.old }
        ensures written { OnOk result (IfSeen (seen self.old) (λ file. seen self.new ≡ Some (overlaid file at bytes.now))) }
        ensures images { Follows (Torn at (length bytes.now)) (may_leave self.old) (may_leave self.new) }
        ensures time { Elapses (moment self.old) (moment self.new) (left_since self.old) (left_since self.new) (may_leave self.new) };

    /// Brings to the disk what was written. After it a crash leaves what a read gives. If it fails, it isn't tried again.
    fn sync(&mut self) -> Result<(), Failed>
        ensures never_falls { faults self.old ≤ faults self.new }
        ensures failed { OnErr result (HasRisen (faults self.old) (faults self.new)) }
        ensures no_fault { OnOk result (faults self.new ≡ faults self.old) }
        ensures kept_bound { bound self.new ≡ bound self.old }
        ensures durable { OnOk result ((image : List ℕ) → may_leave self.new image → seen self.new ≡ Some image) }
        ensures kept { seen self.new ≡ seen self.old }
        ensures images { Keeps (may_leave self.old) (may_leave self.new) }
        ensures time { Elapses (moment self.old) (moment self.new) (left_since self.old) (left_since self.new) (may_leave self.new) };

    /// The bytes as read are one of the images.
    ghost read_is_image: { (disk : Self) (file : List ℕ) → seen disk ≡ Some file → may_leave disk file };

    /// If an image is known, so are the bytes as read.
    ghost is_seen: { (disk : Self) (image : List ℕ) → may_leave disk image → (file : List ℕ) × (seen disk ≡ Some file) };

    /// This moment is one of those since an earlier one.
    ghost counts_now: { (disk : Self) (t : ℕ) (image : List ℕ) → t ≤ moment disk → may_leave disk image → left_since disk t image };

    /// Since this moment there is no other.
    ghost only_now: { (disk : Self) (image : List ℕ) → left_since disk (moment disk) image → may_leave disk image };
}
