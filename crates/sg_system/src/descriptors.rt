//! The standard descriptors, as a trait.
ghost use Rattle.std.specs.Prelude.{◌≡◌, ◌≢◌, ◌↔◌, ◌≤◌, ℕ, List, [], Option, Some, Ok, drop, length, IsTrue, OnErr, OnOk};
ghost use Rattle.sg_base.specs.Outside.{HasRisen};

use sg_base::Failed;

/// The standard descriptors of a process: 0, standard input; 1, standard output; 2, standard error (POSIX.1-2017, `unistd.h`). One of the
/// system are not known, so the clauses on which are free speak of what is known.
pub trait Descriptors {
    /// How often a call failed.
    ghost faults: { Self → ℕ };

    /// The standard descriptors that are free, in rising order, if they are known.
    ghost free: { Self → Option (List ℕ) };

    /// Whether none of them is free.
    fn are_open(&self) -> bool
        ensures { (all : List ℕ) → free self.now ≡ Some all → IsTrue result ↔ (all ≡ []) };

    /// Opens the null device for reading at the lowest of those that are free, and keeps it open.
    fn fill(&mut self) -> Result<(), Failed>
        requires { (all : List ℕ) → free self.old ≡ Some all → all ≢ [] }
        ensures never_falls { faults self.old ≤ faults self.new }
        ensures failed { OnErr result (HasRisen (faults self.old) (faults self.new)) }
        ensures filled { OnOk result ((all : List ℕ) → free self.old ≡ Some all → free self.new ≡ Some (drop 1 all)) }
        ensures kept { OnErr result (free self.new ≡ free self.old) };

    /// There are three.
    ghost three: { (descriptors : Self) (all : List ℕ) → free descriptors ≡ Some all → length all ≤ 3 };
}

/// Opens the null device for reading at each standard descriptor that is free. If it can't be opened, one of them still is.
pub fn hold_standard<D: Descriptors>(descriptors: &mut D) -> Result<(), Failed>
    ensures never_falls { D.faults descriptors.old ≤ D.faults descriptors.new }
    ensures failed { OnErr result (HasRisen (D.faults descriptors.old) (D.faults descriptors.new)) }
    ensures held { OnOk result ((all : List ℕ) → D.free descriptors.old ≡ Some all → D.free descriptors.new ≡ Some []) }
    ensures free { OnErr result ((left : List ℕ) → D.free descriptors.new ≡ Some left → left ≢ []) }
{
    for _ in 0..3u32 {
        if descriptors.are_open() {
            return Ok(());
        }
        descriptors.fill()?;
    }
    Ok(())
}
