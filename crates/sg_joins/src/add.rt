//! The join of a call, added to a ledger.
ghost use Rattle.std.specs.Prelude.{◌≡◌, ◌≢◌, ◌≤◌, ◌⊎◌, false, List, ℕ, Err, IfSome, OnErr, OnOk};
ghost use Rattle.sg_base.specs.Outside.{HasRisen};
ghost use Rattle.sg_ledger.specs.Disk.{LeavesOnly};
ghost use Rattle.sg_ledger.specs.Format.{Represents};
ghost use Rattle.sg_report.specs.Outcome.{outcome_of};
ghost use Rattle.sg_joins.specs.Images.{AllRepresent, RepresentsEither};
ghost use Rattle.sg_joins.specs.Joins.{IsNew, join_reported, with_join};

use crate::JoinFault;
use crate::join::join_in;
use sg_ledger::{AddJoinFault, Disk, Ledger};
use sg_report::Outcome;

/// Adds the join of the outcome of a call to a ledger, if it is one. The ledger works, each image of the disk represents its joins, and the join
/// is new to it. It fails if the disk fails, after which an image may have the join or not, or if memory ran out.
pub fn add_join<D: Disk>(
    ledger: &mut Ledger,
    outcome: &Outcome<'_>,
    disk: &mut D,
) -> Result<(), JoinFault>
    requires working { ledger.old.failed ≡ false }
    requires images { AllRepresent (D.may_leave disk.old) ledger.old.joins }
    requires new { IfSome (join_reported (outcome_of outcome.now)) (IsNew ledger.old.joins) }
    ensures disk_bound { D.bound disk.new ≡ D.bound disk.old }
    ensures never_falls { D.faults disk.old ≤ D.faults disk.new }
    ensures failed { result ≡ Err JoinFault.DiskFailed → HasRisen (D.faults disk.old) (D.faults disk.new) }
    ensures no_fault { result ≢ Err JoinFault.DiskFailed → D.faults disk.new ≡ D.faults disk.old }
    ensures added { OnOk result (ledger.new ≡ record { joins = with_join ledger.old.joins (join_reported (outcome_of outcome.now)); failed = false }) }
    ensures images { OnOk result (AllRepresent (D.may_leave disk.new) ledger.new.joins) }
    ensures between { OnErr result ((image : List ℕ) → D.may_leave disk.new image
        → Represents image ledger.old.joins ⊎ Represents image (with_join ledger.old.joins (join_reported (outcome_of outcome.now)))) }
    ensures any_moment { LeavesOnly D.moment D.left_since disk.old disk.new
        (RepresentsEither ledger.old.joins (with_join ledger.old.joins (join_reported (outcome_of outcome.now)))) }
{
    let Some(join) = join_in(outcome) else {
        return Ok(());
    };
    match ledger.add(disk, join.0, join.1) {
        Ok(()) => Ok(()),
        Err(AddJoinFault::Failed) => Err(JoinFault::DiskFailed),
        Err(AddJoinFault::OutOfMemory) => Err(JoinFault::OutOfMemory),
        Err(AddJoinFault::Twice) => unreachable!(),
        Err(AddJoinFault::Full) => unreachable!(),
    }
}
