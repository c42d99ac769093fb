//! The ledger in which a run keeps its joins.
ghost use Rattle.std.specs.Prelude.{◌≡◌, IfErr, IfOk, OnOk, Some, false};
ghost use Rattle.sg_joins.specs.Images.{AllRepresent};
ghost use Rattle.sg_ledger.specs.Disk.{IfSeen};
ghost use Rattle.sg_ledger.specs.Format.{Represents};
ghost use Rattle.sg_ending.specs.Model.{ending_held};
ghost use Rattle.sg_principal.specs.Ledgers.{IsBound, IsLeft, LacksLedger, LeavesMeanwhile, ending_of_open};
ghost use Rattle.sg_principal.specs.Outside.{disk_of};

use sg_ending::Ending;
use sg_ledger::{Disk, Ledger, OpenFault};
use std::alloc::Global;

/// The ledger of a file, or how the program ends without it.
pub fn open_ledger<D: Disk>(
    alloc: Global,
    file: &str,
    disk: &mut D,
) -> Result<Ledger, Ending<'static>>
    ensures working { IfOk result (λ ledger. ledger.failed ≡ false) }
    ensures opened { IfOk result (λ ledger. IfSeen (D.seen disk.old) (λ bytes. Represents bytes ledger.joins)) }
    ensures represents { IfOk result (λ ledger. AllRepresent (D.may_leave disk.new) ledger.joins) }
    ensures bound { OnOk result (D.bound disk.new ≡ Some file.now) }
    ensures tried { IfErr result (λ ending. IsBound file.now (disk_of D.Disk disk.old) (disk_of D.Disk disk.new) (ending_held ending)) }
    ensures lacks { IfErr result (λ ending. LacksLedger (disk_of D.Disk disk.old) (disk_of D.Disk disk.new) (ending_held ending)) }
    ensures left { IsLeft (disk_of D.Disk disk.old) (disk_of D.Disk disk.new) }
    ensures any_moment { LeavesMeanwhile (disk_of D.Disk disk.old) (disk_of D.Disk disk.new) (D.may_leave disk.old) }
    ensures no_fault { OnOk result (D.faults disk.new ≡ D.faults disk.old) }
{
    match disk.open(file) {
        Ok(()) => {}
        Err(_) => return Err(Ending::DiskFailed),
    }
    match Ledger::open(alloc, disk) {
        Ok(ledger) => Ok(ledger),
        Err(fault) => Err(ended(fault)),
    }
}

// How the program ends if no ledger is opened.
fn ended(fault: OpenFault) -> Ending<'static>
    ensures { ending_held result ≡ ending_of_open fault }
{
    match fault {
        OpenFault::NotALedger => Ending::NoLedger,
        OpenFault::BadSlot { slot } => Ending::BadSlot { slot },
        OpenFault::Failed => Ending::DiskFailed,
        OpenFault::OutOfMemory => Ending::NoMemory,
    }
}
