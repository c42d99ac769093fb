//! The command `ledger`: makes a ledger of a file that is missing or empty.
ghost use Rattle.std.specs.Prelude.{◌≡◌, Some, IfErr, OnOk};
ghost use Rattle.sg_ending.specs.Model.{ending_held};
ghost use Rattle.sg_principal.specs.Ledgers.{IsBound, IsMade, LacksRoom, Makes};
ghost use Rattle.sg_principal.specs.Outside.{disk_of, output_of};

use sg_base::{Sink, write_all};
use sg_ending::Ending;
use sg_ledger::{CreateFault, Disk, Ledger};
use std::alloc::Global;

/// Makes a ledger of a file, and writes that it is made when it is on the disk; or says why not.
pub fn ledger<O: Sink, D: Disk>(
    alloc: Global,
    file: &str,
    out: &mut O,
    disk: &mut D,
) -> Ending<'static>
    ensures { Makes file.now (output_of O.Sink out.old) (output_of O.Sink out.new)
        (disk_of D.Disk disk.old) (disk_of D.Disk disk.new) (ending_held result) }
{
    match create(alloc, file, disk) {
        Ok(()) => match write_all(out, b"ledger made\n") {
            Ok(()) => Ending::Written,
            Err(_) => Ending::WriteFailed,
        },
        Err(ending) => ending,
    }
}

// Makes a ledger of a file.
fn create<D: Disk>(alloc: Global, file: &str, disk: &mut D) -> Result<(), Ending<'static>>
    ensures bound { OnOk result (D.bound disk.new ≡ Some file.now) }
    ensures tried { IfErr result (λ ending. IsBound file.now (disk_of D.Disk disk.old) (disk_of D.Disk disk.new) (ending_held ending)) }
    ensures made { OnOk result (IsMade (disk_of D.Disk disk.old) (disk_of D.Disk disk.new)) }
    ensures not_made { IfErr result (λ ending. LacksRoom (disk_of D.Disk disk.old) (disk_of D.Disk disk.new) (ending_held ending)) }
{
    match disk.open(file) {
        Ok(()) => {}
        Err(_) => return Err(Ending::DiskFailed),
    }
    match Ledger::create(alloc, disk) {
        Ok(()) => Ok(()),
        Err(CreateFault::NotEmpty { .. }) => Err(Ending::LedgerNotEmpty),
        Err(CreateFault::Failed) => Err(Ending::DiskFailed),
        Err(CreateFault::OutOfMemory) => Err(Ending::NoMemory),
    }
}
