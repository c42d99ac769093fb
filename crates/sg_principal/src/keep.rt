//! The command `keep`: a run over a ledger. It reads keys, programs and a script, opens the ledger and then the link, and plays the script as
//! one principal whose joins are kept (`sg_keep`).
ghost use Rattle.std.specs.Prelude.{◌≡◌, ◌⊎◌, Err, Some, false};
ghost use Rattle.sg_joins.specs.Images.{AllRepresent};
ghost use Rattle.sg_script.specs.Script.{IsScript};
ghost use Rattle.sg_ending.specs.Model.{ending_held};
ghost use Rattle.sg_setup.specs.Setup.{waits_at};
ghost use Rattle.sg_principal.specs.Ledgers.{CanHaveKept, EndsOver, KeepsRun, KeepsSetup, ending_of_keep};
ghost use Rattle.sg_principal.specs.Model.{run_files_held, setup_held};
ghost use Rattle.sg_principal.specs.Outside.{IsKept, disk_of, files_of, stage_at_call, stage_at_return, stage_of};
ghost use Rattle.sg_principal.specs.Runs.{LacksLink};

use crate::joins::open_ledger;
use crate::named::RunFiles;
use crate::stage::Stage;
use sg_base::{Files, Fresh, Link, Sink};
use sg_ending::Ending;
use sg_keep::KeepFault;
use sg_ledger::{Disk, Ledger};
use sg_play::PlayFault;
use sg_setup::{Setup, read_setup};
use std::alloc::Global;

/// Plays the script of a file as the principal of a key file, with the programs of files, over a link and over the ledger of a file: its
/// starts, and then as many deliveries as it may take; or says why not.
pub fn keep<'w, F: Files, O: Sink, L: Link, R: Fresh, D: Disk>(
    alloc: Global,
    file: &'w str,
    named: RunFiles<'w>,
    most: u32,
    files: &mut F,
    stage: Stage<'_, O, L, R>,
    disk: &mut D,
) -> Ending<'w>
    ensures kept { IsKept (files_of F.Files files.old) (files_of F.Files files.new) }
    ensures keeps { KeepsRun file.now (run_files_held named.entry) most (files_of F.Files files.old) (files_of F.Files files.new)
        (stage_of O.Sink L.Link R.Fresh (stage_at_call stage.entry)) (stage_of O.Sink L.Link R.Fresh (stage_at_return stage.exit))
        (disk_of D.Disk disk.old) (disk_of D.Disk disk.new) (ending_held result) }
    ensures as_before { CanHaveKept (ending_held result) ⊎ (stage_at_return stage.exit ≡ stage_at_call stage.entry) }
{
    match read_setup(alloc, named.keys, named.script, named.programs, files) {
        Ok(setup) => keep_setup(alloc, file, setup, most, stage, disk),
        Err(ending) => ending,
    }
}

// Opens the ledger of a file, and plays over it.
fn keep_setup<O: Sink, L: Link, R: Fresh, D: Disk>(
    alloc: Global,
    file: &str,
    setup: Setup,
    most: u32,
    stage: Stage<'_, O, L, R>,
    disk: &mut D,
) -> Ending<'static>
    requires keys { setup.keys_of_node ≡ setup.keys }
    requires script { IsScript setup.programs setup.script }
    ensures keeps { KeepsSetup file.now (setup_held setup) most
        (stage_of O.Sink L.Link R.Fresh (stage_at_call stage.entry)) (stage_of O.Sink L.Link R.Fresh (stage_at_return stage.exit))
        (disk_of D.Disk disk.old) (disk_of D.Disk disk.new) (ending_held result) }
    ensures as_before { CanHaveKept (ending_held result) ⊎ (stage_at_return stage.exit ≡ stage_at_call stage.entry) }
{
    match open_ledger(alloc, file, disk) {
        Ok(ledger) => ended(play_over(alloc, setup, ledger, most, stage, disk)),
        Err(ending) => {
            drop(setup);
            ending
        }
    }
}

// Opens the link at the address of the keys, and plays over a ledger that was opened.
fn play_over<O: Sink, L: Link, R: Fresh, D: Disk>(
    alloc: Global,
    setup: Setup,
    ledger: Ledger,
    most: u32,
    stage: Stage<'_, O, L, R>,
    disk: &mut D,
) -> Result<(), KeepFault>
    requires keys { setup.keys_of_node ≡ setup.keys }
    requires script { IsScript setup.programs setup.script }
    requires working { ledger.failed ≡ false }
    requires represents { AllRepresent (D.may_leave disk.old) ledger.joins }
    ensures bound { D.bound disk.new ≡ D.bound disk.old }
    ensures waits { (L.bound (stage_at_return stage.exit).link ≡ Some (waits_at setup.keys)) ⊎
        ((result ≡ Err (KeepFault.Played PlayFault.LinkFailed)) × LacksLink
        (stage_of O.Sink L.Link R.Fresh (stage_at_call stage.entry)) (stage_of O.Sink L.Link R.Fresh (stage_at_return stage.exit))) }
    ensures ends { EndsOver ledger.joins (setup_held setup) most
        (stage_of O.Sink L.Link R.Fresh (stage_at_call stage.entry)) (stage_of O.Sink L.Link R.Fresh (stage_at_return stage.exit))
        (disk_of D.Disk disk.old) (disk_of D.Disk disk.new) result }
{
    match stage.link.open(setup.keys.listen()) {
        Ok(()) => {}
        Err(_) => {
            drop(setup);
            drop(ledger);
            return Err(KeepFault::Played(PlayFault::LinkFailed));
        }
    }
    let Setup {
        keys,
        keys_of_node,
        programs,
        script,
    } = setup;
    let Stage { out, link, fresh } = stage;
    let came = sg_keep::keep(
        alloc,
        keys_of_node,
        &keys,
        &programs,
        script,
        ledger,
        most,
        link,
        fresh,
        out,
        disk,
    );
    drop(keys);
    drop(programs);
    came
}

// How the program ends after a play.
fn ended(came: Result<(), KeepFault>) -> Ending<'static>
    ensures ending { ending_held result ≡ ending_of_keep came }
    ensures played { CanHaveKept (ending_held result) }
{
    match came {
        Ok(()) => Ending::Written,
        Err(KeepFault::Played(PlayFault::LinkFailed)) => Ending::LinkFailed,
        Err(KeepFault::Played(PlayFault::WriteFailed)) => Ending::WriteFailed,
        Err(KeepFault::Played(PlayFault::OutOfMemory)) => Ending::NoMemory,
        Err(KeepFault::DiskFailed) => Ending::DiskFailed,
    }
}
