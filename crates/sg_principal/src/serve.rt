//! The command `serve`: a principal for an application. It reads keys and programs, opens the ledger, if it has one, and then the link, and
//! answers the lines of standard input (`sg_serve`).
ghost use Rattle.std.specs.Prelude.{◌≡◌, ◌⊎◌, false, IfSome, IsNone, IsSome, is_some, option_map};
ghost use Rattle.sg_joins.specs.Images.{AllRepresent};
ghost use Rattle.sg_serve.specs.Served.{images_if, joins_kept};
ghost use Rattle.sg_ending.specs.Model.{ending_held};
ghost use Rattle.sg_principal.specs.Model.{named_files_held, principal_held};
ghost use Rattle.sg_principal.specs.Outside.{IsKept, application_of, disk_of, files_of, stage_at_call, stage_at_return};
ghost use Rattle.sg_principal.specs.Serves.{CanHaveServed, EndsServing, ServesOver, ServesPrincipal, ServesRun, ending_of_serve};

use crate::joins::open_ledger;
use crate::named::NamedFiles;
use crate::stage::Stage;
use sg_base::{Files, Fresh, Sink};
use sg_ending::Ending;
use sg_input::Input;
use sg_keys::Keyring;
use sg_ledger::{Disk, Ledger};
use sg_node::Node;
use sg_program::Programs;
use sg_serve::ServeFault;
use sg_setup::{Principal, read_principal};
use sg_wait::TimedLink;
use std::alloc::Global;

/// Serves an application as the principal of a key file, with the programs of files, over a link, and over the ledger of a file, if one is
/// named; or says why not.
pub fn serve<'w, F: Files, O: Sink, I: Input, L: TimedLink, R: Fresh, D: Disk>(
    alloc: Global,
    named: NamedFiles<'w>,
    files: &mut F,
    stage: Stage<'_, O, L, R>,
    input: &mut I,
    disk: &mut D,
) -> Ending<'w>
    ensures kept { IsKept (files_of F.Files files.old) (files_of F.Files files.new) }
    ensures serves { ServesRun (named_files_held named.entry) (files_of F.Files files.old) (files_of F.Files files.new)
        (application_of O.Sink L.Link L.coming R.Fresh I.Input (stage_at_call stage.entry) input.old)
        (application_of O.Sink L.Link L.coming R.Fresh I.Input (stage_at_return stage.exit) input.new)
        (disk_of D.Disk disk.old) (disk_of D.Disk disk.new) (ending_held result) }
    ensures as_before { CanHaveServed (ending_held result) ⊎ ((stage_at_return stage.exit ≡ stage_at_call stage.entry) × (input.new ≡ input.old)) }
    ensures disk { IsSome named.entry.ledger ⊎ (disk.new ≡ disk.old) }
{
    match read_principal(alloc, named.keys, named.programs, files) {
        Ok(principal) => serve_principal(alloc, named.ledger, principal, stage, input, disk),
        Err(ending) => ending,
    }
}

// Opens the ledger, if one is named, and serves.
fn serve_principal<O: Sink, I: Input, L: TimedLink, R: Fresh, D: Disk>(
    alloc: Global,
    ledger: Option<&str>,
    principal: Principal,
    stage: Stage<'_, O, L, R>,
    input: &mut I,
    disk: &mut D,
) -> Ending<'static>
    requires { principal.keys_of_node ≡ principal.keys }
    ensures serves { ServesPrincipal (option_map (λ f. f.now) ledger.entry) (principal_held principal)
        (application_of O.Sink L.Link L.coming R.Fresh I.Input (stage_at_call stage.entry) input.old)
        (application_of O.Sink L.Link L.coming R.Fresh I.Input (stage_at_return stage.exit) input.new)
        (disk_of D.Disk disk.old) (disk_of D.Disk disk.new) (ending_held result) }
    ensures as_before { CanHaveServed (ending_held result) ⊎ ((stage_at_return stage.exit ≡ stage_at_call stage.entry) × (input.new ≡ input.old)) }
    ensures disk { IsSome ledger.entry ⊎ (disk.new ≡ disk.old) }
{
    match ledger {
        Some(file) => match open_ledger(alloc, file, disk) {
            Ok(ledger) => serve_over(alloc, principal, Some(ledger), stage, input, disk),
            Err(ending) => {
                drop(principal);
                ending
            }
        },
        None => serve_over(alloc, principal, None, stage, input, disk),
    }
}

// Opens the link at the address of the keys, and serves over a ledger that was opened, or over none.
fn serve_over<O: Sink, I: Input, L: TimedLink, R: Fresh, D: Disk>(
    alloc: Global,
    principal: Principal,
    ledger: Option<Ledger>,
    stage: Stage<'_, O, L, R>,
    input: &mut I,
    disk: &mut D,
) -> Ending<'static>
    requires keys { principal.keys_of_node ≡ principal.keys }
    requires working { IfSome ledger (λ l. l.failed ≡ false) }
    requires represents { AllRepresent (images_if (is_some ledger) (D.may_leave disk.old)) (joins_kept ledger) }
    ensures serves { ServesOver (is_some ledger) (joins_kept ledger) (principal_held principal)
        (application_of O.Sink L.Link L.coming R.Fresh I.Input (stage_at_call stage.entry) input.old)
        (application_of O.Sink L.Link L.coming R.Fresh I.Input (stage_at_return stage.exit) input.new)
        (disk_of D.Disk disk.old) (disk_of D.Disk disk.new) (ending_held result) }
    ensures bound { D.bound disk.new ≡ D.bound disk.old }
    ensures served { CanHaveServed (ending_held result) }
    ensures disk { IsNone ledger → disk.new ≡ disk.old }
{
    match stage.link.open_at(principal.keys.listen()) {
        Ok(()) => ended(answer_all(alloc, principal, ledger, stage, input, disk)),
        Err(_) => {
            drop(principal);
            drop(ledger);
            Ending::LinkFailed
        }
    }
}

// Serves over a link that is open.
fn answer_all<O: Sink, I: Input, L: TimedLink, R: Fresh, D: Disk>(
    alloc: Global,
    principal: Principal,
    ledger: Option<Ledger>,
    stage: Stage<'_, O, L, R>,
    input: &mut I,
    disk: &mut D,
) -> Result<(), ServeFault>
    requires keys { principal.keys_of_node ≡ principal.keys }
    requires working { IfSome ledger (λ l. l.failed ≡ false) }
    requires represents { AllRepresent (images_if (is_some ledger) (D.may_leave disk.old)) (joins_kept ledger) }
    ensures bound { D.bound disk.new ≡ D.bound disk.old }
    ensures ends { EndsServing (is_some ledger) (joins_kept ledger) (principal_held principal)
        (application_of O.Sink L.Link L.coming R.Fresh I.Input (stage_at_call stage.entry) input.old)
        (application_of O.Sink L.Link L.coming R.Fresh I.Input (stage_at_return stage.exit) input.new)
        (disk_of D.Disk disk.old) (disk_of D.Disk disk.new) result }
    ensures disk { IsNone ledger → disk.new ≡ disk.old }
{
    let Principal {
        keys,
        keys_of_node,
        programs,
    } = principal;
    let came = answer_with(
        alloc,
        &keys,
        keys_of_node,
        &programs,
        ledger,
        stage,
        input,
        disk,
    );
    drop(keys);
    drop(programs);
    came
}

// Serves with a node that is made of the keys, the programs and the joins of the ledger, if there is one.
fn answer_with<O: Sink, I: Input, L: TimedLink, R: Fresh, D: Disk>(
    alloc: Global,
    keys: &Keyring,
    keys_of_node: Keyring,
    programs: &Programs,
    ledger: Option<Ledger>,
    stage: Stage<'_, O, L, R>,
    input: &mut I,
    disk: &mut D,
) -> Result<(), ServeFault>
    requires keys { keys_of_node ≡ keys.now }
    requires working { IfSome ledger (λ l. l.failed ≡ false) }
    requires represents { AllRepresent (images_if (is_some ledger) (D.may_leave disk.old)) (joins_kept ledger) }
    ensures bound { D.bound disk.new ≡ D.bound disk.old }
    ensures ends { EndsServing (is_some ledger) (joins_kept ledger) (record { keys = keys.now; programs = programs.now })
        (application_of O.Sink L.Link L.coming R.Fresh I.Input (stage_at_call stage.entry) input.old)
        (application_of O.Sink L.Link L.coming R.Fresh I.Input (stage_at_return stage.exit) input.new)
        (disk_of D.Disk disk.old) (disk_of D.Disk disk.new) result }
    ensures disk { IsNone ledger → disk.new ≡ disk.old }
{
    let node = match &ledger {
        Some(ledger) => Node::with_joins(alloc, keys_of_node, programs, ledger.joins()),
        None => Node::new(alloc, keys_of_node, programs),
    };
    let Ok(node) = node else {
        drop(ledger);
        return Err(ServeFault::OutOfMemory);
    };
    let Stage { out, link, fresh } = stage;
    sg_serve::serve(
        alloc, node, keys, programs, ledger, input, link, fresh, out, disk,
    )
}

// How the program ends after it.
fn ended(came: Result<(), ServeFault>) -> Ending<'static>
    ensures ending { ending_held result ≡ ending_of_serve came }
    ensures served { CanHaveServed (ending_held result) }
{
    match came {
        Ok(()) => Ending::Written,
        Err(ServeFault::InputFailed) => Ending::InputFailed,
        Err(ServeFault::WriteFailed) => Ending::WriteFailed,
        Err(ServeFault::DiskFailed) => Ending::DiskFailed,
        Err(ServeFault::OutOfMemory) => Ending::NoMemory,
    }
}
