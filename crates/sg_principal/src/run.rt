//! The command `run`: reads keys, programs and a script, opens the link, and plays the script as one principal.
//!
//! What is played is a function of the keys, the programs, the script, the first deliveries of the link and the random bytes
//! (`sg_play`): each call that it makes is a step of a node, so what holds of every run holds of it.
ghost use Rattle.std.specs.Prelude.{◌≡◌, ◌⊎◌, Err, Some};
ghost use Rattle.sg_script.specs.Script.{IsScript};
ghost use Rattle.sg_ending.specs.Model.{ending_held};
ghost use Rattle.sg_setup.specs.Setup.{waits_at};
ghost use Rattle.sg_principal.specs.Model.{run_files_held, setup_held};
ghost use Rattle.sg_principal.specs.Outside.{IsKept, files_of, stage_at_call, stage_at_return, stage_of};
ghost use Rattle.sg_principal.specs.Runs.{CanHavePlayed, EndsPlaying, LacksLink, Runs, ending_of_play};

use crate::named::RunFiles;
use crate::stage::Stage;
use sg_base::{Files, Fresh, Link, Sink};
use sg_ending::Ending;
use sg_keys::Keyring;
use sg_node::Node;
use sg_play::{PlayFault, play};
use sg_program::Programs;
use sg_script::Script;
use sg_setup::{Setup, read_setup};
use std::alloc::Global;

/// Plays the script of a file as the principal of a key file, with the programs of files, over a link: its starts, and then as many
/// deliveries as it may take; or says why not.
pub fn run<'w, F: Files, O: Sink, L: Link, R: Fresh>(
    alloc: Global,
    named: RunFiles<'w>,
    most: u32,
    files: &mut F,
    stage: Stage<'_, O, L, R>,
) -> Ending<'w>
    ensures kept { IsKept (files_of F.Files files.old) (files_of F.Files files.new) }
    ensures runs { Runs (run_files_held named.entry) most (files_of F.Files files.old) (files_of F.Files files.new)
        (stage_of O.Sink L.Link R.Fresh (stage_at_call stage.entry)) (stage_of O.Sink L.Link R.Fresh (stage_at_return stage.exit)) (ending_held result) }
    ensures as_before { CanHavePlayed (ending_held result) ⊎ (stage_at_return stage.exit ≡ stage_at_call stage.entry) }
{
    match read_setup(alloc, named.keys, named.script, named.programs, files) {
        Ok(setup) => ended(play_setup(alloc, setup, most, stage)),
        Err(ending) => ending,
    }
}

// Opens the link at the address of the keys, and plays.
fn play_setup<O: Sink, L: Link, R: Fresh>(
    alloc: Global,
    setup: Setup,
    most: u32,
    stage: Stage<'_, O, L, R>,
) -> Result<(), PlayFault>
    requires keys { setup.keys_of_node ≡ setup.keys }
    requires script { IsScript setup.programs setup.script }
    ensures waits { (L.bound (stage_at_return stage.exit).link ≡ Some (waits_at setup.keys)) ⊎
        ((result ≡ Err PlayFault.LinkFailed) × LacksLink
        (stage_of O.Sink L.Link R.Fresh (stage_at_call stage.entry)) (stage_of O.Sink L.Link R.Fresh (stage_at_return stage.exit))) }
    ensures ends { EndsPlaying (setup_held setup) most
        (stage_of O.Sink L.Link R.Fresh (stage_at_call stage.entry)) (stage_of O.Sink L.Link R.Fresh (stage_at_return stage.exit)) result }
{
    match stage.link.open(setup.keys.listen()) {
        Ok(()) => play_on(alloc, setup, most, stage),
        Err(_) => {
            drop(setup);
            Err(PlayFault::LinkFailed)
        }
    }
}

// Plays over a link that is open.
fn play_on<O: Sink, L: Link, R: Fresh>(
    alloc: Global,
    setup: Setup,
    most: u32,
    stage: Stage<'_, O, L, R>,
) -> Result<(), PlayFault>
    requires keys { setup.keys_of_node ≡ setup.keys }
    requires script { IsScript setup.programs setup.script }
    ensures bound { L.bound (stage_at_return stage.exit).link ≡ L.bound (stage_at_call stage.entry).link }
    ensures ends { EndsPlaying (setup_held setup) most
        (stage_of O.Sink L.Link R.Fresh (stage_at_call stage.entry)) (stage_of O.Sink L.Link R.Fresh (stage_at_return stage.exit)) result }
{
    let Setup {
        keys,
        keys_of_node,
        programs,
        script,
    } = setup;
    let came = play_by(alloc, &keys, keys_of_node, &programs, script, most, stage);
    drop(keys);
    drop(programs);
    came
}

// Plays with a node that is made of the keys and the programs.
fn play_by<O: Sink, L: Link, R: Fresh>(
    alloc: Global,
    keys: &Keyring,
    keys_of_node: Keyring,
    programs: &Programs,
    script: Script,
    most: u32,
    stage: Stage<'_, O, L, R>,
) -> Result<(), PlayFault>
    requires keys { keys_of_node ≡ keys.now }
    requires script { IsScript programs.now script }
    ensures bound { L.bound (stage_at_return stage.exit).link ≡ L.bound (stage_at_call stage.entry).link }
    ensures ends { EndsPlaying (record { keys = keys.now; programs = programs.now; script = script }) most
        (stage_of O.Sink L.Link R.Fresh (stage_at_call stage.entry)) (stage_of O.Sink L.Link R.Fresh (stage_at_return stage.exit)) result }
{
    match Node::new(alloc, keys_of_node, programs) {
        Ok(node) => {
            let Stage { out, link, fresh } = stage;
            play(alloc, node, keys, programs, script, most, link, fresh, out)
        }
        Err(_) => {
            drop(script);
            Err(PlayFault::OutOfMemory)
        }
    }
}

// How the program ends after a play.
fn ended(came: Result<(), PlayFault>) -> Ending<'static>
    ensures ending { ending_held result ≡ ending_of_play came }
    ensures played { CanHavePlayed (ending_held result) }
{
    match came {
        Ok(()) => Ending::Written,
        Err(PlayFault::LinkFailed) => Ending::LinkFailed,
        Err(PlayFault::WriteFailed) => Ending::WriteFailed,
        Err(PlayFault::OutOfMemory) => Ending::NoMemory,
    }
}
