//! The command `replay`: reads a schedule, compiles its graphs, replays it over a node for each honest principal, and writes the report.
//!
//! The run of a replay is the core's, so what holds of every run holds of it: if the assumptions hold, a receipt from an honest sender has
//! a send, frames show the last steps of honest senders, and a frame that is awaited and delivered is received (`sg_world::laws`).
ghost use Rattle.std.specs.Prelude.{◌≡◌, ◌<◌, ◌≤◌, true, All, IfErr, IfOk, OnOk, length};
ghost use Rattle.sg_model.specs.Limits.{most_schedule_file, most_steps};
ghost use Rattle.sg_compile.specs.All.{IsAllFault};
ghost use Rattle.sg_compile.specs.Compiled.{IsWhole};
ghost use Rattle.sg_protocol.specs.IsSchedule.{AreCompiled};
ghost use Rattle.sg_protocol.specs.Steps.{is_taken};
ghost use Rattle.sg_protocol.specs.Texts.{real};
ghost use Rattle.sg_sched_text.specs.TakingLines.{kind_of};
ghost use Rattle.sg_world.specs.Faults.{IsFull};
ghost use Rattle.sg_sched.specs.Steps.{CanBeTaken};
ghost use Rattle.sg_setting.specs.Replay.{with_taken, without_steps};
ghost use Rattle.sg_sched.specs.Format.Spells.{SpellsSchedule};
ghost use Rattle.sg_sched.specs.Format.StepsHeld.{step_of};
ghost use Rattle.sg_ending.specs.Graphs.{Refuses};
ghost use Rattle.sg_ending.specs.Model.{ending_held};
ghost use Rattle.sg_replay.specs.Ends.{Replays};
ghost use Rattle.sg_replay.specs.Faults.{ending_of_fault, ending_of_line};
ghost use Rattle.sg_replay.specs.Replayed.{CanBeReplayed, HasNoRoom, Reports, Stops};

use sg_base::{Sink, write_all};
use sg_compile::{AllFault, compile_all};
use sg_ending::{Ending, Wrong};
use sg_graph::Graph;
use sg_program::Programs;
use sg_sched::{Kind, LineFault, Schedule, Step};
use sg_sched_text::read_schedule;
use sg_world::laws::runs_of_replays;
use sg_world::{StepFault, World};
use std::alloc::Global;
use std::mem;

/// A schedule file has at most 16 MiB.
pub const MOST_SCHEDULE_BYTES: u32 = 16_777_216;

/// Replays the schedule that the bytes spell and writes its report, or says why not.
pub fn replay<O: Sink>(alloc: Global, bytes: &[u8], out: &mut O) -> Ending<'static>
    requires { length bytes.now ≤ most_schedule_file }
    ensures { Replays bytes.now (record { bytes = O.written out.old; faults = O.faults out.old })
        (record { bytes = O.written out.new; faults = O.faults out.new }) (ending_held result) }
{
    match read_schedule(alloc, bytes) {
        Ok(schedule) => {
            let ending = replay_schedule(alloc, bytes, &schedule, out);
            // The program ends next, as for the record below.
            mem::forget(schedule);
            ending
        }
        Err(fault) => refused(fault),
    }
}

// How the program ends if bytes are no schedule.
fn refused(fault: LineFault) -> Ending<'static>
    ensures { ending_held result ≡ ending_of_fault fault }
{
    match fault {
        LineFault::Line { line, kind } => wrong_line(line, kind),
        LineFault::OutOfMemory => Ending::NoMemory,
    }
}

// How the program ends if this line is the first that is wrong.
fn wrong_line(line: u32, kind: Kind) -> Ending<'static>
    ensures { ending_held result ≡ ending_of_line line (kind_of kind) }
{
    let wrong = match kind {
        Kind::Form => Wrong::Form,
        Kind::Unknown => Wrong::Unknown,
        Kind::Twice => Wrong::Twice,
        Kind::NotHonest => Wrong::NotHonest,
        Kind::Graph(fault) => return Ending::NoGraph { fault },
        Kind::TooManySteps => return Ending::TooLarge { what: "steps" },
        Kind::TooManySessions => return Ending::TooLarge { what: "sessions" },
    };
    Ending::WrongLine { line, wrong }
}

// Compiles the graphs of the schedule that the bytes spell, and replays it.
fn replay_schedule<O: Sink>(
    alloc: Global,
    bytes: &[u8],
    schedule: &Schedule,
    out: &mut O,
) -> Ending<'static>
    requires short { length bytes.now ≤ most_schedule_file }
    requires spelled { SpellsSchedule real bytes.now schedule.now }
    requires can { CanBeReplayed schedule.now }
    ensures { Replays bytes.now (record { bytes = O.written out.old; faults = O.faults out.old })
        (record { bytes = O.written out.new; faults = O.faults out.new }) (ending_held result) }
{
    match compile_all(alloc, schedule.graphs.as_slice()) {
        Ok(programs) => run_schedule(alloc, bytes, schedule, &programs, out),
        Err(fault) => refused_graph(alloc, schedule.graphs.as_slice(), fault),
    }
}

// How the program ends if a graph isn't compiled.
fn refused_graph(alloc: Global, graphs: &[Graph], fault: AllFault) -> Ending<'static>
    requires { IsAllFault graphs.now fault }
    ensures { Refuses graphs.now (ending_held result) }
{
    let AllFault::Refused { index, fault } = fault else {
        return Ending::NoMemory;
    };
    match graphs[index as usize].copy(alloc) {
        Ok(graph) => Ending::GraphRefused { graph, fault },
        Err(_) => Ending::NoMemory,
    }
}

// Replays the schedule that the bytes spell over the programs of its graphs, and writes the report.
fn run_schedule<O: Sink>(
    alloc: Global,
    bytes: &[u8],
    schedule: &Schedule,
    programs: &Programs,
    out: &mut O,
) -> Ending<'static>
    requires spelled { SpellsSchedule real bytes.now schedule.now }
    requires can { CanBeReplayed schedule.now }
    requires compiled { AreCompiled real schedule.now.graphs programs.now }
    requires few { All IsWhole programs.now }
    ensures { Replays bytes.now (record { bytes = O.written out.old; faults = O.faults out.old })
        (record { bytes = O.written out.new; faults = O.faults out.new }) (ending_held result) }
{
    match report_of(alloc, programs, schedule) {
        Ok(text) => match write_all(out, text.as_slice()) {
            Ok(()) => Ending::Written,
            Err(_) => Ending::WriteFailed,
        },
        Err(ending) => ending,
    }
}

// Replays a schedule over the programs of its graphs, and gives the report, or says how the program ends without one.
fn report_of(
    alloc: Global,
    programs: &Programs,
    schedule: &Schedule,
) -> Result<Vec<u8>, Ending<'static>>
    requires can { CanBeReplayed schedule.now }
    requires compiled { AreCompiled real schedule.now.graphs programs.now }
    ensures reports { IfOk result (λ text. Reports programs.now schedule.now text.items) }
    ensures stops { IfErr result (λ ending. Stops programs.now schedule.now (ending_held ending)) }
{
    let Ok(mut world) = World::new(alloc, programs, schedule) else {
        return Err(Ending::NoMemory);
    };
    let text = report_in(&mut world, schedule);
    // The program ends next, and to give back the record piece by piece takes as long as a twentieth of the replay.
    mem::forget(world);
    text
}

// Takes the steps of a schedule in a world of its declarations, and gives the report, or says how the program ends without one.
fn report_in(world: &mut World<'_>, schedule: &Schedule) -> Result<Vec<u8>, Ending<'static>>
    requires can { CanBeReplayed schedule.now }
    requires compiled { AreCompiled real schedule.now.graphs world.old.programs }
    requires declared { world.old.schedule ≡ without_steps schedule.now }
    ensures reports { IfOk result (λ text. Reports world.old.programs schedule.now text.items) }
    ensures stops { IfErr result (λ ending. Stops world.old.programs schedule.now (ending_held ending)) }
{
    'steps: for step in schedule.steps.as_slice() {
        take(world, step)?;
    }
    runs_of_replays();
    match world.report() {
        Ok(text) => Ok(text),
        Err(_) => Err(Ending::NoMemory),
    }
}

// Takes a step of an honest principal, or a craft, or says how the program ends if it isn't taken.
fn take(world: &mut World<'_>, step: &Step) -> Result<(), Ending<'static>>
    requires few { length world.old.schedule.steps < most_steps }
    requires step { CanBeTaken world.old.schedule (step_of step.now) }
    requires honest { is_taken world.old.schedule (step_of step.now) ≡ true }
    ensures taken { OnOk result (world.new ≡ with_taken world.old (step_of step.now)) }
    ensures room { OnOk result (IsFull world.old → ⊥) }
    ensures full { IfErr result (λ ending. HasNoRoom world.old (ending_held ending)) }
{
    match world.step(step) {
        Ok(()) => Ok(()),
        Err(StepFault::RecordFull { .. }) => Err(Ending::TooLarge { what: "record" }),
        Err(StepFault::OutOfMemory) => Err(Ending::NoMemory),
        Err(StepFault::NotHonest { .. }) => unreachable!(),
    }
}
