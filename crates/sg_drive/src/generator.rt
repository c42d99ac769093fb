//! A run that is being generated.
ghost use Rattle.std.specs.Prelude.{◌≡◌, ◌<◌, ◌≤◌, ◌+◌, ◌++◌, ◌∷◌, [], true, length, vec_len, vec_capacity, IfErr, IfOk, OnOk};
ghost use Rattle.sg_model.specs.Limits.{most_driven};
ghost use Rattle.sg_protocol.specs.IsSchedule.{AreCompiled};
ghost use Rattle.sg_protocol.specs.Steps.{is_taken};
ghost use Rattle.sg_protocol.specs.Texts.{real};
ghost use Rattle.sg_sched.specs.Format.StepsHeld.{step_of};
ghost use Rattle.sg_sched.specs.Steps.{CanBeTaken};
ghost use Rattle.sg_world.specs.Faults.{NeverFull};
ghost use Rattle.sg_sessions.specs.Draws.{draw};
ghost use Rattle.sg_drive.specs.Faults.{IsStopped};
ghost use Rattle.sg_drive.specs.Going.{adding, beginning, drawing, taking};
ghost use Rattle.sg_drive.specs.GeneratorModel.{drive_of};

use crate::drive::Driven;
use crate::fault::GenerateFault;
use crate::pending::Pending;
use sg_base::{OutOfMemory, Seq};
use sg_graph::Graph;
use sg_program::Programs;
use sg_sched::{Schedule, Step};
use sg_sessions::{Draws, setup};
use sg_world::{StepFault, World};
use std::alloc::Global;
use std::marker::Model;

/// A run that is being generated over a graph.
#[derive(Drop)]
pub(crate) struct Generator<'g, 'p> {
    pub alloc: Global,
    pub graph: &'g Graph,
    pub sessions: u32,
    // without steps
    declared: Schedule,
    // those that were taken
    steps: Vec<Step>,
    pub world: World<'p>,
    pub draws: Draws,
    pub pending: Vec<Pending>,
    pub lost: u32,
}

impl<'g, 'p> Model for Generator<'g, 'p> {
    ghost use Rattle.sg_drive.specs.Machine.{Machine};

    ghost Value = { Machine };

    ghost use Rattle.sg_drive.specs.GeneratorModel.{machine_of, HoldsMachine};

    ghost view = { machine_of };

    ghost invariant = { HoldsMachine };
}

impl<'g, 'p> Generator<'g, 'p> {
    /// A run of which no step was taken and nothing was drawn.
    pub fn new(
        alloc: Global,
        seed: u32,
        sessions: u32,
        graph: &'g Graph,
        programs: &'p Programs,
    ) -> Result<Generator<'g, 'p>, OutOfMemory>
        requires compiled { AreCompiled real (graph.now ∷ []) programs.now }
        requires two { 2 ≤ length graph.now.roles }
        requires few { sessions ≤ most_driven }
        ensures { IfOk result (λ m. m ≡ record {
          seed = seed;
          sessions = sessions;
          graph = graph.entry.now;
          going = beginning sessions graph.entry.now programs.entry.now;
        }) }
    {
        let declared = setup(alloc, sessions, graph)?;
        match World::new(alloc, programs, &declared) {
            Ok(world) => Ok(Generator {
                alloc,
                graph,
                sessions,
                declared,
                steps: Vec::new(alloc),
                world,
                draws: Draws::new(seed),
                pending: Vec::new(alloc),
                lost: 0,
            }),
            Err(fault) => {
                drop(declared);
                Err(fault)
            }
        }
    }

    /// Takes a step of a principal. If it isn't taken, the run is as before.
    pub fn take(&mut self, step: Step) -> Result<(), GenerateFault>
        requires room { length self.old.going.replay.schedule.steps < 200_000 }
        requires step { CanBeTaken self.old.going.replay.schedule (step_of step) }
        requires honest { is_taken self.old.going.replay.schedule (step_of step) ≡ true }
        ensures going { OnOk result (self.new ≡ record self.old { going = taking (step_of step) self.old.going }) }
        ensures stopped { IfErr result (IsStopped (taking (step_of step) self.old.going).replay) }
    {
        if self.steps.reserve(1).is_err() {
            return Err(GenerateFault::OutOfMemory);
        }
        match self.world.step(&step) {
            Ok(()) => {}
            Err(StepFault::RecordFull { bytes }) => return Err(GenerateFault::RecordFull { bytes }),
            Err(StepFault::OutOfMemory) => return Err(GenerateFault::OutOfMemory),
            Err(StepFault::NotHonest { .. }) => unreachable!(),
        }
        put_step(&mut self.steps, step);
        Ok(())
    }

    /// The next draw, below 65,536.
    pub fn draw(&mut self) -> u32
        requires { self.old.going.draws < 1_000_000_000 }
        ensures value { result ≡ draw self.old.seed self.old.going.draws }
        ensures small { result < 65_536 }
        ensures going { self.new ≡ record self.old { going = drawing 1 self.old.going } }
    {
        self.draws.next()
    }

    /// Puts a frame at the list's end.
    pub fn put(&mut self, frame: Pending) -> Result<(), GenerateFault>
        ensures going { OnOk result (self.new ≡ record self.old { going = adding (frame ∷ []) self.old.going }) }
        ensures stopped { IfErr result (λ e. e ≡ GenerateFault.OutOfMemory) }
    {
        match self.pending.push(frame) {
            Ok(()) => Ok(()),
            Err(_) => Err(GenerateFault::OutOfMemory),
        }
    }

    /// The run that was generated.
    pub fn done(self) -> Driven<'p>
        ensures drive { drive_of result ≡ record {
          schedule = self.entry.going.replay.schedule;
          replay = self.entry.going.replay;
          lost = self.entry.going.lost;
        } }
        ensures room { NeverFull self.entry.going.replay }
    {
        let Generator {
            declared: mut schedule,
            steps,
            world,
            lost,
            ..
        } = self;
        schedule.steps = Seq::from_vec(steps);
        Driven {
            schedule,
            world,
            lost,
        }
    }
}

// Puts a step after the others if room was made.
fn put_step(steps: &mut Vec<Step>, step: Step)
    requires { vec_len steps.old < vec_capacity steps.old }
    ensures { steps.new.items ≡ steps.old.items ++ step ∷ [] }
{
    let _ = steps.push(step);
}
