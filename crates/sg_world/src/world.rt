//! A replay.
ghost use Rattle.std.specs.Prelude.{◌≡◌, ◌<◌, ◌≤◌, [], true, All, length, map, slice_get, Some, IfOk, IfErr, IfSome, OnOk, OnErr, option_map};
ghost use Rattle.sg_model.specs.Last.{last};
ghost use Rattle.sg_model.specs.Limits.{most_record_bytes, most_steps};
ghost use Rattle.sg_model.specs.Lists.{all_differ};
ghost use Rattle.sg_protocol.specs.NodeStates.{new_state};
ghost use Rattle.sg_protocol.specs.World.{keyring_of};
ghost use Rattle.sg_setting.specs.Pairs.{ArePairs};
ghost use Rattle.sg_protocol.specs.IsSchedule.{AreCompiled, IsSchedule};
ghost use Rattle.sg_protocol.specs.Texts.{real};
ghost use Rattle.sg_sched.specs.Format.StepsHeld.{step_of};
ghost use Rattle.sg_report.specs.Outcome.{outcome_of};
ghost use Rattle.sg_report.specs.Reported.{reported_log};
ghost use Rattle.sg_world.specs.Faults.{IsStepFault, IsAdmitted};
ghost use Rattle.sg_world.specs.FrameNumbers.{HasNumberUpTo};
ghost use Rattle.sg_world.specs.Laws.{HasPrograms, RunLaws};
ghost use Rattle.sg_sched.specs.Steps.{CanBeTaken};
ghost use Rattle.sg_setting.specs.Replay.{without_steps, with_taken, run_of, size_of, stepped};

use crate::StepFault;
use crate::nodes::nodes_of;
use crate::record::Record;
use crate::take::{admit, take_step};
use indexmap::IndexMap;
use sg_base::{Name, OutOfMemory};
use sg_crypt::Notes;
use sg_node::Node;
use sg_program::Programs;
use sg_report::Outcome;
use sg_sched::{Schedule, Step};
use sg_setting::Setting;
use std::alloc::Global;
use std::marker::Model;

/// A replay. A clause sees it as its programs and the schedule with the steps that were taken so far.
#[derive(Drop)]
pub struct World<'p> {
    pub(crate) alloc: Global,
    pub(crate) setting: Setting<'p>,
    // of the honest principals, in order
    pub(crate) nodes: IndexMap<Name, Node<'p>>,
    pub(crate) history: Record<'p>,
}

impl<'p> Model for World<'p> {
    ghost use Rattle.sg_setting.specs.Replay.{Replay};

    ghost Value = { Replay };

    ghost use Rattle.sg_world.specs.Model.{replay_of};
    ghost use Rattle.sg_world.specs.Invariant.{HoldsWorld};

    ghost view = { replay_of };

    ghost invariant = { HoldsWorld };
}

impl<'p> World<'p> {
    /// A replay of which no step was taken: a node for each honest principal with the keys of its pairs, no sessions and no joins. It has room
    /// for the steps of the schedule, none of which it takes.
    pub fn new(
        alloc: Global,
        programs: &'p Programs,
        schedule: &Schedule,
    ) -> Result<World<'p>, OutOfMemory>
        requires schedule { IsSchedule real (without_steps schedule.now) }
        requires compiled { AreCompiled real schedule.now.graphs programs.now }
        requires two { All (λ g. 2 ≤ length g.roles) schedule.now.graphs }
        ensures { IfOk result (λ w. w ≡ record { programs = programs.entry.now; schedule = without_steps schedule.now }) }
    {
        let setting = Setting::new(alloc, programs, schedule)?;
        let size = setting.size();
        match nodes_and_record(alloc, programs, schedule, size) {
            Ok((nodes, history)) => Ok(World {
                alloc,
                setting,
                nodes,
                history,
            }),
            Err(fault) => {
                drop(setting);
                Err(fault)
            }
        }
    }

    /// The number of steps that were taken. It takes no memory.
    pub fn len(&self) -> usize
        ensures steps { result ≡ length self.now.schedule.steps }
        ensures reported { result ≡ length (reported_log (run_of self.now).log) }
    {
        self.history.count()
    }

    /// What holds of each replay: its schedule is one, its programs are those of the schedule's graphs, and the laws of runs hold of its run. It does
    /// nothing.
    pub fn laws(&self)
        ensures programs { HasPrograms self.now }
        ensures laws { RunLaws self.now }
    {
        let _ = self.history.count();
    }

    /// The outcome of the step at an index, counted from 0. It takes no memory.
    pub fn outcome(&self, index: usize) -> &Outcome<'p>
        requires { index < length self.now.schedule.steps }
        ensures { Some (outcome_of result.now) ≡ slice_get (reported_log (run_of self.now).log) index }
    {
        let entry = &self.history.entries()[index];
        &entry.outcome
    }

    /// The outcome of the last step, or `None` if none was taken. A frame that it sent has at most the number 200,000. It takes no memory.
    pub fn last(&self) -> Option<&Outcome<'p>>
        ensures reported { option_map (λ o. outcome_of o.now) result ≡ last (reported_log (run_of self.now).log) }
        ensures number { IfSome result (λ o. HasNumberUpTo most_steps (outcome_of o.now)) }
    {
        self.history.last()
    }

    /// What was noted in each step that was taken, in order. It takes no memory.
    pub fn notes(&self) -> &[Notes]
        ensures { result.now ≡ map (λ l. l.notes) (run_of self.now).log }
    {
        self.history.notes()
    }

    /// Takes a step. Refused if its principal isn't honest, if the record is full, or if memory runs out. After a refusal
    /// the world is as before. The record holds less than 268,435,456 bytes after it.
    pub fn step(&mut self, step: &Step) -> Result<(), StepFault>
        requires room { length self.old.schedule.steps < most_steps }
        requires step { CanBeTaken self.old.schedule (step_of step.now) }
        ensures taken { OnOk result (self.new ≡ with_taken self.old (step_of step.now)) }
        ensures run { OnOk result (run_of self.new ≡ stepped self.old (step_of step.now)) }
        ensures admitted { OnOk result (IsAdmitted self.old (step_of step.now)) }
        ensures size { OnOk result (size_of self.new < most_record_bytes) }
        ensures refused { IfErr result (IsStepFault self.old (step_of step.now)) }
        ensures back { OnErr result (self.new ≡ self.old) }
    {
        let index = admit(&self.nodes, &self.history, step)?;
        let Ok(()) = take_step(
            self.alloc,
            &self.setting,
            &mut self.nodes,
            index,
            &mut self.history,
            step,
        ) else {
            return Err(StepFault::OutOfMemory);
        };
        Ok(())
    }
}

// The nodes of the honest principals, and the record of no step, of this size.
fn nodes_and_record<'p>(
    alloc: Global,
    programs: &'p Programs,
    schedule: &Schedule,
    size: u128,
) -> Result<(IndexMap<Name, Node<'p>>, Record<'p>), OutOfMemory>
    requires pairs { ArePairs schedule.now.keys }
    requires different { all_differ schedule.now.honest ≡ true }
    ensures nodes { IfOk result (λ p. p.0.entries ≡ map (λ me. (me, new_state (keyring_of schedule.now.keys me) programs.entry.now [])) schedule.now.honest) }
    ensures blank { IfOk result (λ p. p.1.done ≡ record { entries = []; notes = []; frames = []; size = size }) }
{
    let nodes = nodes_of(
        alloc,
        programs,
        schedule.keys.as_slice(),
        schedule.honest.as_slice(),
    )?;
    match Record::new(alloc, schedule.steps.len(), size) {
        Ok(history) => Ok((nodes, history)),
        Err(fault) => {
            drop(nodes);
            Err(fault)
        }
    }
}
