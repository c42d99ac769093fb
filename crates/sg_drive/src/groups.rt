//! The generator.
ghost use Rattle.std.specs.Prelude.{◌≡◌, ◌<◌, ◌≤◌, ◌+◌, ◌-◌, ◌*◌, ◌∷◌, [], length, min, IfErr, IfOk, OnOk};
ghost use Rattle.sg_model.specs.Limits.{most_driven};
ghost use Rattle.sg_protocol.specs.IsSchedule.{AreCompiled};
ghost use Rattle.sg_protocol.specs.Texts.{real};
ghost use Rattle.sg_drive.specs.Budget.{HasBudget};
ghost use Rattle.sg_drive.specs.Faults.{IsGenerateFault, IsStopped};
ghost use Rattle.sg_drive.specs.Generated.{begin_all};
ghost use Rattle.sg_drive.specs.Groups.{AreTurns, IsGroupFault, IsOfGroup, IsTurnFault};
ghost use Rattle.sg_drive.specs.GeneratorModel.{IsDrive, drive_of};

use crate::drive::Driven;
use crate::fault::GenerateFault;
use crate::generator::Generator;
use sg_graph::Graph;
use sg_program::Programs;
use std::alloc::Global;

// How many sessions a group has at most.
const GROUP: u32 = 16;

// A session that begins brings at most 80 more steps, so a group has at most 1,280 turns. After these no frame is pending.
const MOST_TURNS: u32 = 1_281;

/// The run that a seed chooses for `sessions` sessions of a graph, from 1 to 2,000, over the graph's programs. Refused if a step
/// would begin with a full record, or if memory runs out.
pub fn generate<'p>(
    alloc: Global,
    seed: u32,
    sessions: u32,
    graph: &Graph,
    programs: &'p Programs,
) -> Result<Driven<'p>, GenerateFault>
    requires sessions { (1 ≤ sessions) × (sessions ≤ most_driven) }
    requires compiled { AreCompiled real (graph.now ∷ []) programs.now }
    requires two { 2 ≤ length graph.now.roles }
    ensures generated { IfOk result (λ d. IsDrive seed sessions graph.now programs.entry.now (drive_of d)) }
    ensures refused { IfErr result (IsGenerateFault seed sessions graph.now programs.entry.now) }
{
    let mut generator = match Generator::new(alloc, seed, sessions, graph, programs) {
        Ok(generator) => generator,
        Err(_) => return Err(GenerateFault::OutOfMemory),
    };
    let groups = groups_for(sessions);
    for group in 0..groups {
        if let Err(fault) = generator.group_at(group) {
            drop(generator);
            return Err(fault);
        }
    }
    Ok(generator.done())
}

// How many groups there are, the last one smaller than the others or not.
fn groups_for(sessions: u32) -> u32
    requires { sessions ≤ most_driven }
    ensures all { sessions ≤ 16 * result }
    ensures few { 16 * result < sessions + 16 }
{
    (sessions + GROUP - 1) / GROUP
}

// How many sessions the next group has, if `left` are left.
fn size_of_group(left: u32) -> u32
    ensures { result ≡ min 16 left }
{
    if left < GROUP { left } else { GROUP }
}

impl<'g, 'p> Generator<'g, 'p> {
    // The group of this number, counted from 0.
    fn group_at(&mut self, group: u32) -> Result<(), GenerateFault>
        requires budget { HasBudget 0 (16 * group) self.old }
        requires some { 16 * group ≤ self.old.sessions }
        ensures group { OnOk result (IsOfGroup (16 * group) (min 16 (self.old.sessions - 16 * group)) self.old self.new) }
        ensures stopped { IfErr result (IsGroupFault (16 * group) (min 16 (self.old.sessions - 16 * group)) self.old) }
    {
        let first = GROUP * group;
        let count = size_of_group(self.sessions - first);
        self.group(first, count)
    }

    // A group of `count` sessions, the first of index `first`: they begin, and turns are made until no frame is pending.
    fn group(&mut self, first: u32, count: u32) -> Result<(), GenerateFault>
        requires budget { HasBudget 0 first self.old }
        requires few { (first + count ≤ self.old.sessions) × (count ≤ 16) }
        ensures group { OnOk result (IsOfGroup first count self.old self.new) }
        ensures stopped { IfErr result (IsGroupFault first count self.old) }
    {
        self.begin_all(first, count)?;
        self.take_turns(first + count)
    }

    // `count` sessions begin one after another, the first of index `first`.
    fn begin_all(&mut self, first: u32, count: u32) -> Result<(), GenerateFault>
        requires budget { HasBudget 0 first self.old }
        requires few { (first + count ≤ self.old.sessions) × (count ≤ 16) }
        ensures going { OnOk result (self.new ≡ record self.old { going = begin_all self.old.seed self.old.graph first count self.old.going }) }
        ensures stopped { IfErr result (IsStopped (begin_all self.old.seed self.old.graph first count self.old.going).replay) }
    {
        for index in 0..count {
            self.begin(first + index)?;
        }
        Ok(())
    }

    // Turns are made until no frame is pending, if `begun` sessions have begun.
    fn take_turns(&mut self, begun: u32) -> Result<(), GenerateFault>
        requires budget { HasBudget 1_280 begun self.old }
        ensures over { OnOk result (AreTurns self.old self.new) }
        ensures stopped { IfErr result (IsTurnFault self.old) }
    {
        for _turn in 0..MOST_TURNS {
            if self.is_over() {
                return Ok(());
            }
            self.turn()?;
        }
        unreachable!();
    }
}
