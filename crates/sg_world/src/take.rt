//! One step of a replay.
ghost use Rattle.std.specs.Prelude.{◌≡◌, ℕ, ◌+◌, ◌<◌, ◌^◌, ◌≤◌, None, length, IfErr, IfOk, OnErr, OnOk};
ghost use Rattle.sg_model.specs.Limits.{most_record_before, most_steps};
ghost use Rattle.sg_protocol.specs.Schedule.{who_of};
ghost use Rattle.sg_protocol.specs.Steps.{with_step};
ghost use Rattle.sg_sched.specs.Format.StepsHeld.{step_of};
ghost use Rattle.sg_world.specs.StepResults.{IsNamed};
ghost use Rattle.sg_world.specs.Crafts.{IsResultAtIndex, IsCraftable};
ghost use Rattle.sg_world.specs.Holds.{schedule_of, Holds};
ghost use Rattle.sg_world.specs.RecordModel.{IsHonestIn, no_frame};
ghost use Rattle.sg_sched.specs.Steps.{CanBeTaken};
ghost use Rattle.sg_world.specs.Indices.{IsFaultOf, IsIndexOf, names_of};

use crate::StepFault;
use crate::call::call;
use crate::craft::craft;
use crate::nodes::index_of;
use crate::premises::Principals;
use crate::record::{Record, StepResult};
use indexmap::IndexMap;
use sg_base::{Name, OutOfMemory, RoleSet};
use sg_certify::honest_roles;
use sg_node::Node;
use sg_sched::Step;
use sg_setting::{Setting, copy_step};
use std::alloc::Global;

// The most bytes that the record may hold as a step begins.
const MOST_BYTES: u128 = 264_241_152;

/// The index of the node whose step it is, or `None` for a craft. The principal has a node, and the record has room.
pub(crate) fn admit<'p>(
    nodes: &IndexMap<Name, Node<'p>>,
    history: &Record<'p>,
    step: &Step,
) -> Result<Option<usize>, StepFault>
    ensures index { IfOk result (IsIndexOf nodes.now.entries (step_of step.now)) }
    ensures size { IfOk result (λ p. history.now.done.size ≤ most_record_before) }
    ensures refused { IfErr result (IsFaultOf (names_of nodes.now.entries) history.now.done.size (step_of step.now)) }
{
    let index = index_for(nodes, step)?;
    let bytes = history.size();
    if bytes > MOST_BYTES {
        return Err(StepFault::RecordFull { bytes });
    }
    Ok(index)
}

// The index of the node whose step it is, or `None` for a craft.
fn index_for<'p>(nodes: &IndexMap<Name, Node<'p>>, step: &Step) -> Result<Option<usize>, StepFault>
    ensures index { IfOk result (IsIndexOf nodes.now.entries (step_of step.now)) }
    ensures refused { (size : ℕ) → IfErr result (IsFaultOf (names_of nodes.now.entries) size (step_of step.now)) }
{
    let Some(name) = who(step) else {
        return Ok(None);
    };
    let Some(index) = index_of(nodes, &name) else {
        return Err(StepFault::NotHonest { name });
    };
    Ok(Some(index))
}

/// Takes a step at the node at its index, and records it. If memory runs out, the nodes and the record are as before.
pub(crate) fn take_step<'p>(
    alloc: Global,
    setting: &Setting<'p>,
    nodes: &mut IndexMap<Name, Node<'p>>,
    index: Option<usize>,
    history: &mut Record<'p>,
    step: &Step,
) -> Result<(), OutOfMemory>
    requires holds { Holds setting.now nodes.old.entries history.old.done }
    requires index { IsIndexOf nodes.old.entries (step_of step.now) index }
    requires room { length history.old.done.entries < most_steps }
    requires size { history.old.done.size ≤ most_record_before }
    requires step { CanBeTaken (schedule_of setting.now nodes.old.entries history.old.done) (step_of step.now) }
    ensures taken { OnOk result (Holds setting.now nodes.new.entries history.new.done) }
    ensures schedule { OnOk result (schedule_of setting.now nodes.new.entries history.new.done
        ≡ with_step (schedule_of setting.now nodes.old.entries history.old.done) (step_of step.now)) }
    ensures back { OnErr result ((nodes.new.entries ≡ nodes.old.entries) × (history.new.done ≡ history.old.done)) }
{
    history.make_room()?;
    let kept = copy_step(alloc, step)?;
    let mut step_result = StepResult::no_frame(alloc);
    match perform(
        alloc,
        setting,
        nodes,
        index,
        history,
        step,
        &mut step_result,
    ) {
        Ok(()) => {
            let honest = honest_in(setting, nodes, step, &step_result);
            history.put(kept, honest, step_result);
            Ok(())
        }
        Err(fault) => {
            drop(kept);
            drop(step_result);
            Err(fault)
        }
    }
}

// The honest roles of the cast of the session that a step starts, or that its frame joined. It takes no memory.
fn honest_in<'p>(
    setting: &Setting<'p>,
    nodes: &IndexMap<Name, Node<'p>>,
    step: &Step,
    step_result: &StepResult<'p>,
) -> RoleSet
    requires { IsNamed (length setting.now.sessions) (step_of step.now) }
    ensures { IsHonestIn setting.now.sessions (names_of nodes.now.entries) (step_of step.now) step_result.now.cast result }
{
    let honest = Principals { nodes };
    if let Step::Start { session, .. } = step {
        return honest_roles(&honest, &setting.cast(*session));
    }
    match &step_result.cast {
        Some(cast) => honest_roles(&honest, cast.get()),
        None => RoleSet::empty(),
    }
}

// Writes the outcome of the next step over `step_result`: at the node at its index, or of the craft.
fn perform<'p>(
    alloc: Global,
    setting: &Setting<'p>,
    nodes: &mut IndexMap<Name, Node<'p>>,
    index: Option<usize>,
    history: &Record<'p>,
    step: &Step,
    step_result: &mut StepResult<'p>,
) -> Result<(), OutOfMemory>
    requires index { IsIndexOf nodes.old.entries (step_of step.now) index }
    requires named { IsNamed (length setting.now.sessions) (step_of step.now) }
    requires can { IsCraftable setting.now (step_of step.now) }
    requires room { length history.now.done.entries < most_steps }
    requires few { length history.now.done.frames + 1 < 2 ^ 32 }
    requires blank { step_result.old ≡ no_frame }
    ensures is_result { OnOk result (IsResultAtIndex setting.now history.now.done.frames (length history.now.done.entries + 1)
        (step_of step.now) index nodes.old.entries nodes.new.entries step_result.new) }
    ensures back { OnErr result (nodes.new.entries ≡ nodes.old.entries) }
{
    match index {
        Some(index) => call(
            alloc,
            &mut nodes[index],
            setting,
            history.frames(),
            history.count() as u32 + 1,
            step,
            step_result,
        ),
        None => craft(alloc, setting, history.frames(), step, step_result),
    }
}

/// The principal whose step it is.
pub(crate) fn who(step: &Step) -> Option<Name>
    ensures { result ≡ who_of (step_of step.now) }
{
    match step {
        Step::Start { who, .. } => Some(*who),
        Step::Act { who, .. } => Some(*who),
        Step::Abandon { who, .. } => Some(*who),
        Step::Deliver { who, .. } => Some(*who),
        Step::Craft(_) => None,
    }
}
