//! A step that is a call at a principal's node.
//!
//! What comes of it is long, so it is made once, as if there were no frame to deliver, and each function writes over it.
//! What few steps do is `cold`: it stands apart, so that the code of the others, the acts and the receipts, is short.
ghost use Rattle.std.specs.Prelude.{◌≡◌, ℕ, ◌+◌, ◌<◌, ◌^◌, length, map, option_map, IfOk, OnErr, OnOk};
ghost use Rattle.std.specs.List.{AllByRecursion};
ghost use Rattle.sg_model.specs.Bytes.{AreBytes};
ghost use Rattle.sg_protocol.specs.Calls.{Start, Act, Abandon, Deliver};
ghost use Rattle.sg_protocol.specs.Frame.{IsValue};
ghost use Rattle.sg_protocol.specs.NodeStates.{RepresentsPast};
ghost use Rattle.sg_protocol.specs.Past.{Past};
ghost use Rattle.sg_protocol.specs.Ranges.{IsCast};
ghost use Rattle.sg_protocol.specs.Schedule.{confounder};
ghost use Rattle.sg_protocol.specs.World.{World, frames, bytes_of};
ghost use Rattle.sg_sched.specs.Format.StepsHeld.{step_of, what_of};
ghost use Rattle.sg_walk.specs.Model.{values_of};
ghost use Rattle.sg_world.specs.StepResults.{IsResult, IsResultOfCall, IsResultOfStep, IsNamed, changed_to};
ghost use Rattle.sg_world.specs.RecordModel.{no_frame};

use crate::record::StepResult;
use sg_base::{Label, OutOfMemory, Seq, Sid, Value, Var, facts_of_bytes};
use sg_craft::{confounder, first_bytes, flipped, frame_at};
use sg_crypt::Cast;
use sg_node::Node;
use sg_report::Outcome;
use sg_sched::{Change, Step, What};
use sg_setting::Setting;
use std::alloc::Global;

/// Makes the call of a step of this number at the principal's node, and writes what comes of it over `step_result`. If memory runs out, the node is as
/// before.
pub(crate) fn call<'p>(
    alloc: Global,
    node: &mut Node<'p>,
    setting: &Setting<'_>,
    recorded: &[Seq<u8>],
    number: u32,
    step: &Step,
    step_result: &mut StepResult<'p>,
) -> Result<(), OutOfMemory>
    requires named { IsNamed (length setting.now.sessions) (step_of step.now) }
    requires few { length recorded.now + 1 < 2 ^ 32 }
    requires blank { step_result.old ≡ no_frame }
    ensures is_result { OnOk result (IsResultOfStep setting.now.sessions recorded.now number (step_of step.now) node.old node.new step_result.new) }
    ensures back { OnErr result (node.new ≡ node.old) }
{
    match step {
        Step::Start { session, .. } => start(node, setting.cast(*session), step_result),
        Step::Act {
            session,
            label,
            values,
            ..
        } => {
            let confounders = confounders_of(alloc, number as u64, values.as_slice())?;
            act(
                node,
                next_frame(recorded),
                setting.sid(*session),
                *label,
                values.as_slice(),
                confounders.as_slice(),
                step_result,
            )
        }
        Step::Abandon { session, .. } => {
            abandon(node, setting.sid(*session), step_result);
            Ok(())
        }
        Step::Deliver { what, .. } => deliver_what(alloc, node, recorded, what, step_result),
        Step::Craft(_) => Ok(()),
    }
}

/// The number that the next recorded frame has.
pub(crate) fn next_frame(recorded: &[Seq<u8>]) -> u64
    requires { length recorded.now + 1 < 2 ^ 32 }
    ensures { result ≡ length recorded.now + 1 }
{
    recorded.len() as u64 + 1
}

// Starts a session.
#[cold]
fn start<'p>(
    node: &mut Node<'p>,
    cast: Cast,
    step_result: &mut StepResult<'p>,
) -> Result<(), OutOfMemory>
    requires blank { step_result.old ≡ no_frame }
    ensures is_result { (number : ℕ) (past : Past) → RepresentsPast node.old past
        → OnOk result (IsResultOfCall number node.old node.new past (Start cast) step_result.new) }
    ensures back { OnErr result (node.new ≡ node.old) }
{
    facts_of_cast(&cast);
    let answer = node.begin(cast, &mut step_result.notes)?;
    step_result.set_outcome(Outcome::of_start(answer));
    Ok(())
}

// Sends a step, whose frame is to have this number.
fn act<'p>(
    node: &mut Node<'p>,
    frame: u64,
    sid: Sid,
    label: Label,
    values: &[(Var, Value)],
    confounders: &[[u8; 16]],
    step_result: &mut StepResult<'p>,
) -> Result<(), OutOfMemory>
    requires values { AllByRecursion (λ w. (w.0 < 256) × IsValue w.1) (values_of values.now) }
    requires count { length confounders.now ≡ length values.now }
    requires bytes { AllByRecursion (AreBytes 16) confounders.now }
    requires blank { step_result.old ≡ no_frame }
    ensures is_result { (past : Past) → RepresentsPast node.old past
        → OnOk result (IsResultOfCall frame node.old node.new past (Act sid label (values_of values.now) confounders.now) step_result.new) }
    ensures back { OnErr result (node.new ≡ node.old) }
{
    match node.send(sid, label, values, confounders, &mut step_result.notes)? {
        Ok((sent, sealed)) => {
            let (to, bytes) = sealed.release();
            step_result.set_outcome(Outcome::Sent { sent, to, frame });
            step_result.set_frame(Seq::from_vec(tight(bytes)));
        }
        Err(refusal) => step_result.set_outcome(Outcome::NotActed(refusal)),
    }
    Ok(())
}

// The bytes without spare room after them, since the record keeps them.
fn tight(mut bytes: Vec<u8>) -> Vec<u8>
    ensures { result.items ≡ bytes.items }
{
    bytes.shrink_to_fit();
    bytes
}

// Leaves a session.
#[cold]
fn abandon<'p>(node: &mut Node<'p>, sid: Sid, step_result: &mut StepResult<'p>)
    requires { step_result.old ≡ no_frame }
    ensures { (number : ℕ) (past : Past) → RepresentsPast node.old past → IsResultOfCall number node.old node.new past (Abandon sid) step_result.new }
{
    match node.abandon(sid) {
        Ok(()) => step_result.set_outcome(Outcome::Abandoned),
        Err(_) => step_result.set_outcome(Outcome::NotAbandoned),
    }
}

// Delivers what a step says.
fn deliver_what<'p>(
    alloc: Global,
    node: &mut Node<'p>,
    recorded: &[Seq<u8>],
    what: &What,
    step_result: &mut StepResult<'p>,
) -> Result<(), OutOfMemory>
    requires blank { step_result.old ≡ no_frame }
    ensures is_result { (number : ℕ) (w : World) (past : Past) → frames w ≡ recorded.now → RepresentsPast node.old past
        → OnOk result (IsResult number node.old node.new past (option_map Deliver (bytes_of w (what_of what.now))) step_result.new) }
    ensures back { OnErr result (node.new ≡ node.old) }
{
    match what {
        What::Bytes(bytes) => deliver(node, bytes.as_slice(), step_result),
        What::Frame { number, change } => match frame_at(recorded, *number) {
            None => Ok(()),
            Some(frame) => deliver_frame(alloc, node, frame, *change, step_result),
        },
    }
}

// Delivers a frame with a change.
fn deliver_frame<'p>(
    alloc: Global,
    node: &mut Node<'p>,
    frame: &[u8],
    change: Change,
    step_result: &mut StepResult<'p>,
) -> Result<(), OutOfMemory>
    requires blank { step_result.old ≡ no_frame }
    ensures is_result { (number : ℕ) (past : Past) → RepresentsPast node.old past
        → OnOk result (IsResultOfCall number node.old node.new past (Deliver (changed_to change frame.now)) step_result.new) }
    ensures back { OnErr result (node.new ≡ node.old) }
{
    match change {
        Change::Whole => deliver(node, frame, step_result),
        Change::Cut(count) => deliver(node, first_bytes(frame, count), step_result),
        Change::Flip(at) => {
            let changed = flipped(alloc, frame, at)?;
            deliver(node, changed.as_slice(), step_result)
        }
    }
}

// Delivers bytes.
fn deliver<'p>(
    node: &mut Node<'p>,
    bytes: &[u8],
    step_result: &mut StepResult<'p>,
) -> Result<(), OutOfMemory>
    requires blank { step_result.old ≡ no_frame }
    ensures is_result { (number : ℕ) (past : Past) → RepresentsPast node.old past
        → OnOk result (IsResultOfCall number node.old node.new past (Deliver bytes.now) step_result.new) }
    ensures back { OnErr result (node.new ≡ node.old) }
{
    facts_of_bytes(bytes);
    match node.receive(bytes, &mut step_result.notes)? {
        Ok(mut receipt) => {
            step_result.set_cast(receipt.take_cast());
            step_result.set_outcome(Outcome::Received(receipt));
        }
        Err(refusal) => step_result.set_outcome(Outcome::NotDelivered(refusal)),
    }
    Ok(())
}

// The confounders of an act at a step, one for each value.
fn confounders_of(
    alloc: Global,
    step: u64,
    values: &[(Var, Value)],
) -> Result<Vec<[u8; 16]>, OutOfMemory>
    ensures { IfOk result (λ c. c.items ≡ map (λ w. confounder step w.0) (values_of values.now)) }
{
    let mut all = Vec::new(alloc);
    for value in values {
        all.push(confounder(step, value.0))?;
    }
    Ok(all)
}

// What the type says of a cast.
fn facts_of_cast(cast: &Cast)
    ensures { IsCast cast.now }
{
    let _ = cast.version();
}
