//! The walk that the sends of all roles make.
ghost use Rattle.std.specs.Prelude.{◌≡◌, map, IfOk};
ghost use Rattle.sg_protocol.specs.Walk.{shown};
ghost use Rattle.sg_walk.specs.Model.{event_of, steps_of, values_of, writes_of};
ghost use Rattle.sg_audit.specs.Sent.{sent_steps};

use sg_base::{OutOfMemory, Seq, Value, Var};
use sg_walk::{Event, StoredStep, StoredWalk};
use std::alloc::Global;

/// The walk whose steps are the sends, with the values that they carry.
pub(crate) fn sent_walk(alloc: Global, events: &[Event]) -> Result<StoredWalk, OutOfMemory>
    ensures { IfOk result (λ w. steps_of w ≡ sent_steps (map event_of events.now)) }
{
    let mut steps = Vec::new(alloc);
    for event in events {
        if let Event::Sent { label, values, .. } = event {
            steps.push(StoredStep {
                label: *label,
                writes: writes_of(alloc, values.as_slice())?,
            })?;
        }
    }
    Ok(StoredWalk {
        steps: Seq::from_vec(steps),
    })
}

// The values, none hidden.
fn writes_of(
    alloc: Global,
    values: &[(Var, Value)],
) -> Result<Seq<(Var, Option<Value>)>, OutOfMemory>
    ensures { IfOk result (λ w. writes_of w ≡ shown (values_of values.now)) }
{
    let mut writes = Vec::new(alloc);
    for value in values {
        writes.push((value.0, Some(value.1.copy(alloc)?)))?;
    }
    Ok(Seq::from_vec(writes))
}
