//! Copies of events.
ghost use Rattle.std.specs.Prelude.{◌≡◌, IfOk};

use sg_base::{OutOfMemory, Seq, Value, Var};
use sg_walk::Event;
use std::alloc::Global;

/// An equal event.
pub(crate) fn copy_event(alloc: Global, event: &Event) -> Result<Event, OutOfMemory>
    ensures { IfOk result (λ e. e ≡ event.now) }
{
    match event {
        Event::Started { sid, role } => Ok(Event::Started {
            sid: *sid,
            role: *role,
        }),
        Event::Sent {
            sid,
            role,
            label,
            time,
            values,
        } => Ok(Event::Sent {
            sid: *sid,
            role: *role,
            label: *label,
            time: *time,
            values: copy_values(alloc, values)?,
        }),
        Event::Received {
            sid,
            role,
            label,
            time,
            values,
            joins,
        } => Ok(Event::Received {
            sid: *sid,
            role: *role,
            label: *label,
            time: *time,
            values: copy_values(alloc, values)?,
            joins: *joins,
        }),
    }
}

fn copy_values(alloc: Global, values: &Seq<(Var, Value)>) -> Result<Seq<(Var, Value)>, OutOfMemory>
    ensures { IfOk result (λ v. v ≡ values.now) }
{
    let mut copies = Vec::new(alloc);
    for value in values.as_slice() {
        copies.push((value.0, value.1.copy(alloc)?))?;
    }
    Ok(Seq::from_vec(copies))
}
