//! The traces of a replay's sessions, by its record.
ghost use Rattle.std.specs.Prelude.{OnOk};
ghost use Rattle.sg_world.specs.EntriesOfRun.{FitsEntry, IsEntryAdded};

use crate::record::TakenStep;
use sg_base::OutOfMemory;
use sg_certify::Traces;
use sg_report::Outcome;
use std::alloc::Global;

/// Goes on by an entry of the record.
pub(crate) fn add_entry<'r, 'p>(
    alloc: Global,
    traces: &mut Traces<'r>,
    entry: &'r TakenStep<'p>,
) -> Result<(), OutOfMemory>
    requires { FitsEntry entry.now traces.old }
    ensures { OnOk result (IsEntryAdded entry.now traces.old traces.new) }
{
    let honest = entry.honest;
    match &entry.outcome {
        Outcome::Started(begun) => traces.add(alloc, begun.graph, honest, &begun.event, &[]),
        Outcome::Sent { sent, .. } => traces.add(alloc, sent.graph, honest, &sent.event, &[]),
        Outcome::Received(receipt) => traces.add(
            alloc,
            receipt.graph(),
            honest,
            receipt.event(),
            receipt.walk(),
        ),
        _ => Ok(()),
    }
}
