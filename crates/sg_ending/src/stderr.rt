//! What is said on standard error at the end.
ghost use Rattle.sg_ending.specs.Model.{ending_held};
ghost use Rattle.sg_ending.specs.Says.{Puts, Says};

use crate::ending::Ending;
use sg_base::{Sink, write_all};
use std::alloc::Global;

/// Says on standard error how the work ended, and gives the status.
pub fn say<E: Sink>(alloc: Global, work: &Ending<'_>, err: &mut E) -> u8
    ensures { Says (ending_held work.now) (record { bytes = E.written err.old; faults = E.faults err.old }) (record { bytes = E.written err.new; faults = E.faults err.new }) result }
{
    match work.line(alloc) {
        Ok(line) => put(err, line.as_slice(), work.status()),
        Err(_) => put(err, b"out of memory\n", 8),
    }
}

/// Writes a line and gives the status, or that of a failed write.
pub fn put<E: Sink>(err: &mut E, line: &[u8], status: u8) -> u8
    ensures { Puts (record { bytes = E.written err.old; faults = E.faults err.old }) (record { bytes = E.written err.new; faults = E.faults err.new }) line.now status result }
{
    match write_all(err, line) {
        Ok(()) => status,
        Err(_) => 6,
    }
}
