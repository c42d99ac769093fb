//! How the program ends if it can't begin: the system gives no standard descriptors, no arguments, no memory for them, or no random seed.
ghost use Rattle.std.specs.Prelude.{◌≡◌, codes};
ghost use Rattle.sg_ending.specs.Ending.{NoCommand, NoMemory, WriteFailed, line_of, status_of};
ghost use Rattle.sg_ending.specs.Says.{Puts, Says};

use crate::ending::Ending;
use crate::stderr::{put, say};
use sg_base::Sink;
use std::alloc::Global;

/// Gives the status of a failed write, and says nothing: a standard descriptor is free and stays free, so nothing is to be opened.
pub fn end_without_descriptors() -> u8
    ensures { result ≡ status_of WriteFailed }
{
    6
}

/// Says that the arguments are in no command, for example if one is no UTF-8, and gives the status.
pub fn end_without_args<E: Sink>(alloc: Global, err: &mut E) -> u8
    ensures { Says NoCommand (record { bytes = E.written err.old; faults = E.faults err.old }) (record { bytes = E.written err.new; faults = E.faults err.new }) result }
{
    say(alloc, &Ending::NoCommand, err)
}

/// Says that memory ran out before the arguments were known, and gives the status.
pub fn end_without_memory<E: Sink>(err: &mut E) -> u8
    ensures { Puts (record { bytes = E.written err.old; faults = E.faults err.old }) (record { bytes = E.written err.new; faults = E.faults err.new }) (line_of NoMemory) (status_of NoMemory) result }
{
    put(err, b"out of memory\n", 8)
}

/// Says that the system gave no seed for random bytes, and gives the status.
pub fn end_without_seed<E: Sink>(err: &mut E) -> u8
    ensures { Puts (record { bytes = E.written err.old; faults = E.faults err.old }) (record { bytes = E.written err.new; faults = E.faults err.new }) (codes "no random seed\n") 12 result }
{
    put(err, b"no random seed\n", 12)
}
