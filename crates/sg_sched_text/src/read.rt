//! Reading a schedule.
ghost use Rattle.std.specs.Prelude.{◌≡◌, ◌≢◌, ◌<◌, ◌^◌, length, IfOk, IfErr, Err, IsFalse, MatchResult};
ghost use Rattle.sg_protocol.specs.Schedule.{Schedule};
ghost use Rattle.sg_protocol.specs.Texts.{real};
ghost use Rattle.sg_sched.specs.Format.Spells.{SpellsSchedule};
ghost use Rattle.sg_sched.specs.Text.{lines};
ghost use Rattle.sg_sched_text.specs.Early.{begins_late};
ghost use Rattle.sg_sched_text.specs.Plus.{nothing};
ghost use Rattle.sg_sched_text.specs.Meant.{IsMeant};
ghost use Rattle.sg_sched_text.specs.ReadSoFar.{IsFault};

use crate::reader::ScheduleReader;
use sg_sched::{LineFault, Schedule};
use std::alloc::Global;

/// Reads a schedule, in one pass. It gives the schedule that the bytes spell, or the first wrong line from the top and what is wrong
/// with it, the first kind in the format's order; unless memory runs out. There are fewer than 4,294,967,296 bytes. It takes no memory
/// before the first line that is neither blank nor a comment, nor for that line if its first words refuse it.
pub fn read_schedule(alloc: Global, bytes: &[u8]) -> Result<Schedule, LineFault>
    requires { length bytes.now < 2 ^ 32 }
    // What is read is spelled so.
    ensures found { IfOk result (SpellsSchedule real bytes.now) }
    // It is a schedule as the protocol has them, and each of its steps can be taken.
    ensures meant { IfOk result IsMeant }
    // What is spelled so is read, unless memory runs out.
    ensures only { (s : Schedule) → SpellsSchedule real bytes.now s → MatchResult result (λ t. t ≡ s) (λ e. e ≡ LineFault.OutOfMemory) }
    // The fault is that of the first wrong line.
    ensures wrong { IfErr result (IsFault bytes.now) }
    // Memory never runs out if the first line that is neither blank nor a comment is refused before it takes memory.
    ensures early { IsFalse (begins_late nothing (lines bytes.now)) → result ≢ Err LineFault.OutOfMemory }
{
    let mut reader = ScheduleReader::new(alloc);
    let mut rest = bytes;
    'lines: while !rest.is_empty() {
        match reader.next(rest) {
            Ok(after) => rest = after,
            Err(fault) => {
                drop(reader);
                return Err(fault);
            }
        }
    }
    let ScheduleReader {
        past,
        number: _,
        first_edge: _,
    } = reader;
    match past.schedule() {
        Ok(schedule) => Ok(schedule),
        Err(_) => Err(LineFault::OutOfMemory),
    }
}
