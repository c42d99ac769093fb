//! The summary of a generated run.
ghost use Rattle.std.specs.Prelude.{◌≡◌, ◌++◌, ◌≤◌, length, IfOk, OnOk};
ghost use Rattle.sg_world.specs.Walked.{PremisesHold};
ghost use Rattle.sg_drive.specs.Summary.{IsSummary, count_lines, number_line};
ghost use Rattle.sg_drive.specs.Writing.{HasWalks, IsRest};

use crate::drive::Driven;
use crate::tally::Tally;
use sg_base::{ByteOut, OutOfMemory};
use sg_graph::Graph;
use sg_world::World;
use std::alloc::Global;

/// The summary of a generated run over a graph: how many sessions there were, how many frames were sent, accepted, refused and lost, how
/// many sessions were abandoned and completed, whether the assumptions hold, and if they do how many walks were made.
pub fn summary(alloc: Global, graph: &Graph, driven: &Driven<'_>) -> Result<Vec<u8>, OutOfMemory>
    requires few { length driven.now.world.schedule.steps ≤ 200_000 }
    ensures { IfOk result (λ text. IsSummary (length driven.now.schedule.sessions) driven.now.lost graph.now driven.now.world text.items) }
{
    let tally = Tally::of(alloc, graph, &driven.world)?;
    let mut out = ByteOut::new(alloc);
    put_counts(
        &mut out,
        driven.schedule.sessions.len() as u64,
        u64::from(driven.lost),
        &tally,
    )?;
    put_rest(&mut out, &driven.world)?;
    Ok(out.done())
}

// Writes what stands after the counts: whether the assumptions hold, and if they do how many walks there are.
fn put_rest(out: &mut ByteOut, world: &World<'_>) -> Result<(), OutOfMemory>
    ensures { OnOk result (IsRest world.now out.old out.new) }
{
    if world.put_premises(out)? {
        put_walks(out, world)
    } else {
        Ok(())
    }
}

// Writes how many walks there are, one of each session with an event.
fn put_walks(out: &mut ByteOut, world: &World<'_>) -> Result<(), OutOfMemory>
    requires { PremisesHold world.now }
    ensures { OnOk result (HasWalks world.now out.old out.new) }
{
    let walks = world.walks()?;
    put_number(out, b"walks", walks.as_slice().len() as u64)
}

// Writes the lines of the counts.
fn put_counts(out: &mut ByteOut, sessions: u64, lost: u64, tally: &Tally) -> Result<(), OutOfMemory>
    ensures { OnOk result (out.new ≡ out.old ++ count_lines sessions lost tally.now) }
{
    put_number(out, b"sessions", sessions)?;
    put_number(out, b"sent", tally.sent)?;
    put_number(out, b"received", tally.received)?;
    put_number(out, b"refused", tally.refused)?;
    put_number(out, b"lost", lost)?;
    put_number(out, b"abandoned", tally.abandoned)?;
    put_number(out, b"complete", tally.complete.len() as u64)
}

// Writes a word and a number.
fn put_number(out: &mut ByteOut, word: &[u8], number: u64) -> Result<(), OutOfMemory>
    ensures { OnOk result (out.new ≡ out.old ++ number_line word.now number) }
{
    out.bytes(word)?;
    out.u8(b' ')?;
    out.decimal(number)?;
    out.u8(b'\n')
}
