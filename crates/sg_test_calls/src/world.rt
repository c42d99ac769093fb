//! Replays of a session of `pair`: whether its assumptions hold, and its walk.
ghost use Rattle.std.specs.Prelude.{IfOk};
ghost use Rattle.sg_protocol.specs.IsSchedule.{AreCompiled};
ghost use Rattle.sg_protocol.specs.Texts.{real};
ghost use Rattle.sg_sched_text.specs.Meant.{IsMeant};

use sg_base::{ByteOut, OutOfMemory, Sid};
use sg_compile::compile_all;
use sg_program::Programs;
use sg_sched::Schedule;
use sg_sched_text::read_schedule;
use sg_table::{Calls, fixed, hold};
use sg_walk::StoredWalk;
use sg_world::{ForgedFault, WalkFault, World};
use std::alloc::Global;
use std::fmt::Debug;

struct Replays;

impl Calls for Replays {
    fn answer(&self, alloc: Global, call: &str, args: &[Vec<u8>]) -> Option<Vec<u8>> {
        let (text, asked) = args.split_first()?;
        let Ok(schedule) = schedule(alloc, text) else {
            return None;
        };
        let Ok(programs) = programs(alloc, &schedule) else {
            return None;
        };
        let Ok(world) = replayed(alloc, &programs, &schedule) else {
            return None;
        };
        of_world(alloc, &world, call, asked)
    }
}

// A line asks for no replay, or memory ran out.
#[derive(Drop)]
struct NoReplay;

impl<E: Debug + Drop> From<E> for NoReplay {
    fn from(fault: E) -> NoReplay {
        let _ = fault;
        NoReplay
    }
}

// The schedule of a text.
fn schedule(alloc: Global, text: &[u8]) -> Result<Schedule, NoReplay>
    ensures { IfOk result IsMeant }
{
    if text.len() > 1_000 {
        return Err(NoReplay);
    }
    Ok(read_schedule(alloc, text)?)
}

// The programs of its graph.
fn programs(alloc: Global, schedule: &Schedule) -> Result<Programs, NoReplay>
    requires { IsMeant schedule.now }
    ensures { IfOk result (AreCompiled real schedule.now.graphs) }
{
    let graphs = schedule.graphs.as_slice();
    if graphs.len() != 1 {
        return Err(NoReplay);
    }
    Ok(compile_all(alloc, graphs)?)
}

// The replay of its steps.
fn replayed<'p>(
    alloc: Global,
    programs: &'p Programs,
    schedule: &Schedule,
) -> Result<World<'p>, NoReplay>
    requires meant { IsMeant schedule.now }
    requires compiled { AreCompiled real schedule.now.graphs programs.now }
{
    let mut world = World::new(alloc, programs, schedule)?;
    'steps: for next in schedule.steps.as_slice() {
        world.step(next)?;
    }
    Ok(world)
}

fn of_world(alloc: Global, world: &World<'_>, call: &str, asked: &[Vec<u8>]) -> Option<Vec<u8>> {
    let mut out = ByteOut::new(alloc);
    match asked {
        [sid] => put_walk(&mut out, world.walk_of(Sid(fixed(sid)?))).ok()?,
        [] if call == "unforged" => put_forged(&mut out, &world.unforged()).ok()?,
        [] => match world.collision_free() {
            Ok(()) => out.bytes(b"holds").ok()?,
            Err(fault) => write!(out, "{fault}").ok()?,
        },
        _ => return None,
    }
    Some(out.done())
}

// Puts the labels of a walk.
fn put_walk(out: &mut ByteOut, walk: Result<StoredWalk, WalkFault>) -> Result<(), OutOfMemory> {
    match walk {
        Ok(walk) => {
            for step in walk.steps.as_slice() {
                out.u16(step.label.0)?;
            }
            Ok(())
        }
        Err(fault) => write!(out, "{fault}"),
    }
}

// Puts the step of the first forged tag, its principals, and the text under it.
fn put_forged(out: &mut ByteOut, forged: &Result<(), ForgedFault>) -> Result<(), OutOfMemory> {
    match forged {
        Ok(()) => out.bytes(b"holds"),
        Err(
            ForgedFault::Forged {
                step,
                one,
                two,
                text,
            },
        ) => {
            write!(out, "{step},{one},{two},")?;
            out.bytes(text.as_slice())
        }
        Err(ForgedFault::OutOfMemory) => out.bytes(b"out of memory"),
    }
}

#[test]
fn a_session_that_is_walked_and_a_forged_tag(rt: HostRuntime) -> Result<(), &'static str> {
    hold(rt.alloc(), &Replays, &[LINES])
}

const LINES: &str = "
# The session of `pair` with the nonce 1, in which a requests and b replies; their key has the bytes 11.

let HEAD 'edge_Request_0_1^edge_Reply_1_2^honest_a^honest_b^key_a_b_1111111111111111111111111111111111111111111111111111111111111111^
let HEAD $HEAD+'session_s1_pair_1_a,b^
let SID 0e7bc807d33403b829056fbe288db09e59726d48de330d84201c8c7768214aa9

let STEPS $HEAD+'start_a_s1^act_a_s1_Request^deliver_b_f1^act_b_s1_Reply^deliver_a_f2^
unforged $STEPS 'holds
collision_free $STEPS 'holds
walk $STEPS $SID 0000+0001
walk $STEPS 32*00 'no_such_session

# The text of a forged tag is that of the frame, which is the first of the session but for its tag.

let DIGEST a50909945ba18a502fe69beb2e25ce8bc1b8184e659e396a87bab2bb9467999c
let BODY 'SGF1+00+$SID+00+01+$DIGEST+15*00+01+02+01+'a+01+'b+0001+00+0000+00000001+00+00+00
let STEPS $HEAD+'craft_s1_from_a_to_b_join_item_Request_1_seal_key_a_b^deliver_b_f1^
unforged $STEPS '2,a,b,sg-frame-1+$BODY
collision_free $STEPS 'holds
walk $STEPS $SID 'a_premise_is_broken
";
