//! The walk that explains a session.
ghost use Rattle.std.specs.Prelude.{◌≡◌, ◌≢◌, ◌++◌, [], bytes_eq, filter_map, map, slice_get, IfErr, IfOk, IsOk, MatchBool, OnOk};
ghost use Rattle.std.specs.Option.{option_to_list};
ghost use Rattle.sg_certify.specs.Runs.{AreTraces, IsUnbroken};
ghost use Rattle.sg_model.specs.Lists.{has_text};
ghost use Rattle.sg_protocol.specs.Run.{events_of};
ghost use Rattle.sg_protocol.specs.Walk.{OnePath};
ghost use Rattle.sg_walk.specs.Model.{steps_of};
ghost use Rattle.sg_world.specs.Account.{graph_of, honest_in};
ghost use Rattle.sg_world.specs.KeptLines.{sid_kept};
ghost use Rattle.sg_setting.specs.Replay.{run_of};
ghost use Rattle.sg_world.specs.Walked.{IsWalkFault, PremisesHold, WalksAreMade, sid_and_steps, sid_and_walk};

use crate::World;
use crate::record::TakenStep;
use crate::walks::add_entry;
use sg_base::{OutOfMemory, Sid};
use sg_certify::Traces;
use sg_report::sid_reported;
use sg_walk::StoredWalk;
use std::alloc::Global;
use thiserror::Error;

/// Why there is no walk of a session, the first cause that holds.
#[derive(Debug, Clone, Copy, PartialEq, Eq, Error)]
pub enum WalkFault {
    /// No event has the identifier.
    #[error("no such session")]
    NoSuchSession,
    /// A tag of two honest principals was forged, or two texts have one digest.
    #[error("a premise is broken")]
    PremiseBroken,
    /// Out of memory.
    #[error("out of memory")]
    OutOfMemory,
}

impl<'p> World<'p> {
    /// The walk that explains what the honest principals did in a session so far: one path of the graph of its cast, with the values
    /// that they wrote and received; or the first cause for which there is none.
    pub fn walk_of(&self, sid: Sid) -> Result<StoredWalk, WalkFault>
        ensures walk { IfOk result (λ walk. OnePath (graph_of self.now sid) (honest_in self.now sid) (events_of sid (run_of self.now).log) (steps_of walk)) }
        ensures right { OnOk result ((events_of sid (run_of self.now).log ≢ []) × PremisesHold self.now) }
        ensures refused { IfErr result (IsWalkFault self.now sid) }
    {
        if !self.has_event(&sid) {
            return Err(WalkFault::NoSuchSession);
        }
        let Ok(unbroken) = self.is_unbroken() else {
            return Err(WalkFault::OutOfMemory);
        };
        if !unbroken {
            return Err(WalkFault::PremiseBroken);
        }
        match self.walk_explaining(&sid) {
            Ok(walk) => Ok(walk),
            Err(_) => Err(WalkFault::OutOfMemory),
        }
    }

    /// The walk of each session with an event, beside its identifier, in the order of first events. Each explains what the honest principals
    /// did in its session, as that of `walk_of`. They hold a copy of each value that was sent. Before the first step it takes no memory.
    pub fn walks(&self) -> Result<Vec<(Sid, StoredWalk)>, OutOfMemory>
        requires { PremisesHold self.now }
        ensures made { IfOk result (λ walks. WalksAreMade self.now (map sid_and_steps walks.items)) }
        ensures before_steps { self.now.schedule.steps ≡ [] → IsOk result }
    {
        if self.has_no_steps() {
            return Ok(Vec::new(self.alloc));
        }
        let traces = self.traces()?;
        make_walks(self.alloc, &traces)
    }

    // The trace of each session with an event.
    pub(crate) fn traces(&self) -> Result<Traces<'_>, OutOfMemory>
        requires { PremisesHold self.now }
        ensures unbroken { IsUnbroken self.now.programs self.now.schedule }
        ensures traces { IfOk result (AreTraces self.now.programs self.now.schedule (run_of self.now).log) }
    {
        let entries = self.history.entries();
        let mut traces = Traces::new(self.alloc);
        for entry in entries {
            add_entry(self.alloc, &mut traces, entry)?;
        }
        Ok(traces)
    }

    // An event has the identifier.
    fn has_event(&self, sid: &Sid) -> bool
        ensures { MatchBool result (events_of sid.now (run_of self.now).log ≢ []) (events_of sid.now (run_of self.now).log ≡ []) }
    {
        had_event(self.history.entries(), sid)
    }

    // Both assumptions hold.
    fn is_unbroken(&self) -> Result<bool, OutOfMemory>
        ensures { IfOk result (λ b. MatchBool b (PremisesHold self.now) (PremisesHold self.now → ⊥)) }
    {
        if self.forged()?.is_some() {
            return Ok(false);
        }
        Ok(self.collision()?.is_none())
    }

    // The walk that is made for a session with an event.
    fn walk_explaining(&self, sid: &Sid) -> Result<StoredWalk, OutOfMemory>
        requires unbroken { PremisesHold self.now }
        requires event { events_of sid.now (run_of self.now).log ≢ [] }
        ensures { IfOk result (λ walk. OnePath (graph_of self.now sid.now) (honest_in self.now sid.now) (events_of sid.now (run_of self.now).log)
            (steps_of walk)) }
    {
        let traces = self.traces()?;
        match traces.walk(self.alloc, sid)? {
            Some(walk) => Ok(walk),
            None => unreachable!(),
        }
    }
}

// The walk of each trace, beside its session's identifier.
fn make_walks<'r>(alloc: Global, traces: &Traces<'r>) -> Result<Vec<(Sid, StoredWalk)>, OutOfMemory>
    ensures { IfOk result (λ walks. map sid_and_steps walks.items ≡ map sid_and_walk traces.now) }
{
    let mut walks = Vec::with_capacity(alloc, traces.len())?;
    for index in 0..traces.len() {
        add_walk(alloc, &mut walks, traces, index)?;
    }
    Ok(walks)
}

// Adds the walk of the trace at an index, if there is one.
fn add_walk<'r>(
    alloc: Global,
    walks: &mut Vec<(Sid, StoredWalk)>,
    traces: &Traces<'r>,
    index: usize,
) -> Result<(), OutOfMemory>
    ensures { OnOk result (map sid_and_steps walks.new.items
        ≡ map sid_and_steps walks.old.items ++ map sid_and_walk (option_to_list (slice_get traces.now index))) }
{
    match traces.at(index) {
        Some(entry) => {
            let walk = entry.1.walk(alloc)?;
            walks.push((entry.0, walk))?;
            Ok(())
        }
        None => Ok(()),
    }
}

// An event of these steps has the identifier.
fn had_event<'p>(entries: &[TakenStep<'p>], sid: &Sid) -> bool
    ensures { result ≡ has_text sid.now (filter_map sid_kept entries.now) }
{
    for entry in entries {
        if is_of(entry, sid) {
            return true;
        }
    }
    false
}

// The event of a step has the identifier.
fn is_of<'p>(entry: &TakenStep<'p>, sid: &Sid) -> bool
    ensures { result ≡ has_text sid.now (option_to_list (sid_kept entry.now)) }
{
    match sid_reported(&entry.outcome) {
        Some(reported) => same(sid, &reported),
        None => false,
    }
}

fn same(one: &Sid, other: &Sid) -> bool
    ensures { result ≡ bytes_eq one.now other.now }
{
    one.0.as_slice() == other.0.as_slice()
}
