//! The traces of all sessions.
ghost use Rattle.std.specs.Prelude.{◌≡◌, ◌<◌, ◌++◌, ◌∷◌, ℕ, List, [], All, false, IfOk, MatchOption, OnErr, OnOk, Some, length, map, option_map, slice_get};
ghost use Rattle.std.specs.Option.{option_copied};
ghost use Rattle.sg_model.specs.Lists.{has_text};
ghost use Rattle.sg_protocol.specs.Calls.{sid_of};
ghost use Rattle.sg_protocol.specs.Keyring.{Program};
ghost use Rattle.sg_protocol.specs.Run.{events_of, run};
ghost use Rattle.sg_protocol.specs.Schedule.{Schedule};
ghost use Rattle.sg_protocol.specs.Texts.{real};
ghost use Rattle.sg_walk.specs.Model.{event_of, steps_of};
ghost use Rattle.sg_certify.specs.Adding.{GoesAt, IsAdded, begun};
ghost use Rattle.sg_certify.specs.Traces.{Trace as Kept};
ghost use Rattle.sg_certify.specs.Runs.{AreTraces, IsExplainedBy, IsUnbroken, trace_at};

use crate::trace::Trace;
use indexmap::IndexMap;
use sg_base::{Label, OutOfMemory, RoleSet, Sid};
use sg_graph::Graph;
use sg_walk::{Event, StoredWalk, sid_of};
use std::alloc::Global;
use std::marker::Model;

/// The traces of the sessions that were met, in the order of their first events. A clause sees each trace under its sid.
#[derive(Drop)]
pub struct Traces<'r> {
    table: IndexMap<Sid, Trace<'r>>,
}

impl<'r> Model for Traces<'r> {
    ghost use Rattle.sg_certify.specs.Traces.{Traces};

    ghost Value = { Traces };

    ghost use Rattle.sg_certify.specs.Model.{traces_of};

    ghost view = { traces_of };
}

impl<'r> Traces<'r> {
    /// Traces of no sessions. It takes no memory.
    pub fn new(alloc: Global) -> Traces<'r>
        ensures { (programs : List Program) (s : Schedule) → AreTraces programs s [] result }
    {
        Traces {
            table: IndexMap::new(alloc),
        }
    }

    /// Goes on by an event, in a session of this graph with these honest roles, beside a walk along the graph's edges that shows the role
    /// what it received; a walk beside what is no receipt isn't looked at. A session's events have one graph. If memory runs out, the traces are
    /// as before.
    pub fn add(
        &mut self,
        alloc: Global,
        graph: &'r Graph,
        honest: RoleSet,
        event: &'r Event,
        walk: &'r [Label],
    ) -> Result<(), OutOfMemory>
        requires graph { (i : ℕ) (c : Kept) → slice_get self.old i ≡ Some (sid_of (event_of event.now), c) → c.graph ≡ graph.now }
        requires edges { All (λ e. e < length graph.now.edges) walk.now }
        ensures added { OnOk result (IsAdded graph.now honest (event_of event.now) walk.now self.old self.new) }
        ensures err { OnErr result (self.new ≡ self.old) }
    {
        match index_of(&self.table, &sid_of(event)) {
            Some(index) => add_at(&mut self.table, index, event, walk),
            None => begin(alloc, &mut self.table, graph, honest, event, walk),
        }
    }

    /// How many sessions were met. It takes no memory.
    pub fn len(&self) -> usize
        ensures { result ≡ length self.now }
    {
        self.table.len()
    }

    /// The sid and the trace of the session at an index, in the order of first events. It takes no memory.
    pub fn at(&self, index: usize) -> Option<(Sid, &Trace<'r>)>
        ensures { option_map (λ e. (e.0, e.1.now)) result ≡ slice_get self.now index }
    {
        match self.table.get_index(index) {
            Some((sid, trace)) => Some((*sid, trace)),
            None => None,
        }
    }

    /// The trace of a session. It takes no memory.
    pub fn get(&self, sid: &Sid) -> Option<&Trace<'r>>
        ensures { option_copied result ≡ trace_at self.now sid.now }
    {
        self.table.get(sid)
    }

    /// The walk of a session, or `None` if no event has the sid.
    pub fn walk(&self, alloc: Global, sid: &Sid) -> Result<Option<StoredWalk>, OutOfMemory>
        ensures { (programs : List Program) (s : Schedule) → IsUnbroken programs s → let log = (run real programs s).log in AreTraces programs s log self.now
            → IfOk result (λ found. MatchOption found (events_of sid.now log ≡ []) (λ w. IsExplainedBy programs s sid.now (steps_of w))) }
    {
        match self.get(sid) {
            Some(trace) => Ok(Some(trace.walk(alloc)?)),
            None => Ok(None),
        }
    }
}

// The index of a session's trace.
fn index_of<'r>(table: &IndexMap<Sid, Trace<'r>>, sid: &Sid) -> Option<usize>
    ensures { MatchOption result
        (has_text sid.now (map (λ e. e.0) table.now.entries) ≡ false)
        (λ i. (i < length table.now.entries) × (c : Kept) × (slice_get table.now.entries i ≡ Some (sid.now, c))) }
{
    table.get_index_of(sid)
}

// The trace at an index goes on by an event, beside a walk along its graph's edges.
fn add_at<'r>(
    table: &mut IndexMap<Sid, Trace<'r>>,
    index: usize,
    event: &'r Event,
    walk: &'r [Label],
) -> Result<(), OutOfMemory>
    requires within { index < length table.old.entries }
    requires there { (c : Kept) × (slice_get table.old.entries index ≡ Some (sid_of (event_of event.now), c)) × All (λ e. e < length c.graph.edges) walk.now }
    ensures ok { OnOk result (GoesAt (event_of event.now) walk.now table.old.entries table.new.entries index) }
    ensures err { OnErr result (table.new.entries ≡ table.old.entries) }
{
    table[index].add(event, walk)
}

// Begins the trace of a session that has none, with an event beside a walk. If memory runs out, the table is as before.
fn begin<'r>(
    alloc: Global,
    table: &mut IndexMap<Sid, Trace<'r>>,
    graph: &'r Graph,
    honest: RoleSet,
    event: &'r Event,
    walk: &'r [Label],
) -> Result<(), OutOfMemory>
    requires absent { has_text (sid_of (event_of event.now)) (map (λ e. e.0) table.old.entries) ≡ false }
    requires edges { All (λ e. e < length graph.now.edges) walk.now }
    ensures ok { OnOk result (table.new.entries ≡ table.old.entries ++ (sid_of (event_of event.now), begun graph.now honest (event_of event.now) walk.now) ∷ []) }
    ensures err { OnErr result (table.new.entries ≡ table.old.entries) }
{
    let mut trace = Trace::new(alloc, graph, honest);
    trace.add(event, walk)?;
    put_last(table, sid_of(event), trace)
}

// Puts the trace of a session that has none after the others.
fn put_last<'r>(
    table: &mut IndexMap<Sid, Trace<'r>>,
    sid: Sid,
    trace: Trace<'r>,
) -> Result<(), OutOfMemory>
    requires { has_text sid (map (λ e. e.0) table.old.entries) ≡ false }
    ensures ok { OnOk result (table.new.entries ≡ table.old.entries ++ (sid, trace.entry) ∷ []) }
    ensures err { OnErr result (table.new.entries ≡ table.old.entries) }
{
    table.insert(sid, trace)?;
    Ok(())
}
