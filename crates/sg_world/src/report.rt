//! The report of a replay.
ghost use Rattle.std.specs.Prelude.{◌≡◌, ◌≤◌, ◌++◌, IfOk, OnErr, OnOk, filter_map, flat_map, length, slice_get, take};
ghost use Rattle.std.specs.Option.{option_map, option_to_list};
ghost use Rattle.sg_model.specs.Limits.{most_steps};
ghost use Rattle.sg_text.specs.Sessions.{KnownSessions, all_sids, naming};
ghost use Rattle.sg_text.specs.Walks.{HasSteps, walk_line};
ghost use Rattle.sg_model.specs.Lists.{is_in};
ghost use Rattle.sg_report.specs.Model.{forgery_of};
ghost use Rattle.sg_report.specs.Report.{IsReport, lines_from, known_sessions, premise_lines, premises_hold};
ghost use Rattle.sg_world.specs.Account.{account, forgery};
ghost use Rattle.sg_world.specs.Walked.{CanWalkAll, PremisesHold, WalksAreWritten, path_at, path_line, steps_of_trace};

use crate::World;
use crate::lines::put_lines;
use crate::names::session_names;
use sg_base::{ByteOut, Name, OutOfMemory, Sid};
use sg_certify::{Forged, Trace, Traces};
use sg_report::{Forgery, put_premises};
use sg_text::{SessionNames, put_walk};
use std::alloc::Global;

impl<'p> World<'p> {
    /// The report of the steps that were taken so far: a line for each, whether the assumptions hold, and if they do the walk of each
    /// session with an event, the declared sessions first.
    pub fn report(&self) -> Result<Vec<u8>, OutOfMemory>
        ensures { IfOk result (λ text. IsReport (account self.now) text.items) }
    {
        let entries = self.history.entries();
        let names = session_names(self.alloc, &self.setting, entries)?;
        let mut out = ByteOut::new(self.alloc);
        put_lines(&mut out, &names, &self.setting, entries)?;
        self.put_rest(&mut out, &names)?;
        Ok(out.done())
    }

    // Writes what stands after the lines: whether the assumptions hold, and the walks if they do.
    fn put_rest(&self, out: &mut ByteOut, names: &SessionNames) -> Result<(), OutOfMemory>
        ensures { names.now ≡ naming 120 (known_sessions (account self.now))
            → out.old ≡ lines_from (known_sessions (account self.now)) 1 (account self.now).lines → OnOk result (IsReport (account self.now) out.new) }
    {
        if self.put_premises(out)? {
            self.put_walks(out, names)
        } else {
            Ok(())
        }
    }

    /// Appends the two lines that say whether the assumptions hold, and returns whether both do. If memory runs out, what was written still
    /// stands first, with a part of the lines after it or nothing.
    pub fn put_premises(&self, out: &mut ByteOut) -> Result<bool, OutOfMemory>
        ensures hold { IfOk result (λ b. b ≡ premises_hold (account self.now)) }
        ensures text { OnOk result (out.new ≡ out.old ++ premise_lines (account self.now).forged (account self.now).collision_free) }
        ensures prefix { OnErr result (take (length out.old) out.new ≡ out.old) }
    {
        let forged = self.forgery()?;
        let free = self.collision()?.is_none();
        put_premises(out, forged.as_ref(), free)?;
        Ok(forged.is_none() && free)
    }

    // What is reported of the first forged text.
    fn forgery(&self) -> Result<Option<Forgery>, OutOfMemory>
        ensures { IfOk result (λ o. option_map forgery_of o ≡ (account self.now).forged) }
    {
        match self.forged() {
            Ok(Some(forged)) => Ok(Some(reported(&forged))),
            Ok(None) => Ok(None),
            Err(fault) => Err(fault),
        }
    }

    // Writes the walk of each session with an event.
    fn put_walks(&self, out: &mut ByteOut, names: &SessionNames) -> Result<(), OutOfMemory>
        requires { PremisesHold self.now }
        ensures { names.now ≡ naming 120 (known_sessions (account self.now)) → OnOk result (WalksAreWritten self.now out.old out.new) }
    {
        let traces = self.traces()?;
        put_walks(self.alloc, out, names, &traces)
    }
}

// What is reported of a forged text.
fn reported(forged: &Forged<'_>) -> Forgery
    requires { forged.now.step ≤ most_steps }
    ensures { forgery_of result ≡ forgery (forged.now.step, forged.now.note.now) }
{
    Forgery {
        step: forged.step as u32,
        one: *forged.note.one(),
        two: *forged.note.two(),
    }
}

// Writes the walks of the sessions that have a trace, in the order of the names.
fn put_walks<'r>(
    alloc: Global,
    out: &mut ByteOut,
    names: &SessionNames,
    traces: &Traces<'r>,
) -> Result<(), OutOfMemory>
    requires { CanWalkAll traces.now }
    ensures { (m : KnownSessions) → names.now ≡ naming 120 m
        → OnOk result (out.new ≡ out.old ++ flat_map (path_line m) (filter_map (path_at traces.now) (all_sids m))) }
{
    for index in 0..names.len() {
        put_walk_at(alloc, out, names, traces, index)?;
    }
    Ok(())
}

// Writes the walk of the session at an index, if it has a trace.
fn put_walk_at<'r>(
    alloc: Global,
    out: &mut ByteOut,
    names: &SessionNames,
    traces: &Traces<'r>,
    index: usize,
) -> Result<(), OutOfMemory>
    requires { CanWalkAll traces.now }
    ensures { (m : KnownSessions) → names.now ≡ naming 120 m
        → OnOk result (out.new ≡ out.old ++ flat_map (path_line m) (filter_map (path_at traces.now) (option_to_list (slice_get (all_sids m) index)))) }
{
    match names.at(index) {
        Some((sid, name)) => put_walk_of(alloc, out, traces, &sid, &name),
        None => Ok(()),
    }
}

// Writes the walk of a session of this name, if it has a trace.
fn put_walk_of<'r>(
    alloc: Global,
    out: &mut ByteOut,
    traces: &Traces<'r>,
    sid: &Sid,
    name: &Name,
) -> Result<(), OutOfMemory>
    requires { CanWalkAll traces.now }
    ensures { OnOk result (out.new ≡ out.old ++ flat_map (λ p. walk_line name.now p.graph (λ role. is_in role p.honest) p.steps)
        (option_to_list (path_at traces.now sid.now))) }
{
    match traces.get(sid) {
        Some(trace) => put_trace(alloc, out, trace, name),
        None => Ok(()),
    }
}

// Writes the walk of a trace in a session of this name.
fn put_trace<'r>(
    alloc: Global,
    out: &mut ByteOut,
    trace: &Trace<'r>,
    name: &Name,
) -> Result<(), OutOfMemory>
    requires { HasSteps trace.now.graph (steps_of_trace trace.now) }
    ensures { OnOk result (out.new ≡ out.old ++ walk_line name.now trace.now.graph (λ role. is_in role trace.now.honest) (steps_of_trace trace.now)) }
{
    let walk = trace.walk(alloc)?;
    put_walk(out, name.as_bytes(), trace.graph(), trace.honest(), &walk)
}
