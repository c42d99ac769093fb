//! What the lines so far have said, and how one more line is taken.
ghost use Rattle.std.specs.Prelude.{◌≡◌, ◌<◌, ◌&&◌, ℕ, Bool, [], None, Ok, Err, map, option_map, is_some, is_none, OnOk, IfOk, IfSome, MatchOption, MatchResult};
ghost use Rattle.std.specs.List.{list_all};
ghost use Rattle.sg_audit.specs.SoFar.{nothing, all_logs, all_sessions, all_have_logs, is_whole, is_open, add, add_session, add_log, add_event, add_walk, with_event, with_walk};
ghost use Rattle.sg_audit.specs.Sessions.{event, stored_step};
ghost use Rattle.sg_audit.specs.TakingLines.{Fits, Takes, statement, session_of, assigned_values, step_in_line};
ghost use Rattle.sg_model.specs.Limits.{most_events};
ghost use Rattle.sg_model.specs.Lists.{is_in, below};
ghost use Rattle.sg_walk.specs.Model.{event_of, step_of, steps_of};

use crate::assignments::Assignments;
use crate::fault::{Mistake, Stop};
use crate::line::LogLine;
use crate::order::{some_fall, some_not_rise, some_unknown, values_fall, values_rise};
use crate::session::SessionLog;
use crate::step::LogStep;
use sg_base::{Label, Name, OutOfMemory, Role, RoleSet, Seq, Sid, Time, Value};
use sg_graph::Graph;
use sg_parse::NameSet;
use sg_walk::{Event, StoredStep, StoredWalk};
use std::alloc::Global;
use std::marker::Model;
use std::mem;

// The greatest number of events.
const MOST_EVENTS: u32 = 100_000;

/// What the lines so far have said.
#[derive(Drop)]
pub(crate) struct LogsReader {
    alloc: Global,
    names: NameSet,
    count: u32,
    done: Seq<SessionLog>,
    name: Option<Name>,
    logs: Seq<(Role, Seq<Event>)>,
    roles: RoleSet,
    role: Option<Role>,
    events: Seq<Event>,
    walk: Option<StoredWalk>,
}

impl Model for LogsReader {
    ghost use Rattle.std.specs.Prelude.{map, option_map};
    ghost use Rattle.sg_audit.specs.SoFar.{SoFar};
    ghost use Rattle.sg_audit.specs.Model.{log_of};
    ghost use Rattle.sg_audit.specs.TakingLines.{session_of};
    ghost use Rattle.sg_walk.specs.Model.{event_of, steps_of};

    ghost Value = { SoFar };

    ghost view = { λ r. record {
      names = r.names;
      count = r.count;
      done = map session_of r.done;
      name = r.name;
      logs = map log_of r.logs;
      roles = r.roles;
      role = r.role;
      events = map event_of r.events;
      walk = option_map steps_of r.walk;
    } };
}

impl LogsReader {
    /// Before the first session. It takes no memory.
    pub fn new(alloc: Global) -> LogsReader
        ensures { result ≡ nothing }
    {
        LogsReader {
            alloc,
            names: NameSet::new(alloc),
            count: 0,
            done: Seq::new(alloc),
            name: None,
            logs: Seq::new(alloc),
            roles: RoleSet::empty(),
            role: None,
            events: Seq::new(alloc),
            walk: None,
        }
    }

    /// Takes what a line says.
    #[tactic(auto, unfolding(crate::specs::SoFar::add))]
    pub fn add(&mut self, graph: &Graph, line: LogLine) -> Result<(), Stop>
        requires { Fits line }
        ensures { Takes (add graph.now self.old (statement line)) self.new result }
    {
        match line {
            LogLine::Session(name) => self.add_session(graph, name),
            LogLine::Log(role) => self.add_log(role),
            LogLine::Event {
                sent,
                label,
                time,
                values,
            } => self.add_event(sent, label, time, values),
            LogLine::Walk(steps) => self.add_walk(graph, steps),
        }
    }

    /// Whether the text may end here, or a session begin.
    pub fn is_whole(&self, graph: &Graph) -> bool
        ensures { result ≡ is_whole graph.now self.now }
    {
        self.name.is_none() || self.walk.is_some() || self.all_have_logs(graph)
    }

    // Whether a session is open whose walk isn't given.
    fn is_open(&self) -> bool
        ensures { result ≡ is_open self.now }
    {
        self.name.is_some() && self.walk.is_none()
    }

    fn all_have_logs(&self, graph: &Graph) -> bool
        ensures { result ≡ all_have_logs graph.now self.now }
    {
        have_all(self.roles, graph.roles())
    }

    #[tactic(auto, unfolding(crate::specs::SoFar::add_session))]
    fn add_session(&mut self, graph: &Graph, name: Name) -> Result<(), Stop>
        ensures { Takes (add_session graph.now self.old name) self.new result }
    {
        if !self.is_whole(graph) {
            return Err(Stop::Wrong(Mistake::Form));
        }
        if self.names.has(&name) {
            return Err(Stop::Wrong(Mistake::Twice));
        }
        if self.close_session().is_err() || self.names.add(name).is_err() {
            return Err(Stop::OutOfMemory);
        }
        self.name = Some(name);
        Ok(())
    }

    /// Puts the last session, if there is one, after those before it.
    pub fn close_session(&mut self) -> Result<(), OutOfMemory>
        ensures { OnOk result (self.new ≡ record { names = self.old.names; count = self.old.count; done = all_sessions self.old; name = None; logs = []; roles = []; role = None; events = []; walk = None }) }
    {
        self.close_log()?;
        let logs = mem::replace(&mut self.logs, Seq::new(self.alloc));
        let walk = mem::replace(&mut self.walk, None);
        self.roles = RoleSet::empty();
        if let Some(name) = self.name {
            self.done.push(SessionLog { name, logs, walk })?;
        }
        self.name = None;
        Ok(())
    }

    // Puts the last log of the session, if there is one, after those before it.
    fn close_log(&mut self) -> Result<(), OutOfMemory>
        ensures { OnOk result (self.new ≡ record { names = self.old.names; count = self.old.count; done = self.old.done; name = self.old.name; logs = all_logs self.old; roles = self.old.roles; role = None; events = []; walk = self.old.walk }) }
    {
        let events = mem::replace(&mut self.events, Seq::new(self.alloc));
        if let Some(role) = self.role {
            self.logs.push((role, events))?;
        }
        self.role = None;
        Ok(())
    }

    #[tactic(auto, unfolding(crate::specs::SoFar::add_log))]
    fn add_log(&mut self, role: Option<Role>) -> Result<(), Stop>
        requires { IfSome role (λ r. r < 16) }
        ensures { Takes (add_log self.old role) self.new result }
    {
        if !self.is_open() {
            return Err(Stop::Wrong(Mistake::Form));
        }
        let Some(role) = role else {
            return Err(Stop::Wrong(Mistake::Unknown));
        };
        if self.roles.has(role) {
            return Err(Stop::Wrong(Mistake::Twice));
        }
        if self.close_log().is_err() {
            return Err(Stop::OutOfMemory);
        }
        self.roles = self.roles.with(role);
        self.role = Some(role);
        Ok(())
    }

    fn add_event(
        &mut self,
        sent: bool,
        label: Option<Label>,
        time: Time,
        values: Assignments<Value>,
    ) -> Result<(), Stop>
        ensures { Takes (add_event self.old sent label time (assigned_values values)) self.new result }
    {
        let (role, label) = match self.place_of_event(label, &values) {
            Ok(place) => place,
            Err(mistake) => return Err(Stop::Wrong(mistake)),
        };
        match self.push_event(event(sent, role, label, time, values)) {
            Ok(()) => Ok(()),
            Err(_) => Err(Stop::OutOfMemory),
        }
    }

    // The role and the label of an event that may be added, or what is wrong with it.
    #[tactic(auto, unfolding(crate::specs::SoFar::add_event))]
    fn place_of_event(
        &self,
        label: Option<Label>,
        values: &Assignments<Value>,
    ) -> Result<(Role, Label), Mistake>
        ensures place { (sent : Bool) (time : ℕ) → MatchResult result
            (λ p. add_event self.now sent label time (assigned_values values.now) ≡ Ok (with_event self.now (event sent p.0 p.1 time (assigned_values values.now).pairs)))
            (λ e. add_event self.now sent label time (assigned_values values.now) ≡ Err e) }
        ensures few { IfOk result (λ _. self.now.count < most_events) }
    {
        if !self.is_open() {
            return Err(Mistake::Form);
        }
        let Some(role) = self.role else {
            return Err(Mistake::Form);
        };
        if values_fall(values) {
            return Err(Mistake::Form);
        }
        if self.count >= MOST_EVENTS {
            return Err(Mistake::TooManyEvents);
        }
        let Some(label) = label else {
            return Err(Mistake::Unknown);
        };
        if !values.known {
            return Err(Mistake::Unknown);
        }
        if !values_rise(values) {
            return Err(Mistake::Twice);
        }
        Ok((role, label))
    }

    // Puts an event after those of the last log.
    fn push_event(&mut self, event: Event) -> Result<(), OutOfMemory>
        requires { self.old.count < most_events }
        ensures { OnOk result (self.new ≡ with_event self.old (event_of event)) }
    {
        self.events.push(event)?;
        self.count += 1;
        Ok(())
    }

    fn add_walk(&mut self, graph: &Graph, steps: Seq<LogStep>) -> Result<(), Stop>
        ensures { Takes (add_walk graph.now self.old (map step_in_line steps)) self.new result }
    {
        if let Some(mistake) = self.mistake_in_walk(graph, steps.as_slice()) {
            return Err(Stop::Wrong(mistake));
        }
        match stored_walk(self.alloc, steps) {
            Ok(walk) => self.walk = Some(walk),
            Err(_) => return Err(Stop::OutOfMemory),
        }
        Ok(())
    }

    // What is wrong with a walk, if it may not be added.
    #[tactic(auto, unfolding(crate::specs::SoFar::add_walk))]
    fn mistake_in_walk(&self, graph: &Graph, steps: &[LogStep]) -> Option<Mistake>
        ensures { MatchOption result
            (add_walk graph.now self.now (map step_in_line steps.now) ≡ Ok (with_walk self.now (map stored_step (map step_in_line steps.now))))
            (λ e. add_walk graph.now self.now (map step_in_line steps.now) ≡ Err e) }
    {
        if !self.is_open() || self.all_have_logs(graph) {
            return Some(Mistake::Form);
        }
        if some_fall(steps) {
            return Some(Mistake::Form);
        }
        if some_unknown(steps) {
            return Some(Mistake::Unknown);
        }
        if some_not_rise(steps) {
            return Some(Mistake::Twice);
        }
        None
    }

    /// The sessions, which are taken out.
    pub fn sessions(&mut self) -> Result<Seq<SessionLog>, OutOfMemory>
        ensures { IfOk result (λ s. map session_of s ≡ all_sessions self.old) }
    {
        self.close_session()?;
        Ok(mem::replace(&mut self.done, Seq::new(self.alloc)))
    }
}

// Whether the set has each role below `count`.
fn have_all(roles: RoleSet, count: u8) -> bool
    ensures { result ≡ list_all (λ r. is_in r roles) (below count) }
{
    for number in 0..count {
        if !roles.has(Role(number)) {
            return false;
        }
    }
    true
}

// An event of the role, with zeros for its session. No receipt joins.
fn event(sent: bool, role: Role, label: Label, time: Time, values: Assignments<Value>) -> Event
    ensures { event_of result ≡ event sent role label time (assigned_values values).pairs }
{
    let sid = Sid([0; 32]);
    if sent {
        Event::Sent {
            sid,
            role,
            label,
            time,
            values: values.pairs,
        }
    } else {
        Event::Received {
            sid,
            role,
            label,
            time,
            values: values.pairs,
            joins: false,
        }
    }
}

// The walk of the steps, whose labels are there.
fn stored_walk(alloc: Global, steps: Seq<LogStep>) -> Result<StoredWalk, OutOfMemory>
    ensures { IfOk result (λ w. steps_of w ≡ map stored_step (map step_in_line steps)) }
{
    let mut stored = Vec::new(alloc);
    for step in steps.into_vec() {
        stored.push(stored_step(step))?;
    }
    Ok(StoredWalk {
        steps: Seq::from_vec(stored),
    })
}

fn stored_step(step: LogStep) -> StoredStep
    ensures { step_of result ≡ stored_step (step_in_line step) }
{
    StoredStep {
        label: step.label.unwrap_or(Label(0)),
        writes: step.writes.pairs,
    }
}
