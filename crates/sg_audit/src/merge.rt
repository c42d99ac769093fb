//! The events of several logs by time.
ghost use Rattle.std.specs.Prelude.{◌≡◌, ◌++◌, ◌*◌, ◌<◌, ◌/◌, ◌↔◌, ℕ, false, map, flat_map, IfOk, OnOk, IsTrue, MatchOption, IsPermutation};
ghost use Rattle.std.specs.List.{AllByRecursion};
ghost use Rattle.sg_walk.specs.Model.{event_of};
ghost use Rattle.sg_audit.specs.Merged.{moment, AscendFrom, clashes};
ghost use Rattle.sg_audit.specs.Model.{log_of};

use crate::copy::copy_event;
use sg_base::{OutOfMemory, Role, Seq, Time};
use sg_walk::Event;
use std::alloc::Global;

/// The events of all logs by time, Sent before Received at equal times. It takes a time of n log n.
pub(crate) fn merge(alloc: Global, logs: &[(Role, Seq<Event>)]) -> Result<Vec<Event>, OutOfMemory>
    ensures all { IfOk result (λ m. IsPermutation (flat_map (λ l. l.1) (map log_of logs.now)) (map event_of m.items)) }
    ensures ascends { IfOk result (λ m. AscendFrom 0 (map event_of m.items)) }
{
    let mut events = all_events(alloc, logs)?;
    sort_by_time(&mut events);
    Ok(events)
}

// The events of all logs, log after log.
fn all_events(alloc: Global, logs: &[(Role, Seq<Event>)]) -> Result<Vec<Event>, OutOfMemory>
    ensures { IfOk result (λ m. map event_of m.items ≡ flat_map (λ l. l.1) (map log_of logs.now)) }
{
    let mut events = Vec::new(alloc);
    for log in logs {
        put_events(alloc, &mut events, log.1.as_slice())?;
    }
    Ok(events)
}

fn put_events(alloc: Global, all: &mut Vec<Event>, events: &[Event]) -> Result<(), OutOfMemory>
    ensures { OnOk result (all.new.items ≡ all.old.items ++ events.now) }
{
    for event in events {
        all.push(copy_event(alloc, event)?)?;
    }
    Ok(())
}

fn sort_by_time(events: &mut Vec<Event>)
    ensures all { IsPermutation events.old.items events.new.items }
    ensures ascends { AscendFrom 0 (map event_of events.new.items) }
{
    events.sort_unstable_by_key(moment_of);
}

fn moment_of(event: &Event) -> u64
    ensures { result ≡ moment (event_of event.now) }
{
    match event {
        Event::Started { .. } => 0,
        Event::Sent { time, .. } => 2 * u64::from(time.0),
        Event::Received { time, .. } => 2 * u64::from(time.0) + 1,
    }
}

/// The least time that clashes, of events by time.
pub(crate) fn first_clash(events: &[Event]) -> Option<Time>
    requires { AscendFrom 0 (map event_of events.now) }
    ensures { MatchOption result ((t : ℕ) → clashes (map event_of events.now) t ≡ false)
        (λ t. IsTrue (clashes (map event_of events.now) t) × ((s : ℕ) → s < t → clashes (map event_of events.now) s ≡ false)) }
{
    for next in 1..events.len() {
        let event = &events[next];
        if moment_of(&events[next - 1]) == moment_of(event) {
            return Some(time_of(event));
        }
    }
    None
}

fn time_of(event: &Event) -> Time
    ensures { result ≡ moment (event_of event.now) / 2 }
{
    match event {
        Event::Started { .. } => Time(0),
        Event::Sent { time, .. } => *time,
        Event::Received { time, .. } => *time,
    }
}

/// Whether each log is by time.
pub(crate) fn all_ascend(logs: &[(Role, Seq<Event>)]) -> bool
    ensures { IsTrue result ↔ AllByRecursion (λ l. AscendFrom 0 l.1) (map log_of logs.now) }
{
    for log in logs {
        if !ascends(log.1.as_slice()) {
            return false;
        }
    }
    true
}

fn ascends(events: &[Event]) -> bool
    ensures { IsTrue result ↔ AscendFrom 0 (map event_of events.now) }
{
    let mut least = 0u64;
    for event in events {
        let moment = moment_of(event);
        if moment < least {
            return false;
        }
        least = moment;
    }
    true
}
