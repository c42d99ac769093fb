//! What the sessions of a replay are called.
ghost use Rattle.std.specs.Prelude.{◌≡◌, ◌++◌, [], filter_map, map, IfOk, OnOk};
ghost use Rattle.std.specs.Option.{option_to_list};
ghost use Rattle.sg_text.specs.Sessions.{KnownSessions, naming};
ghost use Rattle.sg_protocol.specs.Texts.{real, session_id};
ghost use Rattle.sg_world.specs.KeptLines.{known_in, sid_kept};

use crate::record::TakenStep;
use sg_base::{OutOfMemory, Sid};
use sg_report::sid_reported;
use sg_sched::NamedSession;
use sg_setting::Setting;
use sg_text::SessionNames;
use std::alloc::Global;

/// What the sessions are called: the declared ones by their first names, and the others by `x` and a number in the order of their
/// first events.
pub(crate) fn session_names<'p>(
    alloc: Global,
    setting: &Setting<'p>,
    entries: &[TakenStep<'p>],
) -> Result<SessionNames, OutOfMemory>
    ensures { IfOk result (λ names. names ≡ naming 120 (known_in setting.now.sessions entries.now)) }
{
    let mut names = SessionNames::new(alloc, b'x');
    declare_all(&mut names, setting.sessions(), setting.sids())?;
    meet_all(alloc, &mut names, entries)?;
    Ok(names)
}

// Declares these sessions, if none was before.
fn declare_all(
    names: &mut SessionNames,
    sessions: &[NamedSession],
    sids: &[Sid],
) -> Result<(), OutOfMemory>
    requires { sids.now ≡ map (λ d. session_id real d.cast) sessions.now }
    ensures { names.old ≡ naming 120 (known_in [] []) → OnOk result (names.new ≡ naming 120 (known_in sessions.now [])) }
{
    for index in 0..sessions.len() {
        let session = &sessions[index];
        names.declare(session.name, sids[index])?;
    }
    Ok(())
}

// Meets the events that came of these steps.
fn meet_all<'p>(
    alloc: Global,
    names: &mut SessionNames,
    entries: &[TakenStep<'p>],
) -> Result<(), OutOfMemory>
    ensures { (m : KnownSessions) → names.old ≡ naming 120 m
        → OnOk result (names.new ≡ naming 120 (record m { events = m.events ++ filter_map sid_kept entries.now })) }
{
    for entry in entries {
        meet(alloc, names, entry)?;
    }
    Ok(())
}

// Meets the event that came of a step, if one did.
fn meet<'p>(
    alloc: Global,
    names: &mut SessionNames,
    entry: &TakenStep<'p>,
) -> Result<(), OutOfMemory>
    ensures { (m : KnownSessions) → names.old ≡ naming 120 m
        → OnOk result (names.new ≡ naming 120 (record m { events = m.events ++ option_to_list (sid_kept entry.now) })) }
{
    match sid_reported(&entry.outcome) {
        Some(sid) => names.meet(alloc, sid),
        None => Ok(()),
    }
}
