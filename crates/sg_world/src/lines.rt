//! The lines of the steps of a replay.
ghost use Rattle.std.specs.Prelude.{◌≡◌, ◌<◌, ◌^◌, ◌++◌, [], OnOk, find, length, map, nat_lt, unwrap_or};
ghost use Rattle.std.specs.Option.{option_copied, option_map_or};
ghost use Rattle.sg_text.specs.Sessions.{KnownSessions, naming};
ghost use Rattle.sg_report.specs.Outcome.{outcome_of};
ghost use Rattle.sg_report.specs.Report.{line, lines_from, name_in};
ghost use Rattle.sg_report.specs.Reported.{session_reported};
ghost use Rattle.sg_sched.specs.Format.StepsHeld.{step_of};
ghost use Rattle.sg_world.specs.KeptLines.{IsRenamed, left_by, line_kept};

use crate::record::TakenStep;
use crate::take::who;
use sg_base::{ByteOut, Name, OutOfMemory, Sid, Var};
use sg_graph::Graph;
use sg_receipt::ActRefusal;
use sg_report::{Outcome, put_line, sid_reported};
use sg_sched::Step;
use sg_setting::Setting;
use sg_text::SessionNames;

/// Writes a line for each step that was taken, the first of number 1.
pub(crate) fn put_lines<'p>(
    out: &mut ByteOut,
    names: &SessionNames,
    setting: &Setting<'p>,
    entries: &[TakenStep<'p>],
) -> Result<(), OutOfMemory>
    requires { length entries.now < 2 ^ 32 }
    ensures { (m : KnownSessions) → names.now ≡ naming 120 m → OnOk result (out.new ≡ out.old ++ lines_from m 1 (map (line_kept setting.now) entries.now)) }
{
    let mut number: u32 = 0;
    for entry in entries {
        number += 1;
        put_entry(out, names, setting, number, entry)?;
    }
    Ok(())
}

// Writes the line of a step of this number.
fn put_entry<'p>(
    out: &mut ByteOut,
    names: &SessionNames,
    setting: &Setting<'p>,
    number: u32,
    entry: &TakenStep<'p>,
) -> Result<(), OutOfMemory>
    ensures { (m : KnownSessions) → names.now ≡ naming 120 m → OnOk result (out.new ≡ out.old ++ line m number (line_kept setting.now entry.now)) }
{
    let caller = who(&entry.step);
    let sid = session_for(setting, &entry.step, &entry.outcome);
    let session = name_in(names, &sid);
    let step = number as u64;
    match renamed(&entry.outcome, setting.graphs()) {
        Some(outcome) => put_line(out, step, bytes_of(&caller), bytes_of(&session), &outcome),
        None => put_line(
            out,
            step,
            bytes_of(&caller),
            bytes_of(&session),
            &entry.outcome,
        ),
    }
}

// The bytes of a name, none if there is none.
fn bytes_of(name: &Option<Name>) -> &[u8]
    ensures { result.now ≡ unwrap_or name.now [] }
{
    match name {
        Some(name) => name.as_bytes(),
        None => &[],
    }
}

// The name of a session, if a session is given.
fn name_in(names: &SessionNames, session: &Option<Sid>) -> Option<Name>
    ensures { (m : KnownSessions) → names.now ≡ naming 120 m → unwrap_or result [] ≡ option_map_or (name_in m) session.now [] }
{
    match session {
        Some(sid) => names.name_of(sid),
        None => None,
    }
}

// The session that the line names, if it names one.
fn session_for<'p>(setting: &Setting<'p>, step: &Step, outcome: &Outcome<'p>) -> Option<Sid>
    ensures { result ≡ session_reported (left_by setting.now.sessions (step_of step.now)) (outcome_of outcome.now) }
{
    match outcome {
        Outcome::Abandoned => left(setting, step),
        _ => sid_reported(outcome),
    }
}

// The session that a step gives up.
fn left<'p>(setting: &Setting<'p>, step: &Step) -> Option<Sid>
    ensures { result ≡ left_by setting.now.sessions (step_of step.now) }
{
    match step {
        Step::Abandon { session, .. } => setting.sids().get(*session as usize).copied(),
        Step::Start { .. } => None,
        Step::Act { .. } => None,
        Step::Deliver { .. } => None,
        Step::Craft(_) => None,
    }
}

// If an act was refused for a variable that its session's graph doesn't have: the outcome by the first of the graphs that has it, if one has.
fn renamed<'a>(outcome: &Outcome<'_>, graphs: &'a [Graph]) -> Option<Outcome<'a>>
    ensures { IsRenamed graphs.now outcome.now result }
{
    match outcome {
        Outcome::NotActed(refusal) => renamed_act(refusal, graphs),
        _ => None,
    }
}

// The same of an act that was refused.
fn renamed_act<'a>(refusal: &ActRefusal<'_>, graphs: &'a [Graph]) -> Option<Outcome<'a>>
    ensures { IsRenamed graphs.now (Outcome.NotActed refusal.now) result }
{
    match refusal {
        ActRefusal::BadValues { var, graph } => {
            if has(graph, *var) {
                return None;
            }
            match first_with(graphs, *var) {
                Some(graph) => Some(Outcome::NotActed(ActRefusal::BadValues { var: *var, graph })),
                None => None,
            }
        }
        _ => None,
    }
}

// The first of the graphs that has the variable.
fn first_with(graphs: &[Graph], var: Var) -> Option<&Graph>
    ensures { option_copied result ≡ find (λ h. nat_lt var (length h.variables)) graphs.now }
{
    for graph in graphs {
        if has(graph, var) {
            return Some(graph);
        }
    }
    None
}

// The graph has the variable.
fn has(graph: &Graph, var: Var) -> bool
    ensures { result ≡ nat_lt var (length graph.now.variables) }
{
    var.0 < graph.vars()
}
