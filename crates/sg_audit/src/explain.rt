//! The audit of the logs of one session.
ghost use Rattle.std.specs.Prelude.{◌≡◌, IfOk, map, unwrap_or};
ghost use Rattle.std.specs.List.{AllByRecursion};
ghost use Rattle.sg_walk.specs.Model.{event_of, steps_of};
ghost use Rattle.sg_audit.specs.Agree.{AreLogs, NoneClashes};
ghost use Rattle.sg_audit.specs.Merged.{AscendFrom, IsMerged};
ghost use Rattle.sg_audit.specs.Sent.{sent_steps};
ghost use Rattle.sg_audit.specs.Answers.{IsAnswer};
ghost use Rattle.sg_audit.specs.Model.{logs_of, reported_of};

use crate::answer::Audit;
use crate::merge::{all_ascend, first_clash, merge};
use crate::roles::roles_of;
use crate::sent::sent_walk;
use crate::session::SessionLog;
use sg_base::OutOfMemory;
use sg_explain::check_part;
use sg_graph::Graph;
use sg_walk::{Event, StoredWalk};
use std::alloc::Global;

/// Whether the logs of a session agree with the walk that is given, or, if each role has a log, with any walk.
pub fn audit(alloc: Global, graph: &Graph, session: &SessionLog) -> Result<Audit, OutOfMemory>
    requires { AreLogs graph.now (logs_of session.now) (reported_of session.now) }
    ensures { IfOk result (IsAnswer graph.now (logs_of session.now) (reported_of session.now)) }
{
    let merged = merge(alloc, session.logs.as_slice())?;
    if let Some(time) = first_clash(merged.as_slice()) {
        return Ok(Audit::Clash { time });
    }
    if !all_ascend(session.logs.as_slice()) {
        return Ok(Audit::No);
    }
    explain(alloc, graph, session, merged.as_slice())
}

// The answer for logs that clash at no time, each of which is by time.
fn explain(
    alloc: Global,
    graph: &Graph,
    session: &SessionLog,
    merged: &[Event],
) -> Result<Audit, OutOfMemory>
    requires logs { AreLogs graph.now (logs_of session.now) (reported_of session.now) }
    requires merged { IsMerged (logs_of session.now) (map event_of merged.now) }
    requires apart { NoneClashes (logs_of session.now) }
    requires ascend { AllByRecursion (λ l. AscendFrom 0 l.1) (logs_of session.now) }
    ensures { IfOk result (IsAnswer graph.now (logs_of session.now) (reported_of session.now)) }
{
    let _roles = graph.roles();
    let honest = roles_of(session.logs.as_slice());
    let walk = asked_walk(alloc, session, merged)?;
    if check_part(graph, honest, &walk, merged) {
        Ok(Audit::Yes(walk))
    } else {
        Ok(Audit::No)
    }
}

// The walk that is given, or the one that the sends make.
fn asked_walk(
    alloc: Global,
    session: &SessionLog,
    merged: &[Event],
) -> Result<StoredWalk, OutOfMemory>
    ensures { IfOk result (λ w. steps_of w ≡ unwrap_or (reported_of session.now) (sent_steps (map event_of merged.now))) }
{
    match &session.walk {
        Some(walk) => Ok(walk.copy(alloc)?),
        None => sent_walk(alloc, merged),
    }
}
