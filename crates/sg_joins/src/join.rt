//! The outcome of a call, as a join.
ghost use Rattle.std.specs.Prelude.{◌≡◌};
ghost use Rattle.sg_report.specs.Outcome.{outcome_of};
ghost use Rattle.sg_walk.specs.Model.{event_of};
ghost use Rattle.sg_joins.specs.Joins.{join_of, join_reported};

use sg_base::{Role, Sid};
use sg_report::Outcome;
use sg_walk::Event;

/// The pair that was joined, if one was.
pub(crate) fn join_in(outcome: &Outcome<'_>) -> Option<(Sid, Role)>
    ensures { result ≡ join_reported (outcome_of outcome.now) }
{
    match outcome {
        Outcome::Started(begun) => join_of(&begun.event),
        Outcome::Received(receipt) => join_of(receipt.event()),
        _ => None,
    }
}

// The pair that an event joins, if it joins one.
fn join_of(event: &Event) -> Option<(Sid, Role)>
    ensures { result ≡ join_of (event_of event.now) }
{
    match event {
        Event::Started { sid, role } => Some((*sid, *role)),
        Event::Sent { .. } => None,
        Event::Received {
            sid,
            role,
            joins,
            ..
        } => { if *joins { Some((*sid, *role)) } else { None } }
    }
}
