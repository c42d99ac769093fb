//! Events.
ghost use Rattle.std.specs.Prelude.{◌≡◌};
ghost use Rattle.sg_protocol.specs.Calls.{role_of, sid_of};
ghost use Rattle.sg_walk.specs.Model.{event_of};

use sg_base::{Label, Role, Seq, Sid, Time, Value, Var};

/// What a role did in a session. Values stand in the order of their variables.
#[derive(Drop)]
pub enum Event {
    /// The role started the session.
    Started {
        /// The session.
        sid: Sid,
        /// The role.
        role: Role,
    },
    /// The role sent a step, with what it wrote.
    Sent {
        /// The session.
        sid: Sid,
        /// The role.
        role: Role,
        /// The step's label.
        label: Label,
        /// The step's time.
        time: Time,
        /// The variables that it wrote, with their values.
        values: Seq<(Var, Value)>,
    },
    /// The role received a step, with what it read. The receipt may have joined the session.
    Received {
        /// The session.
        sid: Sid,
        /// The role.
        role: Role,
        /// The step's label.
        label: Label,
        /// The step's time.
        time: Time,
        /// The variables that it read, with their values.
        values: Seq<(Var, Value)>,
        /// Whether the receipt joined the session.
        joins: bool,
    },
}

/// The session of an event.
pub fn sid_of(event: &Event) -> Sid
    ensures { result ≡ sid_of (event_of event.now) }
{
    match event {
        Event::Started { sid, .. } => *sid,
        Event::Sent { sid, .. } => *sid,
        Event::Received { sid, .. } => *sid,
    }
}

/// The role of an event.
pub fn role_of(event: &Event) -> Role
    ensures { result ≡ role_of (event_of event.now) }
{
    match event {
        Event::Started { role, .. } => *role,
        Event::Sent { role, .. } => *role,
        Event::Received { role, .. } => *role,
    }
}
