//! Logs of sessions.
use sg_base::{Name, Role, Seq};
use sg_graph::Graph;
use sg_walk::{Event, StoredWalk};

/// The logs of one session: of each role that has one, in the order of the text, what it sent and received, in its order; and, if a
/// role has none, the walk that is given. Identifiers in events are zeros, and no receipt joins.
#[derive(Drop)]
pub struct SessionLog {
    /// The session's name.
    pub name: Name,
    /// The roles that have a log, and what each did.
    pub logs: Seq<(Role, Seq<Event>)>,
    /// The walk that is given, if one is.
    pub walk: Option<StoredWalk>,
}

/// The logs of a file: the graph, and its sessions in the order of the text.
#[derive(Drop)]
pub struct Logs {
    /// The graph of all sessions.
    pub graph: Graph,
    /// The sessions.
    pub sessions: Seq<SessionLog>,
}
