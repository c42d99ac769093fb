//! What holds of a node's whole life. Each function is a law: it does nothing, and its contract is the statement.
ghost use Rattle.sg_node.specs.Laws.{NewNodesRepresent, PastsGoOn, SessionsAreAlone, SameForSessions, OthersAreLeft, PairsJoinOnce};

/// A node that is made represents the past without calls, and a valid past is valid with each call in range and the node's
/// answer. So a node represents its past after all its calls, by the contract of each.
pub fn represents_its_past()
    ensures begins { NewNodesRepresent }
    ensures goes_on { PastsGoOn }
{}

/// Sessions do not disturb each other. If no call was refused because there was no room, a node answered the calls of a session
/// as a node that gets no other calls would. Nodes that have the same of a session, and as many joins and live sessions, answer its
/// calls alike, and have the same of it afterwards. What a node has of a session stays as it was in each call that is not of it.
pub fn isolated()
    ensures alone { SessionsAreAlone }
    ensures same { SameForSessions }
    ensures others { OthersAreLeft }
{}

/// A node joins no pair of session and role twice, nor one that it was made with, if these differ.
pub fn joins_once()
    ensures { PairsJoinOnce }
{}
