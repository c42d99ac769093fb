//! What holds of every replay. Each function is a law: it does nothing, and its contract is the statement.
ghost use Rattle.sg_world.specs.Laws.{LawsHold, NoneJoinsTwice, StepsAreTheRuns};

/// A step of a replay is the definition's step of its run.
pub fn steps_are_the_runs()
    ensures { StepsAreTheRuns }
{}

/// No honest principal joins a pair of session and role twice.
pub fn none_joins_twice()
    ensures { NoneJoinsTwice }
{}

/// If the assumptions hold of a replay's run, an honest sender's receipt was given by bytes that this sender sent before, what an
/// accepted frame shows of honest senders is the last step of each, a frame that is awaited and delivered is received, and each claim
/// that holds of a session's graph is kept by whichever walk explains the session, and by its events. If no two hashed texts have one
/// digest, all events of a session are of one cast and one graph, and no honest principal has two roles in a session.
pub fn runs_of_replays()
    ensures { LawsHold }
{}
