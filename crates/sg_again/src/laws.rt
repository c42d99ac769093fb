//! What a reader relies on of the frames that are kept. Each function is a law: it does nothing, and its contract is the statement.
ghost use Rattle.sg_again.specs.Laws.{KeepsFew, KeepsTheLast, KeepsTheLive};

/// What is kept of a session is the last frame that it sent, or nothing.
pub fn keeps_the_last()
    ensures { KeepsTheLast }
{}

/// The last frame of a session that has not ended is kept.
pub fn keeps_the_live()
    ensures { KeepsTheLive }
{}

/// Of no more than 4,096 sessions that ended a frame is kept.
pub fn keeps_few()
    ensures { KeepsFew }
{}
