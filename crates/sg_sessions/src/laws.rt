//! What holds of each node, whatever it is asked. The function is a law: it does nothing, and its contract is the statement.
ghost use Rattle.sg_protocol.specs.Texts.{real};
ghost use Rattle.sg_sessions.specs.Spent.{FramesAreTakenOnce};

/// A node whose live sessions are sound and of different pairs of session and role accepts a frame once, whatever it is asked between:
/// after it was accepted, its pair stays joined, and each live session of it is at the frame's time or a later one.
pub fn frames_are_taken_once()
    ensures { FramesAreTakenOnce real }
{}
