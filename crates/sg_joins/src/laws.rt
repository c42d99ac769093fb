//! What a reader relies on of the joins that are kept. Each function is a law: it does nothing, and its contract is the statement.
ghost use Rattle.sg_joins.specs.Laws.{FramesShowTheirJoins, JoinsOfNode};

/// The joins of a node are those that it was made with, and then those that its calls made.
pub fn joins_of_a_node()
    ensures { JoinsOfNode }
{}

/// The bytes of a frame of a kept join show no other join: whatever frame is read of them, its session and its sender were joined by the
/// calls. A kept session has 32 bytes, and each frame has these and its sender at one offset.
pub fn frames_show_their_joins()
    ensures { FramesShowTheirJoins }
{}
