//! What holds of every generated run. Each function is a law: it does nothing, and its contract is the statement.
ghost use Rattle.sg_drive.specs.Laws.{GeneratedAreShort, GeneratedIsOne, GeneratorEnds};

/// There is one generated run for a seed, a number of sessions and a graph.
pub fn generated_is_one()
    ensures { GeneratedIsOne }
{}

/// The generator ends for each seed and up to 2,000 sessions.
pub fn generator_ends()
    ensures { GeneratorEnds }
{}

/// A generated run has at most 82 steps for each session.
pub fn generated_are_short()
    ensures { GeneratedAreShort }
{}
