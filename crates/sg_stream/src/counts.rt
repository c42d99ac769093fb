//! What holds of the counts of faults of a link over connections, by their definitions.
ghost use Rattle.sg_stream.specs.Counts.{RisesAreOfOneCall};

/// If the count of a link over connections rose, a call of theirs failed, or 1,000,000 pieces made no message whole: one of these counts rose.
pub fn rises_are_of_one_call()
    ensures { RisesAreOfOneCall }
{}
