//! The law on the walks of expansions.
ghost use Rattle.sg_compose.specs.Laws.{AllKeepWalks};

/// The walks of each expansion, from its start, are the outer walks of its part in which a use counts as an edge, each use replaced by
/// a complete walk of the expansion of the part that is used; and those that end where a use begins, followed by a walk of that
/// expansion which isn't empty and doesn't come to its end. So it is for each part, and so for the parts that it uses.
pub fn expansions_keep_walks()
    ensures { AllKeepWalks }
{}
