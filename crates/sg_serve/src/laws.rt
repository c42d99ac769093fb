//! What a reader relies on of each run. Each function is a law: it does nothing, and its contract is the statement.
ghost use Rattle.sg_serve.specs.Laws.{AgainChangesNothing, RunsAreOfNodes};

/// The calls of a run are those of a node, and were answered as the node answers them. So each law of nodes holds of it.
pub fn runs_are_of_nodes()
    ensures { RunsAreOfNodes }
{}

/// A frame that is sent again makes no call, takes no random bytes, and changes nothing of the state.
pub fn again_changes_nothing()
    ensures { AgainChangesNothing }
{}
