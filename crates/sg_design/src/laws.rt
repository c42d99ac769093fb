//! What holds of all files of a graph. Each function is a law: it does nothing, and its contract is the statement.
ghost use Rattle.std.specs.Prelude.{ℕ, List};
ghost use Rattle.sg_model.specs.Limits.{most_graph_file};
ghost use Rattle.sg_ending.specs.Laws.{EndsAlways};
ghost use Rattle.sg_design.specs.Claimed.{Suggests};
ghost use Rattle.sg_design.specs.Ends.{Checks, Compiles, Composes};
ghost use Rattle.sg_design.specs.Laws.{ClaimsEndAlways};

/// Whatever files hold, `check`, `compile`, `compose` and `claims` may end without the outside's failing: what the files ask for, or a cause to refuse
/// them, is always there.
pub fn graphs_have_an_ending()
    ensures check { EndsAlways Checks most_graph_file }
    ensures compile { (name : List ℕ) → EndsAlways (Compiles name) most_graph_file }
    ensures compose { EndsAlways Composes most_graph_file }
    ensures suggest { EndsAlways Suggests most_graph_file }
    ensures claims { ClaimsEndAlways }
{}
