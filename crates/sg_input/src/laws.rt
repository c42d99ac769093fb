//! What holds of the lines of bytes, by their definition.
ghost use Rattle.std.specs.Prelude.{◌≡◌, ◌++◌, ℕ, List, All, map};
ghost use Rattle.sg_input.specs.Lines.{NoFeed, lines_of, line_of, ended};

/// The lines of runs of bytes without a line feed, each with a line feed behind it, and of bytes behind them that have none, are the runs,
/// in order.
pub fn lines_are_runs()
    ensures { (runs : List (List ℕ)) (rest : List ℕ) → All NoFeed runs → NoFeed rest → lines_of (ended runs ++ rest) ≡ map line_of runs }
{}
