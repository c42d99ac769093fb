//! What holds over any list of runs and crashes, by the clauses of the calls of a ledger.
ghost use Rattle.std.specs.Prelude.{◌≡◌, ◌≢◌, ◌⊎◌, ◌++◌, [], ◌∷◌, ℕ, List, All, AllPairs, Contains};
ghost use Rattle.sg_ledger.specs.Format.{Join, Represents, RepresentsOneOf};
ghost use Rattle.sg_ledger.specs.Runs.{LedgerEvent, MayHappen, answered};

/// Over any list of runs and crashes, the joins that `Ledger::add` answered with Ok are all different, and all of them are in the
/// ledger that is opened last. What may happen is what the clauses of `add` and `open` leave: `add` refuses a join of its list; once it
/// has answered Ok, every image has the join; if it fails, or a crash cuts it short, an image represents the list with the join or
/// without it; and an image opens with the list that it represents.
pub fn joined_once_over_runs()
    ensures differ { (events : List LedgerEvent) (last : List Join) → MayHappen [] events last → AllPairs (λ a b. a ≢ b) (answered events) }
    ensures survive { (events : List LedgerEvent) (last : List Join) → MayHappen [] events last → All (Contains last) (answered events) }
    ensures opened { (joins : List Join) (join : Join) (image : List ℕ) (opened : List Join) → RepresentsOneOf joins join image → Represents image opened → (opened ≡ joins) ⊎ (opened ≡ joins ++ join ∷ []) }
{}
