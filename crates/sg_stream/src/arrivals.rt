//! What holds of the frames that pieces bring, by their definitions.
ghost use Rattle.std.specs.Prelude.{◌≡◌, ◌<◌, ◌++◌, ◌∷◌, ℕ, List, All, length, map};
ghost use Rattle.std.specs.List.{concat};
ghost use Rattle.sg_stream.specs.Arrivals.{arrivals};
ghost use Rattle.sg_stream.specs.Framed.{Framed};
ghost use Rattle.sg_stream.specs.Frames.{frames_of, rest_of};

/// Bytes consist of the frames and the rest that are computed of them. By [`crate::cutting_does_not_matter`] they consist of no others.
pub fn frames_are_framed()
    ensures { (bytes : List ℕ) → Framed bytes (frames_of bytes) (rest_of bytes) }
{}

/// The pieces of one connection, of which none is empty, bring the frames of the pieces joined. Among the pieces of any connections one may be cut
/// in two, and the same frames come in the same order.
pub fn pieces_may_be_cut_anywhere()
    ensures joined { (conn : ℕ) (pieces : List (ℕ × List ℕ)) → All (λ p. (p.0 ≡ conn) × (0 < length p.1)) pieces → arrivals pieces ≡ frames_of (concat (map (λ p. p.1) pieces)) }
    ensures cut { (before after : List (ℕ × List ℕ)) (conn : ℕ) (prefix back : List ℕ) → 0 < length prefix → 0 < length back → arrivals (before ++ (conn, prefix) ∷ (conn, back) ∷ after) ≡ arrivals (before ++ (conn, prefix ++ back) ∷ after) }
{}
