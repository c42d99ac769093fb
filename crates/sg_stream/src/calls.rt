//! What holds over any list of calls of a reader, by their clauses.
ghost use Rattle.std.specs.Prelude.{◌≡◌, ◌++◌, [], ℕ, List, All};
ghost use Rattle.sg_stream.specs.Calls.{ReaderCall, MayHappen, fed, given};
ghost use Rattle.sg_stream.specs.Framed.{IsFrame, messages, BeginsBad, BeginsMessage, Framed};

/// Over any list of calls of a new reader, the messages of the frames that `next` gave, in order, and then the bytes not taken are the
/// pieces joined. If no message begins the bytes not taken, as after a `next` that gave none or reported a bad length, these frames and
/// these bytes are what the joined pieces consist of, and no other frames and bytes are: so where the pieces are cut doesn't matter. What
/// may happen is what the clauses of `feed` and `next` leave.
pub fn cutting_does_not_matter()
    ensures each { (calls : List ReaderCall) (left : List ℕ) → MayHappen [] calls left → All IsFrame (given calls) }
    ensures whole { (calls : List ReaderCall) (left : List ℕ) → MayHappen [] calls left → fed calls ≡ messages (given calls) ++ left }
    ensures framed { (calls : List ReaderCall) (left : List ℕ) → MayHappen [] calls left → ¬ BeginsMessage left → Framed (fed calls) (given calls) left }
    ensures bad { (bytes : List ℕ) (len : ℕ) → BeginsBad bytes len → ¬ BeginsMessage bytes }
    ensures one { (bytes : List ℕ) (frames others : List (List ℕ)) (rest other : List ℕ) → Framed bytes frames rest → Framed bytes others other → (frames ≡ others) × (rest ≡ other) }
{}
