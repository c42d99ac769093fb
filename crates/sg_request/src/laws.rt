//! What holds of all lines. The function is a law: it does nothing, and its contract is the statement.
ghost use Rattle.std.specs.Prelude.{◌≡◌, ◌↔◌, ℕ, List, Some};
ghost use Rattle.sg_request.specs.Request.{Asks, request_of};
ghost use Rattle.sg_request.specs.declared.request.Request.{Request};

/// A line asks for a request exactly if its words are those of the request and each field of it holds what it may hold. So it asks for
/// one request at most, and each request is asked for by the lines of its words, however they are spaced.
pub fn words_ask()
    ensures { (line : List ℕ) (r : Request) → (request_of line ≡ Some r) ↔ Asks line r }
{}
