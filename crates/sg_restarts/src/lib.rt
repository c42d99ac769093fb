//! What else holds of runs in which principals are stopped and begun anew over the joins that they kept: deliveries, sessions
//! that go on, the walk that explains a session, and claims.
//!
//! Each law is one of `sg_protocol` over its runs with restarts (`Restarts` there), as strong as the law of runs without them.
//! Two name what a restart changes: a principal that restarts has lost its live sessions (`Dropped`), so frames to it in these
//! are not accepted, and nothing needs to happen in them any more. The others hold as they are, since a restart has no event.
//!
//! The definitions stand in `specs/`. Each function is a law about them: it does nothing, and its contract is the law.
//! Of the proofs, read `proofs/Logs.antt` first, then `Drops`: each law is that of the run without restarts, brought back.
#![tactic(auto)]

ghost use Rattle.std.specs.Prelude.{◌≡◌, ℕ, List};
ghost use Rattle.sg_protocol.specs.Texts.{IsHash};
ghost use Rattle.sg_restarts.specs.Dropped.{DropsAreAbandonments};
ghost use Rattle.sg_restarts.specs.OverRestarts.{DeliveryIsCompleteOverRestarts, SessionsGoOnOverRestarts, WalksExplainOverRestarts, FramesShowViewsOverRestarts, ClaimsAreKeptOverRestarts, TurnIsOfSessionOverRestarts};

/// In the run without restarts a principal abandons exactly the sessions that it abandons in the run with them, and those that
/// restarts of its dropped.
pub fn drops_are_abandonments()
    ensures { (sha : List ℕ → List ℕ) → IsHash sha → DropsAreAbandonments sha }
{}

/// Delivery over restarts: if the assumptions hold and all principals of a session are honest, a frame that a step of the
/// session sent to a principal is accepted, whatever came between: if that principal has not accepted these bytes, has not
/// left the session and shares keys with the cast, if no restart of its dropped the session, and, if the frame joins, it
/// has room to join and for a session.
pub fn delivery_over_restarts()
    ensures { (sha : List ℕ → List ℕ) → IsHash sha → DeliveryIsCompleteOverRestarts sha }
{}

/// Over restarts too, if the assumptions hold, a session in which something happened and whose principals are all honest is
/// never stuck, unless a restart of one of them dropped it: no edge leaves the place where its steps end, or one of its
/// principals has abandoned it, or the principal at its turn can send a step along each edge that leaves the place, or the
/// frame that was sent last in it was not taken, and is awaited by a receiver that shares keys with the cast and, if the
/// frame joins, has room.
pub fn never_stuck_over_restarts()
    ensures { (sha : List ℕ → List ℕ) → IsHash sha → SessionsGoOnOverRestarts sha }
{}

/// The walk that is made event by event explains a session over restarts too, whichever walks stand beside the frames that
/// were taken and show the receiver what the frame shows it; and there are such walks.
pub fn walks_explain_over_restarts()
    ensures explained { (sha : List ℕ → List ℕ) → IsHash sha → WalksExplainOverRestarts sha }
    ensures shown { (sha : List ℕ → List ℕ) → IsHash sha → FramesShowViewsOverRestarts sha }
{}

/// Claims that hold of a session's graph are kept over restarts too, on each walk that explains the session, and by its events.
pub fn claims_are_kept_over_restarts()
    ensures { (sha : List ℕ → List ℕ) → IsHash sha → ClaimsAreKeptOverRestarts sha }
{}

/// If no two hashed texts of a run with restarts have one digest, the first live session with a sid that is at its turn is the
/// session with this sid, so the node at which it stands is that session's.
pub fn turns_over_restarts()
    ensures { (sha : List ℕ → List ℕ) → IsHash sha → TurnIsOfSessionOverRestarts sha }
{}
