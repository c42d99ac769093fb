//! What else holds of honest principals that run apart: what a receipt says, what an accepted frame shows, which frames are accepted,
//! and that sessions go on.
//!
//! Each law is one of `sg_protocol` over runs of `sg_apart`, in which each principal has keys, programs and joins of its own and is
//! asked anything by anybody. Nothing is supposed of the keys: a law that needs that two principals hold one key for each other says so
//! (`HoldOneKey`). Each also holds of honest principals' pasts, in whatever order their calls happened.
//!
//! The definitions stand in `specs/`: `Receipts`, `LastSteps`, `Delivery`, `GoesOn`. Each function is a law about them: it does nothing,
//! and its contract is the law. They are laws of any course of happenings: of the proofs of `sg_protocol` read `Showing` first, then `Flight`,
//! what each call keeps of a session, and `Accepting`.
#![tactic(auto)]

ghost use Rattle.std.specs.Prelude.{ℕ, List};
ghost use Rattle.sg_protocol.specs.Texts.{IsHash};
ghost use Rattle.sg_apart_frames.specs.Receipts.{ReceiptsHaveSendsApart, HonestReceiptsHaveSends};
ghost use Rattle.sg_apart_frames.specs.LastSteps.{FramesShowLastStepsApart, HonestFramesShowLastSteps};
ghost use Rattle.sg_apart_frames.specs.Delivery.{DeliveryIsCompleteApart, HonestDeliveryIsComplete};
ghost use Rattle.sg_apart_frames.specs.GoesOn.{SessionsGoOnApart, HonestSessionsGoOn};

/// If the assumptions hold, a receipt from an honest sender was given by a frame that this sender sent before, in that session and in
/// the role that the frame names as its sender, perhaps with another tag of the frame; and by just these bytes, if the two principals
/// hold one key for each other.
pub fn receipts_apart()
    ensures runs { (sha : List ℕ → List ℕ) → IsHash sha → ReceiptsHaveSendsApart sha }
    ensures pasts { (sha : List ℕ → List ℕ) → IsHash sha → HonestReceiptsHaveSends sha }
{}

/// If the assumptions hold, what an accepted frame shows of honest senders is what they last did up to that call, and the receiver
/// holds the commitments that each of them held, whatever keys they hold.
pub fn last_steps_apart()
    ensures runs { (sha : List ℕ → List ℕ) → IsHash sha → FramesShowLastStepsApart sha }
    ensures pasts { (sha : List ℕ → List ℕ) → IsHash sha → HonestFramesShowLastSteps sha }
{}

/// If the assumptions hold, all principals of a session are honest, and each two of them hold one key for each other, a frame that a
/// step of the session sent to a principal is accepted, whatever came between: if that principal has the graph's program of its role,
/// has not accepted these bytes, has not left the session and shares keys with the cast, and, if the frame joins, did not begin with
/// this join and has room to join and for a session.
pub fn delivery_apart()
    ensures runs { (sha : List ℕ → List ℕ) → IsHash sha → DeliveryIsCompleteApart sha }
    ensures pasts { (sha : List ℕ → List ℕ) → IsHash sha → HonestDeliveryIsComplete sha }
{}

/// If the assumptions hold, a session in which something happened, whose principals are all honest and of whom each two hold one key, is
/// never stuck: no edge leaves the place where its steps end, or one of its principals has abandoned it, or the principal at its turn
/// can send a step along each edge that leaves the place, or the frame that was sent last in it was not taken, and is awaited by a
/// receiver that has its role's program and shares keys with the cast and, if the frame joins, did not begin with this join and has room.
pub fn never_stuck_apart()
    ensures runs { (sha : List ℕ → List ℕ) → IsHash sha → SessionsGoOnApart sha }
    ensures pasts { (sha : List ℕ → List ℕ) → IsHash sha → HonestSessionsGoOn sha }
{}
