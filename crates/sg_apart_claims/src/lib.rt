//! What else holds of honest principals that run apart, each with its own keys, programs and joins: one cast and one role, turns, the
//! walk that is made event by event, and claims.
//!
//! Each law is one of `sg_protocol`, as strong as it is there of the runs of schedules: of principals as `sg_apart` has them, whatever
//! they are asked, and of the pasts of honest principals, in each order of their calls. The definitions stand in `specs/`. Each function
//! is a law about them: it does nothing, and its contract is the law. They are laws of any course of happenings: of the proofs of
//! `sg_protocol` read `OneCasts` and `EventWalks` first.
#![tactic(auto)]

ghost use Rattle.std.specs.Prelude.{ℕ, List};
ghost use Rattle.sg_protocol.specs.Texts.{IsHash};
ghost use Rattle.sg_apart_claims.specs.Laws.{HoldsApart, SessionsHaveOneCast, NoneTakesTwoRoles, TurnIsOfSession, WalksExplain, FramesShowViews, ClaimsAreKept};

/// If no two hashed texts have one digest, all events of a session are of one cast and one graph, each of the role that this cast
/// gives its principal, and so no principal has two roles in a session.
pub fn one_role_apart()
    ensures one_cast { (sha : List ℕ → List ℕ) → IsHash sha → HoldsApart sha (SessionsHaveOneCast sha) }
    ensures one_role { (sha : List ℕ → List ℕ) → IsHash sha → HoldsApart sha (NoneTakesTwoRoles sha) }
{}

/// If no two hashed texts have one digest, the first live session with a sid that is at its turn is the session with this sid, so the
/// node at which it stands is that session's, if it is at its turn, and there is none if it is not.
pub fn turns_apart()
    ensures { (sha : List ℕ → List ℕ) → IsHash sha → HoldsApart sha (TurnIsOfSession sha) }
{}

/// The walk that is made event by event explains a session, if the assumptions hold, whichever walks stand beside the frames that were
/// taken and show the receiver what the frame shows it; and there are such walks.
pub fn walks_explain_apart()
    ensures explained { (sha : List ℕ → List ℕ) → IsHash sha → HoldsApart sha (WalksExplain sha) }
    ensures shown { (sha : List ℕ → List ℕ) → IsHash sha → HoldsApart sha (FramesShowViews sha) }
{}

/// If the assumptions hold, some walk explains each session with an event, and whichever does, each claim that holds of the session's
/// graph is kept on it and by the events, as `claims_are_kept` of `sg_protocol` says it.
pub fn claims_are_kept_apart()
    ensures { (sha : List ℕ → List ℕ) → IsHash sha → HoldsApart sha (ClaimsAreKept sha) }
{}
