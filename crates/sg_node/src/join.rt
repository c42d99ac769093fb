//! What a node looks at before it joins a session, and how it joins.
ghost use Rattle.std.specs.Prelude.{◌≡◌, ◌≢◌, ◌<◌, ◌++◌, [], ◌∷◌, length, map, None, Some, Contains, IfSome, IsSome, OnOk, OnErr};
ghost use Rattle.sg_model.specs.Limits.{most_joins};
ghost use Rattle.sg_model.specs.Shape.{role_at};
ghost use Rattle.sg_protocol.specs.Graph.{shape};
ghost use Rattle.sg_protocol.specs.Texts.{real, session_id, session_text_of};
ghost use Rattle.sg_walk.specs.Model.{event_of};
ghost use Rattle.sg_role.specs.Accepting.{goes_on, state_after};
ghost use Rattle.sg_role.specs.Sending.{TurnsOrEnds};
ghost use Rattle.sg_node.specs.Slots.{held_in, left_after, slot_of};
ghost use Rattle.sg_node.specs.Joining.{obstacle_to};
ghost use Rattle.sg_node.specs.declared.sessions.Live.TheVariants.{AtTurn};

use crate::sessions::{Live, Sessions};
use sg_base::{OutOfMemory, Role, Sid};
use sg_cache::{Cache, Ticket};
use sg_crypt::{Cast, Hashed, Notes, SharedCast, session_text};
use sg_receipt::Receipt;
use sg_role::{Accepted, Await, Before, Turn, TurnOrDone};
use sg_walk::Event;
use std::alloc::Global;

/// Why a pair of session and role can't be joined, the first cause that holds.
#[derive(Clone, Copy)]
pub(crate) enum Obstacle {
    /// It was joined before.
    Joined,
    /// 65,536 pairs were joined.
    Cache,
    /// 4,096 sessions are live.
    Sessions,
}

/// Why the pair can't be joined, if it can't. It takes no memory.
#[tactic(auto, using(crate::proofs::Joined::is_joined, crate::proofs::Joined::is_full, crate::proofs::Joined::is_crowded, crate::proofs::Joined::is_free))]
pub(crate) fn first_obstacle(
    joins: &Cache,
    sessions: &Sessions,
    sid: &Sid,
    role: Role,
) -> Option<Obstacle>
    ensures { result ≡ obstacle_to joins.now.pairs (length (held_in sessions.now.slots)) sid.now role }
{
    if joins.has(sid, role) {
        return Some(Obstacle::Joined);
    }
    if joins.len() >= 65_536 {
        return Some(Obstacle::Cache);
    }
    if sessions.live() >= 4_096 {
        return Some(Obstacle::Sessions);
    }
    None
}

/// Makes room for one more pair and one more session.
pub(crate) fn make_room(joins: &mut Cache, sessions: &mut Sessions) -> Result<(), OutOfMemory>
    requires { length joins.old.pairs < most_joins }
    ensures joins { joins.new.pairs ≡ joins.old.pairs }
    ensures sessions { sessions.new.slots ≡ sessions.old.slots }
    ensures room { OnOk result ((0 < joins.new.spare) × (0 < sessions.new.spare)) }
{
    joins.reserve()?;
    sessions.reserve()
}

/// Claims a pair that isn't there, if room was made. It takes no memory.
pub(crate) fn claim(joins: &mut Cache, sid: Sid, role: Role) -> Ticket
    requires absent { ¬ Contains joins.old.pairs (sid, role) }
    requires count { length joins.old.pairs < most_joins }
    requires room { 0 < joins.old.spare }
    ensures ticket { result ≡ (sid, role) }
    ensures joins { joins.new.pairs ≡ joins.old.pairs ++ (sid, role) ∷ [] }
{
    joins.claim(sid, role).unwrap()
}

/// Notes the text under the identifier of a session. If memory runs out, nothing is noted.
pub(crate) fn note_session(
    alloc: Global,
    cast: &Cast,
    sid: &Sid,
    notes: &mut Notes,
) -> Result<(), OutOfMemory>
    requires { sid.now ≡ session_id real cast.now }
    ensures ok { OnOk result (notes.new ≡ record notes.old { hashed = notes.old.hashed ++ session_text_of cast.now ∷ [] }) }
    ensures err { OnErr result (notes.new ≡ notes.old) }
{
    let text = Hashed::with_digest(session_text(alloc, cast)?, sid.0);
    notes.note_hashed(text)
}

/// Joins a session in a role that starts its graph and has done nothing: it is at its first turn. Room was made, so it takes no memory.
pub(crate) fn begin_session<'p>(joins: &mut Cache, sessions: &mut Sessions<'p>, before: Before<'p>)
    requires absent { ¬ Contains joins.old.pairs (before.held.sid, before.held.role) }
    requires count { length joins.old.pairs < most_joins }
    requires room { 0 < joins.old.spare }
    requires slot { 0 < sessions.old.spare }
    requires free { ¬ Contains (map (λ s. s.0) sessions.old.slots) (before.held.sid, before.held.role) }
    requires role { before.held.role < 16 }
    requires starts { role_at (shape before.program.graph) 0 ≡ before.held.role }
    requires origin { before.held.kept.origin ≡ None }
    ensures joins { joins.new.pairs ≡ joins.old.pairs ++ (before.entry.held.sid, before.entry.held.role) ∷ [] }
    ensures slots { sessions.new.slots ≡ sessions.old.slots ++ ((before.entry.held.sid, before.entry.held.role), Some (AtTurn before.entry)) ∷ [] }
{
    let sid = before.sid();
    let role = before.role();
    let ticket = claim(joins, sid, role);
    if let Some(live) = first_turn(ticket, before) {
        sessions.push(sid, role, live);
    }
}

/// Joins a session by a frame with this cast that was accepted, in a role that does not start its graph and has done nothing. Room was
/// made, so it takes no memory.
#[inline(never)]
pub(crate) fn join_session<'p>(
    joins: &mut Cache,
    sessions: &mut Sessions<'p>,
    before: Before<'p>,
    accepted: Accepted<'p>,
    cast: Option<SharedCast>,
) -> Receipt<'p>
    requires absent { ¬ Contains joins.old.pairs (before.held.sid, before.held.role) }
    requires count { length joins.old.pairs < most_joins }
    requires room { 0 < joins.old.spare }
    requires slot { 0 < sessions.old.spare }
    requires free { ¬ Contains (map (λ s. s.0) sessions.old.slots) (before.held.sid, before.held.role) }
    requires role { before.held.role < 16 }
    requires waits { role_at (shape before.program.graph) 0 ≢ before.held.role }
    requires origin { before.held.kept.origin ≡ None }
    requires accepted { accepted.before ≡ before.held }
    requires view { accepted.view < length accepted.program.views }
    ensures receipt { result ≡ record { event = accepted.entry.event; program = accepted.entry.program; view = accepted.entry.view; cast = cast } }
    ensures joins { joins.new.pairs ≡ joins.old.pairs ++ (before.entry.held.sid, before.entry.held.role) ∷ [] }
    ensures slots { sessions.new.slots ≡ sessions.old.slots ++ slot_of (before.entry.held.sid, before.entry.held.role) (left_after accepted.entry) }
{
    let sid = before.sid();
    let role = before.role();
    let program = accepted.program();
    let view = accepted.view();
    let ticket = claim(joins, sid, role);
    let Some((event, taken)) = first_receipt(ticket, before, accepted) else {
        unreachable!();
    };
    if let TurnOrDone::Turn(turn) = taken {
        sessions.push(sid, role, Live::AtTurn(turn));
    }
    Receipt::new(event, program, view, cast)
}

// The first turn of a role that starts its graph and has done nothing. It takes no memory.
fn first_turn<'p>(ticket: Ticket, before: Before<'p>) -> Option<Live<'p>>
    requires ticket { ticket ≡ (before.held.sid, before.held.role) }
    requires starts { role_at (shape before.program.graph) 0 ≡ before.held.role }
    requires origin { before.held.kept.origin ≡ None }
    ensures { result ≡ Some (AtTurn before.entry) }
{
    match Turn::begin(ticket, before) {
        Ok(turn) => Some(Live::AtTurn(turn)),
        Err((ticket, _before)) => {
            ticket.give_up();
            None
        }
    }
}

// The receipt of a frame that was accepted before a role that does not start its graph joined, and what becomes of it. It takes no
// memory.
fn first_receipt<'p>(
    ticket: Ticket,
    before: Before<'p>,
    accepted: Accepted<'p>,
) -> Option<(Event, TurnOrDone<'p>)>
    requires ticket { ticket ≡ (before.held.sid, before.held.role) }
    requires waits { role_at (shape before.program.graph) 0 ≢ before.held.role }
    requires origin { before.held.kept.origin ≡ None }
    requires accepted { accepted.before ≡ before.held }
    ensures some { IsSome result }
    ensures event { IfSome result (λ r. event_of r.0 ≡ accepted.entry.event) }
    ensures taken { IfSome result (λ r. TurnsOrEnds (goes_on accepted.entry.program.graph accepted.entry.after.kept.place) (state_after accepted.entry) r.1) }
{
    match Await::join(ticket, before) {
        Ok(wait) => Some(wait.accept_unchecked(accepted)),
        Err((ticket, _before)) => {
            ticket.give_up();
            None
        }
    }
}
