//! A principal's node.
ghost use Rattle.std.specs.Prelude.{◌≡◌, ◌≢◌, ◌≤◌, [], length, AllPairs, IfOk, IsOk, OnErr};
ghost use Rattle.std.specs.List.{AllByRecursion};
ghost use Rattle.sg_model.specs.Limits.{most_joins};
ghost use Rattle.sg_protocol.specs.Acting.{answer};
ghost use Rattle.sg_protocol.specs.Calls.{Abandon};
ghost use Rattle.sg_protocol.specs.IsSchedule.{IsProgram};
ghost use Rattle.sg_protocol.specs.NodeStates.{RepresentsPast, new_state};
ghost use Rattle.sg_protocol.specs.Past.{Past, node_of};
ghost use Rattle.sg_protocol.specs.Texts.{real};
ghost use Rattle.sg_protocol.specs.Turn.{turn_of};
ghost use Rattle.sg_node.specs.Answers.{abandon_answer, GoesOn};
ghost use Rattle.sg_node.specs.Laws.{new_past};

use crate::UnknownSession;
use crate::join::claim;
use crate::sessions::{Live, Sessions};
use sg_base::{NodeId, OutOfMemory, Role, Sid};
use sg_cache::Cache;
use sg_keys::Keyring;
use sg_program::Programs;
use std::alloc::Global;
use std::marker::Model;

/// One principal's sessions, in any number of graphs: its keyring, its programs, the pairs of session and role that it joined, and its
/// live sessions. A clause sees these as the state of a node, with what is held of each live session in the order of joining.
#[derive(Drop)]
pub struct Node<'p> {
    pub(crate) alloc: Global,
    pub(crate) keys: Keyring,
    pub(crate) programs: &'p Programs,
    pub(crate) joins: Cache,
    pub(crate) sessions: Sessions<'p>,
}

impl<'p> Model for Node<'p> {
    ghost use Rattle.sg_protocol.specs.NodeStates.{NodeState};

    ghost Value = { NodeState };

    ghost use Rattle.sg_node.specs.Invariant.{node_state, HoldsNode};

    ghost view = { node_state };

    ghost invariant = { HoldsNode };
}

impl<'p> Node<'p> {
    /// A node with these keys and programs, without joins and sessions. It takes no memory.
    #[tactic(auto, using(crate::proofs::Life::represents_new))]
    pub fn new(
        alloc: Global,
        keys: Keyring,
        programs: &'p Programs,
    ) -> Result<Node<'p>, OutOfMemory>
        ensures ok { IsOk result }
        ensures made { IfOk result (λ n. n ≡ new_state keys programs.entry.now []) }
        ensures represents { IfOk result (λ n. RepresentsPast n (new_past keys programs.entry.now [])) }
    {
        facts_of_programs(programs);
        Ok(Node {
            alloc,
            keys,
            programs,
            joins: Cache::new(alloc),
            sessions: Sessions::new(alloc),
        })
    }

    /// A node with these keys and programs, which joined these pairs before: they are not joined again. It has no live session.
    #[tactic(auto, using(crate::proofs::Life::represents_new))]
    pub fn with_joins(
        alloc: Global,
        keys: Keyring,
        programs: &'p Programs,
        joins: &[(Sid, Role)],
    ) -> Result<Node<'p>, OutOfMemory>
        requires count { length joins.now ≤ most_joins }
        requires different { AllPairs (λ a b. a ≢ b) joins.now }
        ensures made { IfOk result (λ n. n ≡ new_state keys programs.entry.now joins.now) }
        ensures represents { IfOk result (λ n. RepresentsPast n (new_past keys programs.entry.now joins.now)) }
    {
        facts_of_programs(programs);
        Ok(Node {
            alloc,
            keys,
            programs,
            joins: claimed(alloc, joins)?,
            sessions: Sessions::new(alloc),
        })
    }

    /// Leaves the first live session with an identifier: it is no longer live, and its pair stays joined. Refused if there is
    /// none. It takes no memory.
    #[tactic(auto, using(crate::proofs::Leaving::not_abandoned, crate::proofs::Leaving::abandoned, crate::proofs::Leaving::left, crate::proofs::Leaving::emptied, crate::proofs::Going::goes_on))]
    pub fn abandon(&mut self, sid: Sid) -> Result<(), UnknownSession>
        ensures answer { (past : Past) → RepresentsPast self.old past → answer real (node_of past) (Abandon sid) ≡ abandon_answer result }
        ensures state { (past : Past) → RepresentsPast self.old past → GoesOn self.old self.new (Abandon sid) past }
        ensures back { OnErr result (self.new ≡ self.old) }
    {
        let Some(index) = self.sessions.first(&sid, false) else {
            return Err(UnknownSession);
        };
        let _live = self.sessions.take(index);
        Ok(())
    }

    /// The graph's node at which the first live session with an identifier stands that is at its turn, if there is one. It takes no
    /// memory.
    pub fn turn(&self, sid: Sid) -> Option<NodeId>
        ensures { (past : Past) → RepresentsPast self.now past → result ≡ turn_of (node_of past) sid }
    {
        let Some(index) = self.sessions.first(&sid, true) else {
            return None;
        };
        match self.sessions.get(index) {
            Some(Live::AtTurn(turn)) => Some(turn.node()),
            Some(Live::Waiting(_wait)) => None,
            None => None,
        }
    }
}

// What each program is.
fn facts_of_programs(programs: &Programs)
    ensures { AllByRecursion (IsProgram real) programs.now }
{
    for program in programs.as_slice() {
        let _ = program.role();
    }
}

// These pairs, claimed one after the other.
fn claimed(alloc: Global, joins: &[(Sid, Role)]) -> Result<Cache, OutOfMemory>
    requires count { length joins.now ≤ most_joins }
    requires different { AllPairs (λ a b. a ≢ b) joins.now }
    ensures { IfOk result (λ c. c.pairs ≡ joins.now) }
{
    let mut cache = Cache::new(alloc);
    for (sid, role) in joins {
        cache.reserve()?;
        claim(&mut cache, *sid, *role).give_up();
    }
    Ok(cache)
}
