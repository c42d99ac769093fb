//! How a node starts a session.
ghost use Rattle.std.specs.Prelude.{◌≡◌, true, Some, None, IfOk, OnErr, OnOk};
ghost use Rattle.sg_model.specs.Shape.{role_at};
ghost use Rattle.sg_protocol.specs.Acting.{answer, answer_start};
ghost use Rattle.sg_protocol.specs.Graph.{shape};
ghost use Rattle.sg_protocol.specs.Calls.{Start};
ghost use Rattle.sg_protocol.specs.Node.{Node as DefinedNode, starter, program_for, is_cast, stranger};
ghost use Rattle.sg_protocol.specs.NodeStates.{RepresentsNode, RepresentsPast, state_after};
ghost use Rattle.sg_protocol.specs.Notes.{notes as noted_of, notes_of_start};
ghost use Rattle.sg_protocol.specs.Past.{Past, node_of};
ghost use Rattle.sg_protocol.specs.Ranges.{IsCast};
ghost use Rattle.sg_protocol.specs.Texts.{real};
ghost use Rattle.sg_protocol.specs.Named.{graph_of_call};
ghost use Rattle.sg_role.specs.Sending.{with_notes};
ghost use Rattle.sg_receipt.specs.Answers.{answer_of_start, graph_named, graph_of_start};
ghost use Rattle.sg_node.specs.Answers.{GoesOn, may_take_memory};
ghost use Rattle.sg_node.specs.Joining.{start_refusal_for};

use crate::Node;
use crate::cast::{facts_of_starter, first_starter, is_cast};
use crate::join::{Obstacle, begin_session, first_obstacle, make_room, note_session};
use sg_base::OutOfMemory;
use sg_crypt::{Cast, Notes, session_id};
use sg_program::Program;
use sg_receipt::{Happened, StartRefusal};
use sg_role::Before;
use sg_walk::Event;

impl<'p> Node<'p> {
    /// Starts a session of a cast, at the start node of its graph, or gives the first cause for which it is refused. After a
    /// refusal the node is as before, and if memory runs out the notes are too. No memory is taken before the graph, the cast and the keys
    /// are found right.
    pub fn begin(
        &mut self,
        cast: Cast,
        notes: &mut Notes,
    ) -> Result<Result<Happened<'p>, StartRefusal>, OutOfMemory>
        ensures answer { (past : Past) → RepresentsPast self.old past → IfOk result (λ r. answer real (node_of past) (Start cast) ≡ answer_of_start r) }
        // By the graph of the session.
        ensures graph { (past : Past) → RepresentsPast self.old past
            → IfOk result (λ r. graph_of_start r ≡ graph_named (answer_of_start r) (graph_of_call real (node_of past) (Start cast))) }
        ensures state { (past : Past) → RepresentsPast self.old past → OnOk result (GoesOn self.old self.new (Start cast) past) }
        ensures notes { (past : Past) → RepresentsPast self.old past → OnOk result (notes.new ≡ with_notes notes.old (noted_of real (node_of past) (Start cast))) }
        ensures refused { IfOk result (λ r. OnErr r (self.new ≡ self.old)) }
        ensures memory { OnErr result ((self.new ≡ self.old) × (notes.new ≡ notes.old)) }
        // Memory never runs out for an unknown graph, a bad cast or an unknown peer.
        ensures early { (past : Past) → RepresentsPast self.old past → OnErr result (may_take_memory (answer real (node_of past) (Start cast)) ≡ true) }
    {
        facts_of_cast(&cast);
        let Some(program) = first_starter(self.programs, &cast.graph()) else {
            return Ok(Err(StartRefusal::UnknownGraph));
        };
        if !is_cast(&self.keys, program.graph(), &cast, program.role()) {
            return Ok(Err(StartRefusal::BadCast));
        }
        if let Some(name) = self.keys.covers(&cast) {
            return Ok(Err(StartRefusal::UnknownPeer { name }));
        }
        facts_of_starter(self.programs, &cast.graph(), program);
        self.begin_in(program, cast, notes)
    }

    // Starts a session in a program, if its cast is right and all keys are there.
    fn begin_in(
        &mut self,
        program: &'p Program,
        cast: Cast,
        notes: &mut Notes,
    ) -> Result<Result<Happened<'p>, StartRefusal>, OutOfMemory>
        requires starts { starter self.old.programs cast.graph ≡ Some program.now }
        requires first { program_for self.old.programs cast.graph program.now.role ≡ Some program.now }
        requires cast { is_cast self.old.keys program.now.graph cast program.now.role ≡ true }
        requires covered { stranger self.old.keys cast ≡ None }
        requires node { role_at (shape program.now.graph) 0 ≡ program.now.role }
        requires graph { cast.graph ≡ program.now.digest }
        ensures answer { (n : DefinedNode) → RepresentsNode self.old n → IfOk result (λ r. answer_start real n cast ≡ answer_of_start r) }
        ensures graph { IfOk result (λ r. graph_of_start r ≡ graph_named (answer_of_start r) (Some program.entry.now.graph)) }
        ensures state { (n : DefinedNode) → RepresentsNode self.old n → OnOk result (self.new ≡ state_after self.old (Start cast) (answer_start real n cast)) }
        ensures notes { (n : DefinedNode) → RepresentsNode self.old n → OnOk result (notes.new ≡ with_notes notes.old (notes_of_start cast (answer_start real n cast))) }
        ensures refused { IfOk result (λ r. OnErr r (self.new ≡ self.old)) }
        ensures memory { OnErr result ((self.new ≡ self.old) × (notes.new ≡ notes.old)) }
    {
        let sid = session_id(&cast);
        let role = program.role();
        if let Some(obstacle) = first_obstacle(&self.joins, &self.sessions, &sid, role) {
            note_session(self.alloc, &cast, &sid, notes)?;
            return Ok(Err(refusal_of(obstacle)));
        }
        let before = Before::with_sid(self.alloc, program, cast, sid)?;
        make_room(&mut self.joins, &mut self.sessions)?;
        note_session(self.alloc, &cast, &sid, notes)?;
        begin_session(&mut self.joins, &mut self.sessions, before);
        Ok(Ok(Happened {
            event: Event::Started { sid, role },
            graph: program.graph(),
        }))
    }
}

// The refusal of a start whose pair can't be joined.
fn refusal_of(obstacle: Obstacle) -> StartRefusal
    ensures { result ≡ start_refusal_for obstacle }
{
    match obstacle {
        Obstacle::Joined => StartRefusal::Joined,
        Obstacle::Cache => StartRefusal::CacheFull,
        Obstacle::Sessions => StartRefusal::SessionsFull,
    }
}

// What the type says of a cast.
fn facts_of_cast(cast: &Cast)
    ensures { IsCast cast.now }
{
    let _ = cast.version();
}
