//! How a node takes a delivery.
ghost use Rattle.std.specs.Prelude.{◌≡◌, ◌<◌, ◌++◌, ◌&&◌, ◌↔◌, ◌⊎◌, [], ◌∷◌, true, IsTrue, nat_lt, length, slice_get, option_and_then, Ok, Err, None, Some, IfErr, IfOk, IsErr, IsOk, OnErr, OnOk, MatchResult};
ghost use Rattle.std.specs.Option.{option_copied};
ghost use Rattle.indexmap.specs.IndexMap.{set_value_at};
ghost use Rattle.sg_model.specs.Limits.{most_frame_bytes};
ghost use Rattle.sg_protocol.specs.Acting.{answer};
ghost use Rattle.sg_protocol.specs.Calls.{Deliver};
ghost use Rattle.sg_protocol.specs.Frame.{Frame};
ghost use Rattle.sg_protocol.specs.Node.{Node as DefinedNode, program_for, is_cast};
ghost use Rattle.sg_protocol.specs.NodeStates.{RepresentsNode, RepresentsPast};
ghost use Rattle.sg_protocol.specs.Notes.{Notes, notes as noted_of};
ghost use Rattle.sg_protocol.specs.Past.{Past, node_of};
ghost use Rattle.sg_protocol.specs.Reading.{read, read_version};
ghost use Rattle.sg_protocol.specs.Texts.{real, session_id, session_text_of};
ghost use Rattle.sg_protocol.specs.Named.{graph_of_call};
ghost use Rattle.sg_protocol.specs.Verdict.{verdict_on};
ghost use Rattle.sg_role.specs.Sending.{with_notes};
ghost use Rattle.sg_role.specs.declared.fault.Refusal.TheVariants as role;
ghost use Rattle.sg_receipt.specs.Answers.{answer_of_delivery, graph_named, graph_of_delivery};
ghost use Rattle.sg_node.specs.Answers.{GoesOn, may_take_memory};
ghost use Rattle.sg_receipt.specs.Refusals.{delivery_refusal};
ghost use Rattle.sg_node.specs.Faults.{role_refusal};
ghost use Rattle.sg_node.specs.Joining.{JoinsBy, refusal_for};
ghost use Rattle.sg_receipt.specs.Receipts.{IsReceiptAt};
ghost use Rattle.sg_node.specs.Slots.{left_after};
ghost use Rattle.sg_node.specs.Taking.{TakesFrame};
ghost use Rattle.sg_node.specs.declared.sessions.Live.TheVariants.{Waiting};

use crate::Node;
use crate::cast::{is_cast, program_for};
use crate::join::{Obstacle, first_obstacle, join_session, make_room, note_session};
use crate::sessions::{Live, Sessions};
use sg_base::{OutOfMemory, Sid, facts_of_bytes};
use sg_crypt::{Cast, Notes, SharedCast, session_id};
use sg_frame::{DecodeFault, Frame, ReadFrame};
use sg_graph::Graph;
use sg_keys::Keyring;
use sg_program::{Program, Programs};
use sg_receipt::{DeliveryRefusal, Receipt};
use sg_role::{Accepted, Before, TurnOrDone, examine};
use std::alloc::AllocError;

impl<'p> Node<'p> {
    /// Takes bytes that were delivered: the receipt of the frame that they spell, in the session that it continues or joins, or the
    /// first cause for which it is refused. After a refusal the node is as before, and if memory runs out the notes are too. The bytes are
    /// read once. Too many bytes and a wrong beginning are refused without memory.
    pub fn receive(
        &mut self,
        bytes: &[u8],
        notes: &mut Notes,
    ) -> Result<Result<Receipt<'p>, DeliveryRefusal<'p>>, OutOfMemory>
        ensures answer { (past : Past) → RepresentsPast self.old past → IfOk result (λ r. answer real (node_of past) (Deliver bytes.now) ≡ answer_of_delivery r) }
        // By the graph of its session, if it names a role, a label or a variable.
        ensures graph { (past : Past) → RepresentsPast self.old past
            → IfOk result (λ r. graph_of_delivery r ≡ graph_named (answer_of_delivery r) (graph_of_call real (node_of past) (Deliver bytes.now))) }
        // What was received is the view that the frame shows in its session.
        ensures shown { (past : Past) (f : Frame) → RepresentsPast self.old past → read bytes.now ≡ Ok f → IfOk result (λ r. IfOk r (λ x. IsReceiptAt (node_of past) f x × (x.cast ≡ f.join))) }
        ensures state { (past : Past) → RepresentsPast self.old past → OnOk result (GoesOn self.old self.new (Deliver bytes.now) past) }
        ensures notes { (past : Past) → RepresentsPast self.old past → OnOk result (notes.new ≡ with_notes notes.old (noted_of real (node_of past) (Deliver bytes.now))) }
        ensures refused { IfOk result (λ r. OnErr r (self.new ≡ self.old)) }
        ensures memory { OnErr result ((self.new ≡ self.old) × (notes.new ≡ notes.old)) }
        // Memory runs out neither for too many bytes nor for a wrong beginning.
        ensures early { (most_frame_bytes < length bytes.now) ⊎ IsErr (read_version 0 bytes.now) → IsOk result }
    {
        facts_of_bytes(bytes);
        match ReadFrame::new(self.alloc, bytes) {
            Ok(read) => self.receive_frame(&read, notes),
            Err(DecodeFault::Malformed { at }) => Ok(Err(DeliveryRefusal::Malformed { at })),
            Err(DecodeFault::OutOfMemory) => Err(AllocError),
        }
    }

    /// Takes a frame that was read, as `receive` takes its bytes. An unknown graph, a bad cast, an unknown peer, an unknown session and a
    /// session at its turn are refused without memory.
    pub fn receive_frame(
        &mut self,
        read: &ReadFrame<'_>,
        notes: &mut Notes,
    ) -> Result<Result<Receipt<'p>, DeliveryRefusal<'p>>, OutOfMemory>
        ensures answer { (past : Past) → RepresentsPast self.old past → IfOk result (λ r. answer real (node_of past) (Deliver read.now.bytes) ≡ answer_of_delivery r) }
        ensures graph { (past : Past) → RepresentsPast self.old past
            → IfOk result (λ r. graph_of_delivery r ≡ graph_named (answer_of_delivery r) (graph_of_call real (node_of past) (Deliver read.now.bytes))) }
        ensures shown { (past : Past) → RepresentsPast self.old past → IfOk result (λ r. IfOk r (λ x. IsReceiptAt (node_of past) read.now.frame x × (x.cast ≡ read.now.frame.join))) }
        ensures state { (past : Past) → RepresentsPast self.old past → OnOk result (GoesOn self.old self.new (Deliver read.now.bytes) past) }
        ensures notes { (past : Past) → RepresentsPast self.old past → OnOk result (notes.new ≡ with_notes notes.old (noted_of real (node_of past) (Deliver read.now.bytes))) }
        ensures refused { IfOk result (λ r. OnErr r (self.new ≡ self.old)) }
        ensures memory { OnErr result ((self.new ≡ self.old) × (notes.new ≡ notes.old)) }
        // Memory never runs out for an unknown graph, a bad cast, an unknown peer, an unknown session, or a session that doesn't wait.
        ensures early { (past : Past) → RepresentsPast self.old past → OnErr result (may_take_memory (answer real (node_of past) (Deliver read.now.bytes)) ≡ true) }
    {
        facts_of_bytes(read.bytes());
        let _programs = self.programs;
        self.take_frame(read, notes)
    }

    // Takes a frame.
    fn take_frame(
        &mut self,
        read: &ReadFrame<'_>,
        notes: &mut Notes,
    ) -> Result<Result<Receipt<'p>, DeliveryRefusal<'p>>, OutOfMemory>
        ensures takes { TakesFrame self.old self.new notes.old notes.old notes.new read.now.frame result }
        ensures early { (n : DefinedNode) → RepresentsNode self.old n → OnErr result (may_take_memory (verdict_on real n (Ok read.now.frame)) ≡ true) }
    {
        let frame = read.frame();
        match &frame.join {
            Some(cast) => self.join(read, *cast.get(), notes),
            None => self.continue_session(read, notes),
        }
    }

    // Takes a frame that continues a session.
    fn continue_session(
        &mut self,
        read: &ReadFrame<'_>,
        notes: &mut Notes,
    ) -> Result<Result<Receipt<'p>, DeliveryRefusal<'p>>, OutOfMemory>
        requires continues { read.now.frame.join ≡ None }
        ensures takes { TakesFrame self.old self.new notes.old notes.old notes.new read.now.frame result }
        ensures early { (n : DefinedNode) → RepresentsNode self.old n → OnErr result (may_take_memory (verdict_on real n (Ok read.now.frame)) ≡ true) }
    {
        let frame = read.frame();
        let Some(index) = self.sessions.find_for(frame) else {
            return Ok(Err(DeliveryRefusal::UnknownSession));
        };
        let alloc = self.alloc;
        match self.sessions.get(index) {
            Some(Live::Waiting(wait)) => {
                let kept = wait.before();
                let graph = kept.program().graph();
                match examine(alloc, kept, &self.keys, frame, read.bytes(), notes) {
                    Ok(accepted) => Ok(Ok(take(&mut self.sessions, index, accepted))),
                    Err(refusal) => refused(refusal, graph),
                }
            }
            Some(Live::AtTurn(_turn)) => Ok(Err(DeliveryRefusal::NotWaiting)),
            None => unreachable!(),
        }
    }

    // Takes a frame that joins.
    fn join(
        &mut self,
        read: &ReadFrame<'_>,
        cast: Cast,
        notes: &mut Notes,
    ) -> Result<Result<Receipt<'p>, DeliveryRefusal<'p>>, OutOfMemory>
        requires joins { read.now.frame.join ≡ Some cast }
        ensures takes { TakesFrame self.old self.new notes.old notes.old notes.new read.now.frame result }
        ensures early { (n : DefinedNode) → RepresentsNode self.old n → OnErr result (may_take_memory (verdict_on real n (Ok read.now.frame)) ≡ true) }
    {
        let frame = read.frame();
        let Some(program) = program_of(self.programs, &cast, frame) else {
            return Ok(Err(DeliveryRefusal::UnknownGraph));
        };
        if !fits(&self.keys, program, &cast, frame) {
            return Ok(Err(DeliveryRefusal::BadCast));
        }
        if let Some(name) = self.keys.covers(&cast) {
            return Ok(Err(DeliveryRefusal::UnknownPeer { name }));
        }
        self.join_known(program, read, cast, notes)
    }

    // Takes a frame that joins, if its cast is right and all keys are there.
    fn join_known(
        &mut self,
        program: &'p Program,
        read: &ReadFrame<'_>,
        cast: Cast,
        notes: &mut Notes,
    ) -> Result<Result<Receipt<'p>, DeliveryRefusal<'p>>, OutOfMemory>
        requires by { JoinsBy self.old read.now.frame cast program.now }
        ensures takes { TakesFrame self.old self.new notes.old notes.old notes.new read.now.frame result }
    {
        let counts = notes.counts();
        let sid = session_id(&cast);
        note_session(self.alloc, &cast, &sid, notes)?;
        let result = self.join_in(program, read, cast, sid, notes);
        if result.is_err() {
            notes.keep(counts);
        }
        result
    }

    // Takes a frame that joins, if the text of its session is noted.
    fn join_in(
        &mut self,
        program: &'p Program,
        read: &ReadFrame<'_>,
        cast: Cast,
        sid: Sid,
        notes: &mut Notes,
    ) -> Result<Result<Receipt<'p>, DeliveryRefusal<'p>>, OutOfMemory>
        requires by { JoinsBy self.old read.now.frame cast program.now }
        requires session { sid ≡ session_id real cast }
        ensures takes { (first : Notes) → notes.old ≡ record first { hashed = first.hashed ++ session_text_of cast ∷ [] }
            → TakesFrame self.old self.new first notes.old notes.new read.now.frame result }
    {
        let frame = read.frame();
        if !is_session(&frame.sid, &sid) {
            return Ok(Err(DeliveryRefusal::BadSession));
        }
        if let Some(obstacle) = first_obstacle(
            &self.joins,
            &self.sessions,
            &frame.sid,
            frame.receiver,
        ) {
            return Ok(Err(refusal_of(obstacle)));
        }
        let shared = share(&frame.join)?;
        make_room(&mut self.joins, &mut self.sessions)?;
        let before = Before::with_sid(self.alloc, program, cast, sid)?;
        match examine(self.alloc, &before, &self.keys, frame, read.bytes(), notes) {
            Ok(accepted) => Ok(Ok(join_session(
                &mut self.joins,
                &mut self.sessions,
                before,
                accepted,
                shared,
            ))),
            Err(refusal) => refused(refusal, program.graph()),
        }
    }
}

// The same cast, held once more, if there is one.
fn share(cast: &Option<SharedCast>) -> Result<Option<SharedCast>, OutOfMemory>
    ensures { IfOk result (λ c. c ≡ cast.now) }
{
    match cast {
        Some(cast) => Ok(Some(cast.share()?)),
        None => Ok(None),
    }
}

// What a node answers if the role that waits refuses a frame, in a session of this graph.
fn refused<'p>(
    refusal: sg_role::Refusal,
    graph: &'p Graph,
) -> Result<Result<Receipt<'p>, DeliveryRefusal<'p>>, OutOfMemory>
    ensures refused { IfOk result (λ r. IsErr r) }
    ensures refusal { MatchResult result (λ r. IfErr r (λ why. role_refusal refusal ≡ Some (delivery_refusal why))) (λ e. refusal ≡ role.OutOfMemory) }
    ensures graph { IfOk result (λ r. graph_of_delivery r ≡ graph_named (answer_of_delivery r) (Some graph.entry.now)) }
{
    let why = match refusal {
        sg_role::Refusal::BadFrameTag => DeliveryRefusal::BadFrameTag,
        sg_role::Refusal::NoSuchView => DeliveryRefusal::NoSuchView,
        sg_role::Refusal::BadTime { item, got, least } => {
            DeliveryRefusal::BadTime { item, got, least }
        }
        sg_role::Refusal::BadEvidence { item } => DeliveryRefusal::BadEvidence { item },
        sg_role::Refusal::BadOpening { var } => DeliveryRefusal::BadOpening { var, graph },
        sg_role::Refusal::OutOfMemory => return Err(AllocError),
    };
    Ok(Err(why))
}

// The program for the cast's graph and the frame's receiver.
fn program_of<'p>(programs: &'p Programs, cast: &Cast, frame: &Frame) -> Option<&'p Program>
    ensures { option_copied result ≡ program_for programs.now cast.now.graph frame.now.receiver }
{
    program_for(programs, &cast.graph(), frame.receiver)
}

// The cast is right for the receiver, and the sender is one of its roles.
fn fits(keys: &Keyring, program: &Program, cast: &Cast, frame: &Frame) -> bool
    ensures { result ≡ (is_cast keys.now program.now.graph cast.now frame.now.receiver && nat_lt frame.now.sender (length cast.now.names)) }
{
    is_cast(keys, program.graph(), cast, frame.receiver) && frame.sender.0 < cast.count()
}

// The identifier is that of the session.
fn is_session(sid: &Sid, session: &Sid) -> bool
    ensures { IsTrue result ↔ (sid.now ≡ session.now) }
{
    sid.0 == session.0
}

// Takes a frame that was accepted, in the session that waits for it.
fn take<'p>(sessions: &mut Sessions<'p>, index: usize, accepted: Accepted<'p>) -> Receipt<'p>
    requires within { index < length sessions.old.slots }
    requires waits { option_and_then (λ s. s.1) (slice_get sessions.old.slots index) ≡ Some (Waiting (record { program = accepted.program; held = accepted.before })) }
    requires view { accepted.view < length accepted.program.views }
    ensures receipt { result ≡ record { event = accepted.entry.event; program = accepted.entry.program; view = accepted.entry.view; cast = None } }
    ensures slots { sessions.new.slots ≡ set_value_at sessions.old.slots index (left_after accepted.entry) }
{
    let program = accepted.program();
    let view = accepted.view();
    match sessions.take(index) {
        Some(Live::Waiting(wait)) => {
            let (event, taken) = wait.accept_unchecked(accepted);
            if let TurnOrDone::Turn(turn) = taken {
                sessions.put(index, Live::AtTurn(turn));
            }
            Receipt::new(event, program, view, None)
        }
        _ => unreachable!(),
    }
}

// The refusal of a frame whose pair can't be joined.
fn refusal_of<'p>(obstacle: Obstacle) -> DeliveryRefusal<'p>
    ensures { result ≡ refusal_for obstacle }
{
    match obstacle {
        Obstacle::Joined => DeliveryRefusal::Joined,
        Obstacle::Cache => DeliveryRefusal::CacheFull,
        Obstacle::Sessions => DeliveryRefusal::SessionsFull,
    }
}
