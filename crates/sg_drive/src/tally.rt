//! The outcomes of the steps of a run, counted.
ghost use Rattle.std.specs.Prelude.{◌≡◌, ◌==◌, ◌+◌, ◌≤◌, [], length, IfOk, OnOk, Some};
ghost use Rattle.sg_graph.specs.Edges.{leaving_from};
ghost use Rattle.sg_model.specs.Shape.{target};
ghost use Rattle.sg_protocol.specs.Graph.{Graph, shape};
ghost use Rattle.sg_report.specs.Outcome.{outcome_of};
ghost use Rattle.sg_walk.specs.Model.{event_of};
ghost use Rattle.sg_drive.specs.Counted.{CanRise, with_event, with_sent, with_reported, with_session};
ghost use Rattle.sg_drive.specs.Summary.{completed_by, counts, counts_of};

use indexmap::IndexSet;
use sg_base::{Label, NodeId, OutOfMemory, Sid};
use sg_graph::Graph;
use sg_report::Outcome;
use sg_walk::Event;
use sg_world::World;
use std::alloc::Global;
use std::marker::Model;

/// How often each outcome came of the steps so far, and the sessions of which the last frame was sent.
#[derive(Drop)]
pub(crate) struct Tally {
    pub sent: u64,
    pub received: u64,
    pub refused: u64,
    pub abandoned: u64,
    pub complete: IndexSet<Sid>,
}

impl Model for Tally {
    ghost use Rattle.sg_drive.specs.Summary.{Counts};

    ghost Value = { Counts };

    ghost view = { λ t. record { sent = t.sent; received = t.received; refused = t.refused; abandoned = t.abandoned; complete = t.complete.keys } };
}

impl Tally {
    // No step.
    fn new(alloc: Global) -> Tally
        ensures { (g : Graph) → result ≡ counts g [] }
    {
        Tally {
            sent: 0,
            received: 0,
            refused: 0,
            abandoned: 0,
            complete: IndexSet::new(alloc),
        }
    }

    /// The tally of a replay's run, whose sessions are of the graph.
    pub fn of(alloc: Global, graph: &Graph, world: &World<'_>) -> Result<Tally, OutOfMemory>
        requires few { length world.now.schedule.steps ≤ 200_000 }
        ensures { IfOk result (λ t. t ≡ counts_of graph.now world.now) }
    {
        let mut tally = Tally::new(alloc);
        for index in 0..world.len() {
            tally.add(graph, world.outcome(index))?;
        }
        Ok(tally)
    }

    // Counts the outcome of a step.
    fn add(&mut self, graph: &Graph, outcome: &Outcome<'_>) -> Result<(), OutOfMemory>
        requires few { CanRise self.old }
        ensures { OnOk result (self.new ≡ with_reported graph.now (outcome_of outcome.now) self.old) }
    {
        match outcome {
            Outcome::Sent { sent, .. } => self.add_sent(graph, &sent.event),
            Outcome::Started(begun) => {
                self.add_event(&begun.event);
                Ok(())
            }
            Outcome::Received(receipt) => {
                self.add_event(receipt.event());
                Ok(())
            }
            Outcome::NotDelivered(_) => {
                self.add_refused();
                Ok(())
            }
            Outcome::Abandoned => {
                self.add_abandoned();
                Ok(())
            }
            _ => Ok(()),
        }
    }

    // Counts a frame that was sent, and its session if the frame is the last.
    fn add_sent(&mut self, graph: &Graph, event: &Event) -> Result<(), OutOfMemory>
        requires few { CanRise self.old }
        ensures { OnOk result (self.new ≡ with_sent graph.now (event_of event.now) self.old) }
    {
        self.sent += 1;
        match completed(graph, event) {
            Some(sid) => add_session(&mut self.complete, sid),
            None => Ok(()),
        }
    }

    // Counts a receipt.
    fn add_event(&mut self, event: &Event)
        requires few { CanRise self.old }
        ensures { self.new ≡ with_event (event_of event.now) self.old }
    {
        if let Event::Received { .. } = event {
            self.received += 1;
        }
    }

    // Counts a refused delivery.
    fn add_refused(&mut self)
        requires few { CanRise self.old }
        ensures { self.new ≡ record self.old { refused = self.old.refused + 1 } }
    {
        self.refused += 1;
    }

    // Counts a session that was abandoned.
    fn add_abandoned(&mut self)
        requires few { CanRise self.old }
        ensures { self.new ≡ record self.old { abandoned = self.old.abandoned + 1 } }
    {
        self.abandoned += 1;
    }
}

// Adds a session at the end, unless it is there.
fn add_session(sids: &mut IndexSet<Sid>, sid: Sid) -> Result<(), OutOfMemory>
    ensures { OnOk result (sids.new.keys ≡ with_session sid sids.old.keys) }
{
    sids.insert(sid)?;
    Ok(())
}

// The session of an event that sends along a label that leads to a node without edges.
fn completed(graph: &Graph, event: &Event) -> Option<Sid>
    ensures { result ≡ completed_by graph.now (event_of event.now) }
{
    match event {
        Event::Sent { sid, label, .. } => {
            if is_last(graph, *label) {
                Some(*sid)
            } else {
                None
            }
        }
        Event::Started { .. } => None,
        Event::Received { .. } => None,
    }
}

// No label leaves the node to which a label leads.
fn is_last(graph: &Graph, label: Label) -> bool
    ensures { result ≡ (length (leaving_from graph.now (target (shape graph.now) label)) == 0) }
{
    graph.edges_from(target(graph, label)).is_empty()
}

// The node to which a label leads, and the start node if the graph doesn't have this label.
fn target(graph: &Graph, label: Label) -> NodeId
    ensures { result ≡ target (shape graph.now) label }
{
    if label.0 < graph.edges() {
        graph.edge(label).target
    } else {
        NodeId(0)
    }
}
