//! What becomes of the frames that are pending: a network that delays, repeats and loses them.
ghost use Rattle.std.specs.Prelude.{◌≡◌, ◌<◌, ◌==◌, ◌%◌, length, slice_get, All, IfErr, OnOk, Option, Some, option_map};
ghost use Rattle.sg_graph.specs.Edges.{leaving_from};
ghost use Rattle.sg_sessions.specs.Draws.{draw};
ghost use Rattle.sg_drive.specs.Faults.{IsStopped};
ghost use Rattle.sg_report.specs.Outcome.{outcome_of};
ghost use Rattle.sg_report.specs.Reported.{Happened};
ghost use Rattle.sg_walk.specs.Model.{event_of};
ghost use Rattle.sg_drive.specs.Generated.{accepted_time, deliver, gone_on, goes_on_by, meet, put_back, turn};
ghost use Rattle.sg_drive.specs.Going.{drawing, without};
ghost use Rattle.sg_drive.specs.GeneratorModel.{fate_held};
ghost use Rattle.sg_drive.specs.Machine.{HasRoom, IsThere};

use crate::fault::GenerateFault;
use crate::generator::Generator;
use crate::pending::{Fate, Pending};
use crate::play::player_at;
use sg_base::{NodeId, Time};
use sg_report::Outcome;
use sg_sched::{Change, Step, What};
use sg_walk::Event;

// From this time on a principal abandons the session in place of playing.
const LAST_TIME: u32 = 16;

impl<'g, 'p> Generator<'g, 'p> {
    /// A frame is drawn and taken out of the list, and a second draw says what becomes of it.
    pub fn turn(&mut self) -> Result<(), GenerateFault>
        requires room { HasRoom 2 500000000 self.old }
        requires some { 0 < length self.old.going.pending }
        requires there { All (IsThere self.old.graph self.old.sessions) self.old.going.pending }
        ensures going { OnOk result (self.new ≡ record self.old { going = turn self.old.seed self.old.graph self.old.going }) }
        ensures stopped { IfErr result (IsStopped (turn self.old.seed self.old.graph self.old.going).replay) }
    {
        let index = self.draw_index();
        let drawn = self.draw() % 16;
        let frame = self.take_out(index);
        let fate = frame.fate(drawn);
        self.meet(frame, fate)
    }

    // The index of a frame in the list, by the next draw.
    fn draw_index(&mut self) -> usize
        requires draws { self.old.going.draws < 1_000_000_000 }
        requires some { 0 < length self.old.going.pending }
        ensures index { result ≡ draw self.old.seed self.old.going.draws % length self.old.going.pending }
        ensures there { result < length self.old.going.pending }
        ensures going { self.new ≡ record self.old { going = drawing 1 self.old.going } }
    {
        let many = self.pending.len();
        let drawn = self.draw();
        drawn as usize % many
    }

    /// Whether no frame is pending.
    pub fn is_over(&self) -> bool
        ensures { result ≡ (length self.now.going.pending == 0) }
    {
        self.pending.is_empty()
    }

    // The frame at an index is taken out of the list.
    fn take_out(&mut self, index: usize) -> Pending
        requires { index < length self.old.going.pending }
        ensures taken { slice_get self.old.going.pending index ≡ Some result }
        ensures going { self.new ≡ record self.old { going = without index self.old.going } }
    {
        self.pending.remove(index)
    }

    // A frame that was taken out meets its fate.
    fn meet(&mut self, frame: Pending, fate: Fate) -> Result<(), GenerateFault>
        requires room { HasRoom 2 500000002 self.old }
        requires there { IsThere self.old.graph self.old.sessions frame }
        ensures going { OnOk result (self.new ≡ record self.old { going = meet self.old.seed self.old.graph frame (fate_held fate) self.old.going }) }
        ensures stopped { IfErr result (IsStopped (meet self.old.seed self.old.graph frame (fate_held fate) self.old.going).replay) }
    {
        match fate {
            Fate::Delivered => self.deliver(&frame),
            Fate::Delayed => self.put(frame.again()),
            Fate::Repeated => self.repeat(&frame),
            Fate::Lost => {
                self.lost += 1;
                Ok(())
            }
        }
    }

    // A frame goes to the list's end and is delivered. A frame that the delivery brings about stands after it.
    fn repeat(&mut self, frame: &Pending) -> Result<(), GenerateFault>
        requires room { HasRoom 2 500000002 self.old }
        requires there { IsThere self.old.graph self.old.sessions frame.now }
        ensures going { OnOk result (self.new
            ≡ record self.old { going = deliver self.old.seed self.old.graph frame.now (put_back frame.now self.old.going) }) }
        ensures stopped { IfErr result (IsStopped (deliver self.old.seed self.old.graph frame.now (put_back frame.now self.old.going)).replay) }
    {
        self.put(frame.again())?;
        self.deliver(frame)
    }

    // A frame is delivered, and if it is accepted the session goes on.
    fn deliver(&mut self, frame: &Pending) -> Result<(), GenerateFault>
        requires room { HasRoom 2 500000002 self.old }
        requires there { IsThere self.old.graph self.old.sessions frame.now }
        ensures going { OnOk result (self.new ≡ record self.old { going = deliver self.old.seed self.old.graph frame.now self.old.going }) }
        ensures stopped { IfErr result (IsStopped (deliver self.old.seed self.old.graph frame.now self.old.going).replay) }
    {
        let who = player_at(self.graph, self.graph.edge(frame.label).target);
        let what = What::Frame {
            number: frame.frame,
            change: Change::Whole,
        };
        self.take(Step::Deliver { who, what })?;
        self.continue_if_accepted(frame)
    }

    // If the last step accepted the frame, its session goes on.
    fn continue_if_accepted(&mut self, frame: &Pending) -> Result<(), GenerateFault>
        requires room { HasRoom 1 500000002 self.old }
        requires there { IsThere self.old.graph self.old.sessions frame.now }
        ensures going { OnOk result (self.new ≡ record self.old { going = gone_on self.old.seed self.old.graph frame.now self.old.going }) }
        ensures stopped { IfErr result (IsStopped (gone_on self.old.seed self.old.graph frame.now self.old.going).replay) }
    {
        match accepted_time(self.world.last()) {
            Some(time) => {
                let node = self.graph.edge(frame.label).target;
                self.accepted_at(frame.session, node, time)
            }
            None => Ok(()),
        }
    }

    // A frame of this time was accepted at a node.
    fn accepted_at(&mut self, session: u32, node: NodeId, time: Time) -> Result<(), GenerateFault>
        requires room { HasRoom 1 500000002 self.old }
        requires there { (session < self.old.sessions) × (node < length self.old.graph.nodes) }
        ensures going { OnOk result (self.new
            ≡ record self.old { going = goes_on_by self.old.seed self.old.graph session node time (leaving_from self.old.graph node) self.old.going }) }
        ensures stopped { IfErr result (IsStopped
            (goes_on_by self.old.seed self.old.graph session node time (leaving_from self.old.graph node) self.old.going).replay) }
    {
        if self.graph.edges_from(node).is_empty() {
            return Ok(());
        }
        if time.0 < LAST_TIME {
            return self.play(session, node);
        }
        let who = player_at(self.graph, node);
        self.take(Step::Abandon { who, session })
    }
}

// The time of the frame that was accepted, if this came of the last step.
fn accepted_time(outcome: Option<&Outcome<'_>>) -> Option<Time>
    ensures { result ≡ accepted_time (option_map (λ o. outcome_of o.now) outcome.entry) }
{
    match outcome {
        Some(Outcome::Started(begun)) => received_time(&begun.event),
        Some(Outcome::Received(receipt)) => received_time(receipt.event()),
        _ => None,
    }
}

// The time of a receipt.
fn received_time(event: &Event) -> Option<Time>
    ensures { result ≡ accepted_time (Some (Happened (event_of event.now))) }
{
    match event {
        Event::Started { .. } => None,
        Event::Sent { .. } => None,
        Event::Received { time, .. } => Some(*time),
    }
}
