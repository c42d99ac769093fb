//! The outcome of a step.
ghost use Rattle.std.specs.Prelude.{◌≡◌, ℕ, Result, Some, None, option_map};
ghost use Rattle.std.specs.Option.{option_copied};
ghost use Rattle.sg_receipt.specs.Answers.{answer_of_delivery, answer_of_start, graph_of_delivery, graph_of_start};
ghost use Rattle.sg_protocol.specs.Calls.{sid_of};
ghost use Rattle.sg_walk.specs.Model.{event_of};
ghost use Rattle.sg_report.specs.Outcome.{graph_in, graph_of_event, outcome_of};
ghost use Rattle.sg_report.specs.Reported.{event_reported, reported_answer, sid_reported};

use sg_base::{Name, Sid};
use sg_graph::Graph;
use sg_receipt::{ActRefusal, DeliveryRefusal, Happened, Receipt, StartRefusal};
use sg_walk::{Event, sid_of};

/// The outcome of a step. What it names by a number has its name in the graph that stands beside, if that has it. None says that memory ran out.
#[derive(Drop)]
pub enum Outcome<'p> {
    /// The principal started a session.
    Started(Happened<'p>),
    /// The principal sent a step.
    Sent {
        /// The event, with the values that were written.
        sent: Happened<'p>,
        /// The principal to whom the frame goes.
        to: Name,
        /// The frame's number, from 1.
        frame: u64,
    },
    /// The principal took a frame.
    Received(Receipt<'p>),
    /// The principal left a session.
    Abandoned,
    /// A frame was made and recorded.
    Crafted {
        /// The frame's number, from 1.
        frame: u64,
    },
    /// No session was started.
    NotStarted(StartRefusal),
    /// The principal didn't act.
    NotActed(ActRefusal<'p>),
    /// No live session was there to leave.
    NotAbandoned,
    /// A delivery was refused.
    NotDelivered(DeliveryRefusal<'p>),
    /// No frame of this number was recorded so far.
    NoFrame,
}

impl<'p> Outcome<'p> {
    /// The outcome of a start. It takes no memory.
    pub fn of_start(answer: Result<Happened<'p>, StartRefusal>) -> Outcome<'p>
        ensures reported { (number : ℕ) → outcome_of result ≡ reported_answer number (answer_of_start answer.entry) }
        ensures graph { graph_in result ≡ graph_of_start answer.entry }
    {
        match answer {
            Ok(begun) => Outcome::Started(begun),
            Err(refusal) => Outcome::NotStarted(refusal),
        }
    }

    /// The outcome of a delivery. It takes no memory.
    pub fn of_delivery(answer: Result<Receipt<'p>, DeliveryRefusal<'p>>) -> Outcome<'p>
        ensures reported { (number : ℕ) → outcome_of result ≡ reported_answer number (answer_of_delivery answer.entry) }
        ensures graph { graph_in result ≡ graph_of_delivery answer.entry }
    {
        match answer {
            Ok(receipt) => Outcome::Received(receipt),
            Err(refusal) => Outcome::NotDelivered(refusal),
        }
    }

    /// The event, if it has one. It takes no memory.
    pub fn event(&self) -> Option<&Event>
        ensures { option_map (λ e. event_of e.now) result ≡ event_reported (outcome_of self.now) }
    {
        match self {
            Outcome::Started(begun) => Some(&begun.event),
            Outcome::Sent { sent, .. } => Some(&sent.event),
            Outcome::Received(receipt) => Some(receipt.event()),
            _ => None,
        }
    }

    /// The graph of the session of the event, if it has one. It takes no memory.
    pub fn graph(&self) -> Option<&'p Graph>
        ensures { option_copied result ≡ graph_of_event self.now }
    {
        match self {
            Outcome::Started(begun) => Some(begun.graph),
            Outcome::Sent { sent, .. } => Some(sent.graph),
            Outcome::Received(receipt) => Some(receipt.graph()),
            _ => None,
        }
    }
}

/// The session of the event of an outcome, if it has one.
pub fn sid_reported(outcome: &Outcome<'_>) -> Option<Sid>
    ensures reported { result ≡ sid_reported (outcome_of outcome.now) }
    ensures event { result ≡ option_map sid_of (event_reported (outcome_of outcome.now)) }
{
    match outcome.event() {
        Some(event) => Some(sid_of(event)),
        None => None,
    }
}
