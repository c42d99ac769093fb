//! What a node answers: what happened, with that by which its numbers have names.
ghost use Rattle.std.specs.Prelude.{◌≡◌, ◌<◌, length, None};
ghost use Rattle.std.specs.Option.{option_copied};
ghost use Rattle.sg_walk.specs.Model.{event_of};
ghost use Rattle.sg_receipt.specs.Receipts.{IsWalkOf};

use sg_base::Label;
use sg_crypt::SharedCast;
use sg_graph::Graph;
use sg_program::Program;
use sg_vis::ViewId;
use sg_walk::Event;
use std::marker::Model;

/// What a start or an act brought about, with the graph of the session, which has the event's role, label and variables.
#[derive(Drop)]
pub struct Happened<'p> {
    /// The event.
    pub event: Event,
    /// The graph of its session.
    pub graph: &'p Graph,
}

/// A frame that was received: the event, the program of the receiver, the number of the view that the frame shows in the program's table,
/// and the cast, if the frame joined. A clause sees these.
#[derive(Drop)]
pub struct Receipt<'p> {
    event: Event,
    program: &'p Program,
    view: ViewId,
    cast: Option<SharedCast>,
}

impl<'p> Model for Receipt<'p> {
    ghost use Rattle.sg_receipt.specs.Receipts.{Receipt, receipt_of, HoldsReceipt};

    ghost Value = { Receipt };

    ghost view = { receipt_of };

    ghost invariant = { HoldsReceipt };
}

impl<'p> Receipt<'p> {
    ghost use Rattle.sg_receipt.specs.Receipts.{Receipt};

    /// A receipt of its parts. It takes no memory.
    pub fn new(
        event: Event,
        program: &'p Program,
        view: ViewId,
        cast: Option<SharedCast>,
    ) -> Receipt<'p>
        requires { view < length program.now.views }
        ensures { result ≡ record { event = event_of event; program = program.entry.now; view = view; cast = cast } }
    {
        Receipt {
            event,
            program,
            view,
            cast,
        }
    }

    /// The event. It takes no memory.
    pub fn event(&self) -> &Event
        ensures { event_of result.now ≡ self.now.event }
    {
        &self.event
    }

    /// The graph of the session, which has the event's role, label and variables. It takes no memory.
    pub fn graph(&self) -> &'p Graph
        ensures { result.now ≡ self.now.program.graph }
    {
        self.program.graph()
    }

    /// The number of the view that the frame shows, in the table of the receiver's program. It takes no memory.
    pub fn view(&self) -> ViewId
        ensures view { result ≡ self.now.view }
        ensures there { result < length self.now.program.views }
    {
        self.view
    }

    /// A walk from the start, along the edges of the graph, that shows the receiver this view. It takes no memory.
    pub fn walk(&self) -> &'p [Label]
        ensures { IsWalkOf self.now result.now }
    {
        self.program.views().example(self.view)
    }

    /// The cast, if the frame joined. It takes no memory.
    pub fn cast(&self) -> Option<&SharedCast>
        ensures { option_copied result ≡ self.now.cast }
    {
        self.cast.as_ref()
    }

    /// Takes the cast out, if the frame joined and it wasn't taken before, so that it isn't kept as long as the receipt. It takes no memory.
    pub fn take_cast(&mut self) -> Option<SharedCast>
        ensures cast { result ≡ self.old.cast }
        ensures rest { self.new ≡ record self.old { cast = None } }
    {
        self.cast.take()
    }

    /// The event alone. It takes no memory.
    pub fn into_event(self) -> Event
        ensures { event_of result ≡ self.entry.event }
    {
        let Receipt { event, .. } = self;
        event
    }
}
