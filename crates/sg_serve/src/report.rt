//! What is done with the outcome of a call: its join is kept, its line written, and its frame remembered.
ghost use Rattle.std.specs.Prelude.{◌≡◌, ◌⊎◌, ℕ, List, None, Some, IfErr, IfOk, OnErr, IsNone, OnOk, is_some, option_map};
ghost use Rattle.std.specs.Option.{option_copied, option_map_or};
ghost use Rattle.sg_again.specs.LastFrames.{sent};
ghost use Rattle.sg_ledger.specs.Format.{Represents};
ghost use Rattle.sg_model.specs.Names.{Name};
ghost use Rattle.sg_base.specs.declared.address.Addr.{Addr};
ghost use Rattle.sg_play.specs.Faults.{CountsFaultAlone};
ghost use Rattle.sg_play.specs.Played.{Play, called, step_in};
ghost use Rattle.sg_play.specs.Representation.{HasAsked, RepresentsPlay};
ghost use Rattle.sg_protocol.specs.Calls.{Call, Event};
ghost use Rattle.sg_protocol.specs.Past.{node_of};
ghost use Rattle.sg_report.specs.Outcome.{outcome_of};
ghost use Rattle.sg_report.specs.Reported.{Sends, session_reported, sid_left};
ghost use Rattle.sg_serve.specs.Served.{images_if, joins_kept};
ghost use Rattle.sg_serve.specs.Serving.{Serving, as_sent, calls, graphs_with, last_of};
ghost use Rattle.sg_serve.specs.Representation.{HasAskedNode, HasCalled, HasReplied, HoldsJoins, KeepsLedger, LedgerHas, Replied};

use crate::ServeFault;
use crate::frame::copied_if;
use crate::reply::Reply;
use crate::server::Server;
use sg_again::LastFrame;
use sg_base::{Addr, Sealed, Sid};
use sg_graph::Graph;
use sg_joins::{JoinFault, add_join};
use sg_ledger::{Disk, Ledger};
use sg_report::{Outcome, sid_reported};

impl<'p> Server<'p> {
    // Keeps the join of the outcome of a call that makes no frame and leaves no session, if it is one, and then reports the outcome.
    pub(crate) fn join<D: Disk>(
        &mut self,
        outcome: &Outcome<'p>,
        disk: &mut D,
    ) -> Result<Reply, ServeFault>
        requires asked { HasAskedNode self.old (D.may_leave disk.old) outcome.now }
        ensures kept { KeepsLedger D.Disk self.old.ledger disk.old disk.new self.new result }
        ensures replied { (s : Serving) (c : Call) → HasCalled self.old s c outcome.now None → LedgerHas self.old (node_of s.play.past).joins → None ≡ sid_left c
            → Replied (images_if (is_some self.old.ledger) (D.may_leave disk.new)) s self.new (calls s c) result }
    {
        match self.keep_join(outcome, disk) {
            Ok(()) => self.report(&None, outcome, None),
            Err(fault) => Err(fault),
        }
    }

    // Adds the join of the outcome of a call to the ledger, if there is one, and if it is one. The ledger has all joins of the node from before
    // the call, so it doesn't have this one, and it isn't full.
    fn keep_join<D: Disk>(&mut self, outcome: &Outcome<'p>, disk: &mut D) -> Result<(), ServeFault>
        requires asked { HasAskedNode self.old (D.may_leave disk.old) outcome.now }
        ensures disk_bound { D.bound disk.new ≡ D.bound disk.old }
        ensures faults { CountsFaultAlone ServeFault.DiskFailed (D.faults disk.old) (D.faults disk.new) result }
        ensures untouched { IsNone self.old.ledger → disk.new ≡ disk.old }
        ensures causes { IfErr result (λ e. (e ≡ ServeFault.DiskFailed) ⊎ (e ≡ ServeFault.OutOfMemory)) }
        ensures rest { self.new ≡ record self.old { ledger = self.new.ledger } }
        ensures same { is_some self.new.ledger ≡ is_some self.old.ledger }
        ensures holds { OnOk result (HoldsJoins self.new (D.may_leave disk.new)) }
        ensures images { OnErr result ((image : List ℕ) → images_if (is_some self.old.ledger) (D.may_leave disk.new) image
            → Represents image (joins_kept self.old.ledger) ⊎ Represents image self.old.player.node.joins) }
    {
        match &mut self.ledger {
            Some(ledger) => match add_join(ledger, outcome, disk) {
                Ok(()) => Ok(()),
                Err(JoinFault::DiskFailed) => Err(ServeFault::DiskFailed),
                Err(JoinFault::OutOfMemory) => Err(ServeFault::OutOfMemory),
            },
            None => Ok(()),
        }
    }

    // Reports the outcome of a call, and remembers the frame that it made, if it made one.
    pub(crate) fn report(
        &mut self,
        left: &Option<Sid>,
        outcome: &Outcome<'p>,
        frame: Option<(Addr, Sealed)>,
    ) -> Result<Reply, ServeFault>
        ensures node { OnOk result (self.new.player.node ≡ self.old.player.node) }
        ensures ledger { OnOk result (self.new.ledger ≡ self.old.ledger) }
        ensures replied { IfOk result (λ step. (s : Serving) (c : Call) → HasCalled self.old s c outcome.now frame → left.now ≡ sid_left c → HasReplied self.new step (calls s c)) }
        ensures memory { IfErr result (λ e. e ≡ ServeFault.OutOfMemory) }
    {
        let frame = opened(number_of(outcome), frame);
        let copy = copied_if(self.alloc, &frame)?;
        let line = self.report_line(left, outcome)?;
        self.add_graph(outcome.graph())?;
        let session = session_of(left, outcome);
        self.remember(session, frame)?;
        Ok(Reply::new(line, copy))
    }

    // The line of the outcome of a call.
    fn report_line(
        &mut self,
        left: &Option<Sid>,
        outcome: &Outcome<'p>,
    ) -> Result<Vec<u8>, ServeFault>
        ensures rest { OnOk result (self.new ≡ record self.old { player = self.new.player }) }
        ensures node { OnOk result (self.new.player.node ≡ self.old.player.node) }
        ensures reported { IfOk result (λ line. (p : Play) (c : Call) (made : List (Addr × List ℕ)) → HasAsked self.old.player p c outcome.now made → left.now ≡ sid_left c
            → (line.items ≡ (step_in p c).line) × RepresentsPlay self.new.player (called p c)) }
        ensures memory { IfErr result (λ e. e ≡ ServeFault.OutOfMemory) }
    {
        match self.player.report(*left, outcome) {
            Ok(line) => Ok(line),
            Err(_) => Err(ServeFault::OutOfMemory),
        }
    }

    // Adds the graph of an event, if a session has begun by it.
    fn add_graph(&mut self, graph: Option<&'p Graph>) -> Result<(), ServeFault>
        ensures rest { OnOk result (self.new ≡ record self.old { graphs = self.new.graphs }) }
        ensures graphs { OnOk result ((p : Play) → RepresentsPlay self.old.player p → self.new.graphs ≡ graphs_with p (option_copied graph.entry) self.old.graphs) }
        ensures memory { IfErr result (λ e. e ≡ ServeFault.OutOfMemory) }
    {
        if self.graphs.len() >= self.player.sessions() {
            return Ok(());
        }
        match self.graphs.push(graph) {
            Ok(()) => Ok(()),
            Err(_) => Err(ServeFault::OutOfMemory),
        }
    }

    // Remembers the frame that a session sent, if it sent one, and that the session has ended, if it is not live any more.
    fn remember(&mut self, session: Option<Sid>, frame: Option<LastFrame>) -> Result<(), ServeFault>
        ensures rest { OnOk result (self.new ≡ record self.old { last = self.new.last }) }
        ensures last { OnOk result ((p : Play) → RepresentsPlay self.old.player p → self.new.last ≡ last_of p session frame self.old.last) }
        ensures memory { IfErr result (λ e. e ≡ ServeFault.OutOfMemory) }
    {
        let Some(sid) = session else {
            return Ok(());
        };
        self.keep_frame(sid, frame)?;
        if self.is_live(&sid) {
            return Ok(());
        }
        match self.last.ended(&sid) {
            Ok(()) => Ok(()),
            Err(_) => Err(ServeFault::OutOfMemory),
        }
    }

    // Remembers the frame that a session sent, if it sent one.
    fn keep_frame(&mut self, sid: Sid, frame: Option<LastFrame>) -> Result<(), ServeFault>
        ensures kept { OnOk result (self.new ≡ record self.old { last = option_map_or (sent self.old.last sid) frame self.old.last }) }
        ensures memory { IfErr result (λ e. e ≡ ServeFault.OutOfMemory) }
    {
        let Some(frame) = frame else {
            return Ok(());
        };
        match self.last.sent(sid, frame) {
            Ok(()) => Ok(()),
            Err(_) => Err(ServeFault::OutOfMemory),
        }
    }
}

// The session that a line names: that of the outcome's event, or the one that was left.
fn session_of(left: &Option<Sid>, outcome: &Outcome<'_>) -> Option<Sid>
    ensures { result ≡ session_reported left.now (outcome_of outcome.now) }
{
    match outcome {
        Outcome::Abandoned => *left,
        _ => sid_reported(outcome),
    }
}

// The number of the frame that an outcome has, or 0 if it has none.
fn number_of(outcome: &Outcome<'_>) -> u64
    ensures { (e : Event) (to : Name) (number : ℕ) → outcome_of outcome.now ≡ Sends e to number → result ≡ number }
{
    match outcome {
        Outcome::Sent { frame, .. } => *frame,
        _ => 0,
    }
}

// A made frame of this number. It takes no memory.
fn opened(number: u64, frame: Option<(Addr, Sealed)>) -> Option<LastFrame>
    ensures { result ≡ option_map (as_sent number) frame }
{
    match frame {
        Some((at, sealed)) => {
            let (to, bytes) = sealed.release();
            Some(LastFrame::new(number, to, at, bytes))
        }
        None => None,
    }
}
