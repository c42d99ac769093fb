//! The requests that call the node: a start, an act, a leaving, and a delivery.
ghost use Rattle.std.specs.Prelude.{◌≡◌, Some, option_map, IfErr, IfOk, IsTrue, OnOk, is_some};
ghost use Rattle.std.specs.List.{list_all};
ghost use Rattle.sg_request.specs.Request.{is_request};
ghost use Rattle.sg_request.specs.declared.request.Request.TheVariants as request;
ghost use Rattle.sg_sched.specs.Format.Forms.{is_assignment};
ghost use Rattle.sg_serve.specs.Served.{images_if};
ghost use Rattle.sg_serve.specs.Serving.{Serving, acts, acts_by, calls, graph_at, of_session, starts, takes};
ghost use Rattle.sg_serve.specs.Representation.{HasReplied, HoldsJoins, KeepsLedger, Replied, RepresentsServing};
ghost use Rattle.sg_play.specs.Representation.{KeepsJoins};
ghost use Rattle.sg_protocol.specs.Calls.{Abandon};
ghost use Rattle.sg_walk.specs.Model.{values_of};

use crate::ServeFault;
use crate::reply::Reply;
use crate::say::{Said, say};
use crate::server::Server;
use sg_answers::Wrong;
use sg_base::{Fresh, Label, Name, Seq, Sid, Value, Var};
use sg_ledger::Disk;
use sg_play::draw;
use sg_sched::Assignment;
use sg_sched::index::label_index;
use sg_sched_text::{differ, known_values};
use sg_script::ScriptStart;

impl<'p> Server<'p> {
    // Starts a session, with the next sixteen random bytes as its nonce.
    pub(crate) fn start<R: Fresh, D: Disk>(
        &mut self,
        start_of: &ScriptStart,
        fresh: &mut R,
        disk: &mut D,
    ) -> Result<Reply, ServeFault>
        requires holds { HoldsJoins self.old (D.may_leave disk.old) }
        requires asked { IsTrue (is_request (request.Start start_of.now.graph start_of.now.version start_of.now.cast)) }
        ensures kept { KeepsLedger D.Disk self.old.ledger disk.old disk.new self.new result }
        ensures random { OnOk result ((s : Serving) → RepresentsServing self.old s → R.random fresh.old ≡ Some s.play.random → R.random fresh.new ≡ Some (starts s start_of.now).0.play.random) }
        ensures replied { (s : Serving) → RepresentsServing self.old s → R.random fresh.old ≡ Some s.play.random
            → Replied (images_if (is_some self.old.ledger) (D.may_leave disk.new)) s self.new (starts s start_of.now) result }
    {
        if self.player.programs().by_name(&start_of.graph).is_none() {
            return say(self.alloc, Said::Wrong(Wrong::Unknown));
        }
        let nonce = fresh.next();
        match self.player.ask_start(start_of, nonce) {
            Ok(outcome) => {
                let reply = self.join(&outcome, disk);
                drop(outcome);
                reply
            }
            Err(_) => Err(ServeFault::OutOfMemory),
        }
    }

    // Takes a delivery, if one came.
    pub(crate) fn take<D: Disk>(
        &mut self,
        found: Option<Vec<u8>>,
        disk: &mut D,
    ) -> Result<Reply, ServeFault>
        requires holds { HoldsJoins self.old (D.may_leave disk.old) }
        ensures kept { KeepsLedger D.Disk self.old.ledger disk.old disk.new self.new result }
        ensures replied { (s : Serving) → RepresentsServing self.old s
            → Replied (images_if (is_some self.old.ledger) (D.may_leave disk.new)) s self.new (takes s (option_map (λ bytes. bytes.items) found)) result }
    {
        let Some(bytes) = found else {
            return say(self.alloc, Said::Quiet);
        };
        match self.player.ask_deliver(bytes.as_slice()) {
            Ok(outcome) => {
                let reply = self.join(&outcome, disk);
                drop(outcome);
                reply
            }
            Err(_) => Err(ServeFault::OutOfMemory),
        }
    }

    // Leaves the session of a number.
    pub(crate) fn abandon(&mut self, number: u32) -> Result<Reply, ServeFault>
        ensures joins { OnOk result (KeepsJoins self.old.player.node self.new.player.node) }
        ensures ledger { OnOk result (self.new.ledger ≡ self.old.ledger) }
        ensures replied { IfOk result (λ step. (s : Serving) → RepresentsServing self.old s → HasReplied self.new step (of_session s number (λ sid. calls s (Abandon sid)))) }
        ensures memory { IfErr result (λ e. e ≡ ServeFault.OutOfMemory) }
    {
        let Some(sid) = self.sid(number) else {
            return say(self.alloc, Said::Unknown(number));
        };
        let outcome = self.player.ask_abandon(sid);
        let reply = self.report(&Some(sid), &outcome, None);
        drop(outcome);
        reply
    }

    // Acts in the session of a number, by the graph of the session.
    pub(crate) fn act<R: Fresh>(
        &mut self,
        number: u32,
        label: &Name,
        values: &[Assignment<'_>],
        fresh: &mut R,
    ) -> Result<Reply, ServeFault>
        requires assigned { IsTrue (list_all is_assignment values.now) }
        ensures joins { OnOk result (KeepsJoins self.old.player.node self.new.player.node) }
        ensures ledger { OnOk result (self.new.ledger ≡ self.old.ledger) }
        ensures replied { IfOk result (λ step. (s : Serving) → RepresentsServing self.old s → R.random fresh.old ≡ Some s.play.random → HasReplied self.new step (of_session s number (λ sid. acts_by s sid (graph_at s number) label.now values.now))) }
        ensures random { OnOk result ((s : Serving) → RepresentsServing self.old s → R.random fresh.old ≡ Some s.play.random → R.random fresh.new ≡ Some (of_session s number (λ sid. acts_by s sid (graph_at s number) label.now values.now)).0.play.random) }
        ensures memory { IfErr result (λ e. e ≡ ServeFault.OutOfMemory) }
    {
        let Some(sid) = self.sid(number) else {
            return say(self.alloc, Said::Unknown(number));
        };
        let Some(graph) = self.graph(number) else {
            return say(self.alloc, Said::Wrong(Wrong::Unknown));
        };
        let Some(label) = label_index(graph, label) else {
            return say(self.alloc, Said::Wrong(Wrong::Unknown));
        };
        let known = match known_values(self.alloc, graph, values) {
            Ok(Some(known)) => known,
            Ok(None) => return say(self.alloc, Said::Wrong(Wrong::Unknown)),
            Err(_) => return Err(ServeFault::OutOfMemory),
        };
        match differ(self.alloc, values) {
            Ok(true) => self.act_with(sid, label, known.as_slice(), fresh),
            Ok(false) => say(self.alloc, Said::Wrong(Wrong::Twice)),
            Err(_) => Err(ServeFault::OutOfMemory),
        }
    }

    // Acts in a session with these values, with a confounder to hide each of them.
    fn act_with<R: Fresh>(
        &mut self,
        sid: Sid,
        label: Label,
        values: &[(Var, Value)],
        fresh: &mut R,
    ) -> Result<Reply, ServeFault>
        ensures joins { OnOk result (KeepsJoins self.old.player.node self.new.player.node) }
        ensures ledger { OnOk result (self.new.ledger ≡ self.old.ledger) }
        ensures replied { IfOk result (λ step. (s : Serving) → RepresentsServing self.old s → R.random fresh.old ≡ Some s.play.random → HasReplied self.new step (acts s sid label (values_of values.now))) }
        ensures random { OnOk result ((s : Serving) → R.random fresh.old ≡ Some s.play.random → R.random fresh.new ≡ Some (acts s sid label (values_of values.now)).0.play.random) }
        ensures memory { IfErr result (λ e. e ≡ ServeFault.OutOfMemory) }
    {
        let Ok(drawn) = draw(self.alloc, fresh, values.len()) else {
            return Err(ServeFault::OutOfMemory);
        };
        match self.player.ask_act(sid, label, values, drawn.as_slice()) {
            Ok((outcome, frame)) => {
                let reply = self.report(&None, &outcome, frame);
                drop(outcome);
                reply
            }
            Err(_) => Err(ServeFault::OutOfMemory),
        }
    }
}
