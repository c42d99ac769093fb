//! What a line of the input is answered, before it is given.
ghost use Rattle.std.specs.Prelude.{◌≡◌, ◌≤◌, Some, IsTrue, OnOk, is_some};
ghost use Rattle.std.specs.Option.{option_copied};
ghost use Rattle.sg_serve.specs.Lines.{Run};
ghost use Rattle.sg_serve.specs.Served.{images_if};
ghost use Rattle.sg_serve.specs.Serving.{Serving, replies};
ghost use Rattle.sg_request.specs.Request.{is_request};
ghost use Rattle.sg_serve.specs.Representation.{ProgressedToAnswer, HoldsJoins, KeepsLedger, Received, Replied, RepresentsServing, found_line, some_ok};

use crate::ServeFault;
use crate::reply::Reply;
use crate::say::{Said, say};
use crate::server::Server;
use sg_answers::Wrong;
use sg_base::{Fresh, LinkFault};
use sg_ledger::Disk;
use sg_request::laws::words_ask;
use sg_request::{Request, read_request};
use sg_script::ScriptStart;
use sg_wait::TimedLink;

impl<'p> Server<'p> {
    // What a line is answered, given without its line feed, or as nothing if it is too long. There is no answer to one that asks for the end.
    pub(crate) fn answer<L: TimedLink, R: Fresh, D: Disk>(
        &mut self,
        line: Option<&[u8]>,
        link: &mut L,
        fresh: &mut R,
        disk: &mut D,
    ) -> Result<Option<Reply>, ServeFault>
        requires holds { HoldsJoins self.old (D.may_leave disk.old) }
        ensures link_bound { L.bound link.new ≡ L.bound link.old }
        ensures kept { KeepsLedger D.Disk self.old.ledger disk.old disk.new self.new result }
        ensures link_falls { L.faults link.old ≤ L.faults link.new }
        ensures sent { L.sent link.new ≡ L.sent link.old }
        ensures answered { (r : Run) → RepresentsServing self.old r.serving → R.random fresh.old ≡ Some r.serving.play.random → L.coming link.old ≡ Some r.coming
            → ProgressedToAnswer (images_if (is_some self.old.ledger) (D.may_leave disk.new)) self.new (R.random fresh.new) (L.coming link.new) (L.faults link.old) (L.faults link.new) r (found_line (option_copied line.entry)) result }
    {
        let Some(bytes) = line else {
            return some_reply(say(self.alloc, Said::Wrong(Wrong::Form)));
        };
        words_ask();
        match read_request(self.alloc, bytes) {
            Ok(Some(Request::Quit)) => Ok(None),
            Ok(Some(Request::Receive(within))) => some_reply(self.receive(within, link, disk)),
            Ok(Some(request)) => some_reply(self.reply(request, fresh, disk)),
            Ok(None) => some_reply(say(self.alloc, Said::Wrong(Wrong::Form))),
            Err(_) => Err(ServeFault::OutOfMemory),
        }
    }

    // What a wait for a delivery comes to: it is given to the node, if one comes.
    fn receive<L: TimedLink, D: Disk>(
        &mut self,
        within: Option<u32>,
        link: &mut L,
        disk: &mut D,
    ) -> Result<Reply, ServeFault>
        requires holds { HoldsJoins self.old (D.may_leave disk.old) }
        ensures link_bound { L.bound link.new ≡ L.bound link.old }
        ensures kept { KeepsLedger D.Disk self.old.ledger disk.old disk.new self.new result }
        ensures link_falls { L.faults link.old ≤ L.faults link.new }
        ensures sent { L.sent link.new ≡ L.sent link.old }
        ensures received { (r : Run) → RepresentsServing self.old r.serving → L.coming link.old ≡ Some r.coming
            → Received (images_if (is_some self.old.ledger) (D.may_leave disk.new)) self.new (L.coming link.new) (L.faults link.old) (L.faults link.new) r (is_some within) result }
    {
        match link.recv_within(self.alloc, within) {
            Ok(found) => self.take(found, disk),
            Err(LinkFault::Failed) => say(self.alloc, Said::Failed),
            Err(LinkFault::OutOfMemory) => Err(ServeFault::OutOfMemory),
        }
    }

    // What a request comes to that asks nothing of the link but to take a frame.
    fn reply<R: Fresh, D: Disk>(
        &mut self,
        request: Request<'_>,
        fresh: &mut R,
        disk: &mut D,
    ) -> Result<Reply, ServeFault>
        requires holds { HoldsJoins self.old (D.may_leave disk.old) }
        requires asked { IsTrue (is_request request) }
        ensures kept { KeepsLedger D.Disk self.old.ledger disk.old disk.new self.new result }
        ensures random { OnOk result ((s : Serving) → RepresentsServing self.old s → R.random fresh.old ≡ Some s.play.random → R.random fresh.new ≡ Some (replies s request.entry).0.play.random) }
        ensures replied { (s : Serving) → RepresentsServing self.old s → R.random fresh.old ≡ Some s.play.random
            → Replied (images_if (is_some self.old.ledger) (D.may_leave disk.new)) s self.new (replies s request.entry) result }
    {
        match request {
            Request::Start {
                graph,
                version,
                names,
            } => {
                let start = ScriptStart {
                    graph,
                    version,
                    cast: names,
                };
                self.start(&start, fresh, disk)
            }
            Request::Act {
                session,
                label,
                values,
            } => self.act(session, &label, values.as_slice(), fresh),
            Request::Abandon(number) => self.abandon(number),
            Request::Again(number) => self.again(number),
            Request::Turn(number) => self.turn(number),
            Request::Id(number) => self.id(number),
            Request::Receive(_) => Ok(Reply::new(Vec::new(self.alloc), None)),
            Request::Quit => Ok(Reply::new(Vec::new(self.alloc), None)),
        }
    }
}

// An answer, if there is one.
fn some_reply(reply: Result<Reply, ServeFault>) -> Result<Option<Reply>, ServeFault>
    ensures { result ≡ some_ok reply }
{
    match reply {
        Ok(reply) => Ok(Some(reply)),
        Err(fault) => Err(fault),
    }
}
