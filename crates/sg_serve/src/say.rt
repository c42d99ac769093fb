//! Answers that are no step's line.
ghost use Rattle.std.specs.Prelude.{◌≡◌, ◌++◌, [], Some, IfErr, IfOk, OnOk};
ghost use Rattle.sg_answers.specs.Answers.{again_text, id_text, turn_text};
ghost use Rattle.sg_serve.specs.Posted.{posted};
ghost use Rattle.sg_serve.specs.Said.{said_text};
ghost use Rattle.sg_serve.specs.Serving.{Serving, of_session, says, sends_again, turn_line};
ghost use Rattle.sg_serve.specs.Representation.{HasReplied, RepresentsServing};

use crate::ServeFault;
use crate::frame::copied;
use crate::reply::Reply;
use crate::server::Server;
use sg_again::LastFrame;
use sg_answers::{
    Wrong, put_again, put_failed, put_id, put_nothing, put_over, put_quiet, put_turn, put_unknown,
    put_waits, put_wrong,
};
use sg_base::{ByteOut, NodeId, OutOfMemory, Sid};
use sg_graph::Graph;
use std::alloc::Global;

// An answer that is no step's line, and needs no graph.
#[derive(Drop)]
pub(crate) enum Said {
    // What is wrong with a line.
    Wrong(Wrong),
    // There is no session of this number.
    Unknown(u32),
    // No delivery came.
    Quiet,
    // The link can't give one.
    Failed,
    // No frame of the session of this number is kept.
    Nothing(u32),
    // The session of this number waits.
    Waits(u32),
    // It is live no more.
    Over(u32),
    // Its identifier.
    Id(u32, Sid),
}

// That answer alone.
pub(crate) fn say(alloc: Global, said: Said) -> Result<Reply, ServeFault>
    ensures text { IfOk result (λ r. r ≡ record { line = said_text said; frames = [] }) }
    ensures memory { IfErr result (λ e. e ≡ ServeFault.OutOfMemory) }
{
    let mut out = ByteOut::new(alloc);
    match put(&mut out, said) {
        Ok(()) => Ok(Reply::new(out.done(), None)),
        Err(_) => Err(ServeFault::OutOfMemory),
    }
}

// Writes that answer.
fn put(out: &mut ByteOut, said: Said) -> Result<(), OutOfMemory>
    ensures { OnOk result (out.new ≡ out.old ++ said_text said) }
{
    match said {
        Said::Wrong(wrong) => put_wrong(out, wrong),
        Said::Unknown(number) => put_unknown(out, number),
        Said::Quiet => put_quiet(out),
        Said::Failed => put_failed(out),
        Said::Nothing(number) => put_nothing(out, number),
        Said::Waits(number) => put_waits(out, number),
        Said::Over(number) => put_over(out, number),
        Said::Id(number, sid) => put_id(out, number, &sid),
    }
}

// The session of this number is at its turn at this node.
fn say_turn(alloc: Global, number: u32, graph: &Graph, node: NodeId) -> Result<Reply, ServeFault>
    ensures text { IfOk result (λ r. r ≡ record { line = turn_text number graph.now node; frames = [] }) }
    ensures memory { IfErr result (λ e. e ≡ ServeFault.OutOfMemory) }
{
    let mut out = ByteOut::new(alloc);
    match put_turn(&mut out, number, graph, node) {
        Ok(()) => Ok(Reply::new(out.done(), None)),
        Err(_) => Err(ServeFault::OutOfMemory),
    }
}

impl<'p> Server<'p> {
    // The last frame of the session of a number once more.
    pub(crate) fn again(&self, number: u32) -> Result<Reply, ServeFault>
        ensures replied { IfOk result (λ step. (s : Serving) → RepresentsServing self.now s → HasReplied self.now step (of_session s number (sends_again s number))) }
        ensures memory { IfErr result (λ e. e ≡ ServeFault.OutOfMemory) }
    {
        let Some(sid) = self.sid(number) else {
            return say(self.alloc, Said::Unknown(number));
        };
        match self.last.of(&sid) {
            Some(frame) => repeated(self.alloc, frame),
            None => say(self.alloc, Said::Nothing(number)),
        }
    }

    // Where the session of a number is.
    pub(crate) fn turn(&self, number: u32) -> Result<Reply, ServeFault>
        ensures replied { IfOk result (λ step. (s : Serving) → RepresentsServing self.now s → HasReplied self.now step (of_session s number (λ sid. says s (turn_line s number sid)))) }
        ensures memory { IfErr result (λ e. e ≡ ServeFault.OutOfMemory) }
    {
        match self.sid(number) {
            Some(sid) => self.turn_of(number, sid),
            None => say(self.alloc, Said::Unknown(number)),
        }
    }

    // Where a session is that has this number.
    fn turn_of(&self, number: u32, sid: Sid) -> Result<Reply, ServeFault>
        ensures text { IfOk result (λ r. (s : Serving) → RepresentsServing self.now s → r ≡ record { line = turn_line s number sid; frames = [] }) }
        ensures memory { IfErr result (λ e. e ≡ ServeFault.OutOfMemory) }
    {
        let Some(graph) = self.player.graph_of(&sid) else {
            return say(self.alloc, Said::Over(number));
        };
        match self.player.turn(sid) {
            Some(node) => say_turn(self.alloc, number, graph, node),
            None => say(self.alloc, Said::Waits(number)),
        }
    }

    // The identifier of the session of a number.
    pub(crate) fn id(&self, number: u32) -> Result<Reply, ServeFault>
        ensures replied { IfOk result (λ step. (s : Serving) → RepresentsServing self.now s → HasReplied self.now step (of_session s number (λ sid. says s (id_text number sid)))) }
        ensures memory { IfErr result (λ e. e ≡ ServeFault.OutOfMemory) }
    {
        match self.sid(number) {
            Some(sid) => say(self.alloc, Said::Id(number, sid)),
            None => say(self.alloc, Said::Unknown(number)),
        }
    }
}

// A frame that was sent before, once more.
fn repeated(alloc: Global, frame: &LastFrame) -> Result<Reply, ServeFault>
    ensures frame { IfOk result (λ r. r ≡ record { line = again_text frame.now.number frame.now.to; frames = posted (Some frame.now) }) }
    ensures memory { IfErr result (λ e. e ≡ ServeFault.OutOfMemory) }
{
    let mut out = ByteOut::new(alloc);
    let to = frame.to();
    let Ok(()) = put_again(&mut out, frame.number(), &to) else {
        return Err(ServeFault::OutOfMemory);
    };
    match copied(alloc, frame) {
        Ok(frame) => Ok(Reply::new(out.done(), Some(frame))),
        Err(_) => Err(ServeFault::OutOfMemory),
    }
}
