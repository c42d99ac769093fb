//! What a line is answered, as a value, and how it is given to the outside.
ghost use Rattle.std.specs.Prelude.{◌≡◌, ◌≤◌, [], true, false, IfErr, OnErr, OnOk};
ghost use Rattle.sg_base.specs.Outside.{HasRisen, Appends, AppendsPrefix};
ghost use Rattle.sg_play.specs.Faults.{CountsFaultAlone};
ghost use Rattle.sg_serve.specs.Lines.{given};
ghost use Rattle.sg_serve.specs.Posted.{posted};

use crate::ServeFault;
use sg_again::LastFrame;
use sg_base::{Link, Sink, write_all};
use sg_wait::TimedLink;
use std::marker::Model;

// An answer, and the frame that is to go out with it, if one is.
#[derive(Drop)]
pub(crate) struct Reply {
    text: Vec<u8>,
    frame: Option<LastFrame>,
}

impl Model for Reply {
    ghost use Rattle.sg_play.specs.Steps.{Step};
    ghost use Rattle.sg_serve.specs.Posted.{posted};

    ghost Value = { Step };

    ghost view = { λ r. record { line = r.text.items; frames = posted r.frame } };
}

impl Reply {
    ghost use Rattle.sg_serve.specs.Representation.{AnswerIsOut};

    // An answer with a frame, or without one.
    pub fn new(text: Vec<u8>, frame: Option<LastFrame>) -> Reply
        ensures { result ≡ record { line = text.items; frames = posted frame } }
    {
        Reply { text, frame }
    }

    // Sends the frame, if there is one, and then writes the answer, which says so if the link doesn't take the frame. It takes no
    // memory.
    pub fn give<L: TimedLink, O: Sink>(self, link: &mut L, out: &mut O) -> Result<(), ServeFault>
        ensures link_bound { L.bound link.new ≡ L.bound link.old }
        ensures faults { CountsFaultAlone ServeFault.WriteFailed (O.faults out.old) (O.faults out.new) result }
        ensures causes { IfErr result (λ e. e ≡ ServeFault.WriteFailed) }
        ensures is_out { AnswerIsOut (record { written = O.written out.old; sent = L.sent link.old; coming = L.coming link.old; failed = L.faults link.old })
            (record { written = O.written out.new; sent = L.sent link.new; coming = L.coming link.new; failed = L.faults link.new }) self result }
    {
        let took = self.send(link);
        self.write(took, out)
    }

    // Sends the frame, if there is one, and says whether the link took it.
    fn send<L: TimedLink>(&self, link: &mut L) -> bool
        ensures link_bound { L.bound link.new ≡ L.bound link.old }
        ensures falls { L.faults link.old ≤ L.faults link.new }
        ensures risen { result ≡ false → HasRisen (L.faults link.old) (L.faults link.new) }
        ensures quiet { self.now.frames ≡ [] → result ≡ true }
        ensures coming { L.coming link.new ≡ L.coming link.old }
        ensures frames { Appends (L.sent link.old) (L.sent link.new) (given result self.now).frames }
    {
        match &self.frame {
            Some(frame) => match link.post(frame.at(), frame.bytes()) {
                Ok(()) => true,
                Err(_) => false,
            },
            None => true,
        }
    }

    // Writes the answer, of whose frame this says whether the link took it.
    fn write<O: Sink>(&self, took: bool, out: &mut O) -> Result<(), ServeFault>
        ensures faults { CountsFaultAlone ServeFault.WriteFailed (O.faults out.old) (O.faults out.new) result }
        ensures causes { IfErr result (λ e. e ≡ ServeFault.WriteFailed) }
        ensures whole { OnOk result (Appends (O.written out.old) (O.written out.new) (given took self.now).line) }
        ensures prefix { OnErr result (AppendsPrefix (O.written out.old) (O.written out.new) (given took self.now).line) }
    {
        if took || self.frame.is_none() {
            return write_text(self.text.as_slice(), out);
        }
        write_text(b"unsent ", out)?;
        write_text(self.text.as_slice(), out)
    }
}

// Writes a text.
fn write_text<O: Sink>(text: &[u8], out: &mut O) -> Result<(), ServeFault>
    ensures faults { CountsFaultAlone ServeFault.WriteFailed (O.faults out.old) (O.faults out.new) result }
    ensures causes { IfErr result (λ e. e ≡ ServeFault.WriteFailed) }
    ensures whole { OnOk result (Appends (O.written out.old) (O.written out.new) text.now) }
    ensures prefix { OnErr result (AppendsPrefix (O.written out.old) (O.written out.new) text.now) }
{
    match write_all(out, text) {
        Ok(()) => Ok(()),
        Err(_) => Err(ServeFault::WriteFailed),
    }
}
