//! What a step gives the outside: first its frame, then its line.
ghost use Rattle.std.specs.Prelude.{◌≡◌, ◌≢◌, ◌≤◌, Err, OnErr, OnOk};
ghost use Rattle.sg_base.specs.Outside.{HasRisen, Appends, AppendsPrefix};
ghost use Rattle.sg_play.specs.Faults.{CountsFaults};
ghost use Rattle.sg_play.specs.Posting.{frames_made};

use crate::PlayFault;
use sg_base::{Addr, Link, Sealed, Sink, write_all};

/// The line of a step, and its frame, if it sends one, with the address of its receiver. A made frame must be spent: `post` does.
pub(crate) struct OutputStep {
    pub line: Vec<u8>,
    pub frame: Option<(Addr, Sealed)>,
}

/// Sends the frame of a step, if there is one, and writes its line when the link has taken the frame. It takes no memory.
pub(crate) fn post<L: Link, O: Sink>(
    made: OutputStep,
    link: &mut L,
    out: &mut O,
) -> Result<(), PlayFault>
    ensures link_bound { L.bound link.new ≡ L.bound link.old }
    ensures faults { CountsFaults (record { link = L.faults link.old; out = O.faults out.old }) (record { link = L.faults link.new; out = O.faults out.new }) result }
    ensures no_memory { result ≢ Err PlayFault.OutOfMemory }
    ensures deliveries { L.deliveries link.new ≡ L.deliveries link.old }
    ensures line { OnOk result (Appends (O.written out.old) (O.written out.new) made.line.items) }
    ensures frame { result ≢ Err PlayFault.LinkFailed → Appends (L.sent link.old) (L.sent link.new) (frames_made made.frame) }
    ensures prefix { result ≡ Err PlayFault.WriteFailed → AppendsPrefix (O.written out.old) (O.written out.new) made.line.items }
    ensures no_frame { result ≡ Err PlayFault.LinkFailed → L.sent link.new ≡ L.sent link.old }
    ensures no_line { result ≡ Err PlayFault.LinkFailed → O.written out.new ≡ O.written out.old }
{
    let OutputStep { line, frame } = made;
    if send(frame, link).is_err() {
        return Err(PlayFault::LinkFailed);
    }
    match write_all(out, line.as_slice()) {
        Ok(()) => Ok(()),
        Err(_) => Err(PlayFault::WriteFailed),
    }
}

// Sends a frame, if there is one.
fn send<L: Link>(frame: Option<(Addr, Sealed)>, link: &mut L) -> Result<(), PlayFault>
    ensures link_bound { L.bound link.new ≡ L.bound link.old }
    ensures falls { L.faults link.old ≤ L.faults link.new }
    ensures failed { OnErr result (HasRisen (L.faults link.old) (L.faults link.new)) }
    ensures deliveries { L.deliveries link.new ≡ L.deliveries link.old }
    ensures sent { OnOk result (Appends (L.sent link.old) (L.sent link.new) (frames_made frame)) }
    ensures kept { OnErr result (L.sent link.new ≡ L.sent link.old) }
{
    let Some((at, sealed)) = frame else {
        return Ok(());
    };
    match link.send(at, sealed) {
        Ok(()) => Ok(()),
        Err((sealed, _)) => {
            let _ = sealed.release();
            Err(PlayFault::LinkFailed)
        }
    }
}

/// Lets a made frame go that is not sent.
pub(crate) fn let_go(frame: Option<(Addr, Sealed)>) {
    let Some((_at, sealed)) = frame else {
        return;
    };
    let _ = sealed.release();
}
