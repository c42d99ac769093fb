//! A link over kept TCP connections.
ghost use Rattle.std.specs.Prelude.{◌≡◌, ◌<◌, ◌≤◌, length, false, None, Err};
ghost use Rattle.sg_base.specs.Outside.{HasRisen};
ghost use Rattle.sg_model.specs.Limits.{most_frame_bytes};

use crate::conns::{KeptConns, Line};
use crate::giving;
use crate::intake::Intake;
use mio::net::TcpListener;
use sg_base::{Addr, Failed, Link, LinkFault, Sealed};
use sg_link::socket_addr;
use sg_link::waiting::{GiveFault, give_all};
use sg_wait::TimedLink;
use std::alloc::{Alloc, Global};
use std::net::Net;
use std::time::{Clock, Duration, Instant};

/// The most bytes of a message.
const MESSAGE: usize = 60_004;

/// How long a send waits, in seconds.
const SEND_SECONDS: u64 = 1;

/// A link over TCP. It waits at no address, and sends nothing, until it is opened.
///
/// It reads up to 256 accepted connections side by side, one message after the other in turn. If more are offered than these, or than the
/// system has room for, the one that was silent longest gives way; if none is open and there is no room, what is offered waits. One that
/// brings a length of 0 or above 60,000 is closed.
///
/// A send goes over the connection that is kept to its address, or a new one if there is none, or that one broke; a close by the peer before
/// the send is seen too. It fails if the peer doesn't listen, or doesn't take it within a second. A connection that it kept is closed
/// after 64 messages, and at the next call, or while that waits, if a second went by without one. While a send waits, what is offered is
/// taken in, up to 4,194,304 bytes and 65,536 frames, and is handed out first. That a peer has a message that was sent is not known.
#[derive(Drop)]
pub struct TcpPort<R> {
    rt: R,
    intake: Option<Intake>,
    kept: KeptConns,
    message: Vec<u8>,
    bound: Option<Addr>,
    faults: u64,
}

impl<R: Net + Clock + Alloc<A = Global> + Drop> TcpPort<R> {
    /// A link that is not open, with a count of faults of 0. It takes no memory.
    pub fn new(rt: R) -> TcpPort<R>
        ensures faults { ⟦<TcpPort<R> as Link>⟧.faults result ≡ 0 }
        ensures bound { ⟦<TcpPort<R> as Link>⟧.bound result ≡ None }
    {
        let alloc = rt.alloc();
        TcpPort {
            rt,
            intake: None,
            kept: KeptConns::new(alloc),
            message: Vec::new(alloc),
            bound: None,
            faults: 0,
        }
    }

    // The next frame, or `None` if none came within the time, if there is a limit.
    fn next(
        &mut self,
        alloc: Global,
        within: Option<Duration>,
    ) -> Result<Option<Vec<u8>>, LinkFault>
        ensures never_falls { self.old.faults ≤ self.new.faults }
        ensures failed { result ≡ Err LinkFault.Failed → HasRisen self.old.faults self.new.faults }
        ensures kept_bound { self.new.bound ≡ self.old.bound }
    {
        let came = match &mut self.intake {
            Some(intake) => intake.next(&self.rt, alloc, &mut self.kept, within),
            None => Err(LinkFault::Failed),
        };
        if matches!(came, Err(LinkFault::Failed)) {
            count_fault(&mut self.faults);
        }
        came
    }

    // Sends a frame, and returns whether it was taken.
    fn give(&mut self, to: Addr, frame: &[u8]) -> bool
        requires { length frame.now ≤ most_frame_bytes }
        ensures never_falls { self.old.faults ≤ self.new.faults }
        ensures failed { result ≡ false → HasRisen self.old.faults self.new.faults }
        ensures kept_bound { self.new.bound ≡ self.old.bound }
    {
        let given = match &mut self.intake {
            Some(intake) => send_frame(
                &self.rt,
                intake,
                &mut self.kept,
                &mut self.message,
                to,
                frame,
            ),
            None => false,
        };
        if !given {
            count_fault(&mut self.faults);
        }
        given
    }
}

// Counts one more call that failed.
fn count_fault(faults: &mut u64)
    ensures counted { HasRisen faults.old faults.new }
    ensures never_falls { faults.old ≤ faults.new }
{
    *faults = faults.saturating_add(1);
}

// Listens at an address from now on, and returns whether the system could, and there was memory for what comes in.
fn listen<R: Net + Alloc<A = Global>>(rt: &R, intake: &mut Option<Intake>, at: Addr) -> bool {
    let Ok(listener) = TcpListener::bind(rt, socket_addr(at)) else {
        return false;
    };
    if let Some(intake) = intake {
        return intake.listen(listener);
    }
    *intake = Intake::new(rt, rt.alloc(), listener);
    intake.is_some()
}

// Sends the message of a frame over the connection that is kept to an address, or over a new one, and returns whether it was taken.
fn send_frame<R: Net + Clock>(
    rt: &R,
    intake: &mut Intake,
    kept: &mut KeptConns,
    message: &mut Vec<u8>,
    to: Addr,
    frame: &[u8],
) -> bool
    requires { length frame.now ≤ most_frame_bytes }
{
    let _ = kept.close_resting(rt);
    let Ok(begun) = Instant::now(rt) else {
        return false;
    };
    if giving::write_message(message, frame).is_err() {
        return false;
    }
    let bytes = message.as_slice();
    let given = match kept.take(to) {
        Some(line) => give_over(rt, intake, kept, line, bytes, begun),
        None => Err(GiveFault::Broken),
    };
    if given != Err(GiveFault::Broken) {
        return given.is_ok();
    }
    let within = Duration::from_secs(SEND_SECONDS);
    match giving::connect(rt, intake, kept, socket_addr(to), begun, within) {
        Ok(stream) => {
            let line = Line {
                to,
                stream,
                given: 0,
            };
            give_over(rt, intake, kept, line, bytes, begun).is_ok()
        }
        Err(_) => false,
    }
}

// Gives a message to a connection, and keeps that if all was taken.
fn give_over<C: Clock>(
    clock: &C,
    intake: &mut Intake,
    kept: &mut KeptConns,
    mut line: Line,
    bytes: &[u8],
    begun: Instant,
) -> Result<(), GiveFault> {
    let within = Duration::from_secs(SEND_SECONDS);
    give_all(clock, intake, &mut line.stream, bytes, begun, within)?;
    kept.keep(clock, line);
    Ok(())
}

impl<R: Net + Clock + Alloc<A = Global> + Drop> Link for TcpPort<R> {
    ghost use Rattle.std.specs.Prelude.{None};

    ghost faults = { λ c. c.faults };

    ghost bound = { λ c. c.bound };

    ghost deliveries = { λ _. None };

    ghost sent = { λ _. None };

    /// It fails too if there is no memory for what comes in.
    fn open(&mut self, at: Addr) -> Result<(), Failed> {
        if self.kept.make_room().is_ok()
            && self.message.reserve(MESSAGE).is_ok()
            && listen(&self.rt, &mut self.intake, at)
        {
            self.bound = Some(at);
            return Ok(());
        }
        count_fault(&mut self.faults);
        Err(Failed)
    }

    fn recv(&mut self, alloc: Global) -> Result<Option<Vec<u8>>, LinkFault> {
        self.next(alloc, None)
    }

    fn send(&mut self, to: Addr, frame: Sealed) -> Result<(), (Sealed, Failed)> {
        if self.give(to, frame.bytes()) {
            let _ = frame.release();
            return Ok(());
        }
        Err((frame, Failed))
    }
}

impl<R: Net + Clock + Alloc<A = Global> + Drop> TimedLink for TcpPort<R> {
    ghost use Rattle.std.specs.Prelude.{None};

    ghost coming = { λ _. None };

    fn open_at(&mut self, at: Addr) -> Result<(), Failed> {
        self.open(at)
    }

    fn recv_within(
        &mut self,
        alloc: Global,
        within: Option<u32>,
    ) -> Result<Option<Vec<u8>>, LinkFault> {
        self.next(alloc, limit(within))
    }

    fn post(&mut self, to: Addr, frame: &[u8]) -> Result<(), Failed> {
        if self.give(to, frame) {
            return Ok(());
        }
        Err(Failed)
    }
}

// A limit in milliseconds, as a time.
fn limit(within: Option<u32>) -> Option<Duration> {
    match within {
        Some(millis) => Some(Duration::from_millis(u64::from(millis))),
        None => None,
    }
}
