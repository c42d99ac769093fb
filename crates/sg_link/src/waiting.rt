//! How one who sends over connections waits for them, and takes in what is offered meanwhile.
ghost use Rattle.std.specs.Prelude.{◌<◌, ◌≤◌, length, IfOk};

use crate::watch::left;
use mio::net::TcpStream;
use sg_base::Failed;
use std::io::{ErrorKind, Write};
use std::time::{Clock, Duration, Instant};

/// How long the first attempt to connect waits for an answer, in milliseconds. Each further one waits twice as long as the one before.
const FIRST_MILLIS: u64 = 200;

/// Who waits for a connection for writing.
pub trait Waiting {
    /// Waits from now on for changes of a connection for writing too. It returns whether the system could.
    fn waits_for(&self, stream: &mut TcpStream) -> bool;

    /// Takes in what is offered, as far as there is room, and then waits for a change of it or of a connection for writing, for so long at
    /// most. It returns whether the system could.
    fn wait<C: Clock>(&mut self, clock: &C, most: Duration) -> bool;
}

/// How long attempts to connect wait, within a time that began then. A queue that is full at the peer gives no answer, so an attempt without
/// one is given up and made again, sooner than the system would ask again.
#[derive(Drop)]
pub struct Patience {
    begun: Instant,
    within: Duration,
    next: Duration,
}

impl Patience {
    /// The patience of the first attempt is 200 milliseconds.
    pub fn new(begun: Instant, within: Duration) -> Patience {
        Patience {
            begun,
            within,
            next: Duration::from_millis(FIRST_MILLIS),
        }
    }

    /// How long the next attempt waits: twice as long as the one before, or what is left of the time. `None` if nothing is left.
    pub fn next<C: Clock>(&mut self, clock: &C) -> Option<Duration> {
        let most = left(clock, self.begun, self.within);
        if most.is_zero() {
            return None;
        }
        let next = most.min(self.next);
        self.next = self.next.saturating_add(self.next);
        Some(next)
    }
}

/// Waits until a connection stands that was begun, or gives `None` if there was no answer within a time that began then. It fails if the peer
/// refused it, or the system can't wait.
pub fn standing<C: Clock, W: Waiting>(
    clock: &C,
    waiting: &mut W,
    mut stream: TcpStream,
    begun: Instant,
    within: Duration,
) -> Result<Option<TcpStream>, Failed> {
    if !waiting.waits_for(&mut stream) {
        return Err(Failed);
    }
    for _ in 0..u64::MAX {
        if is_connected(&stream)? {
            // What is given goes out at once.
            let _ = stream.set_nodelay(true);
            return Ok(Some(stream));
        }
        if !waits_on(clock, waiting, begun, within)? {
            return Ok(None);
        }
    }
    Err(Failed)
}

// Whether a connection stands by now. It fails if the peer refused it.
fn is_connected(stream: &TcpStream) -> Result<bool, Failed> {
    match stream.take_error() {
        Ok(None) => Ok(stream.peer_addr().is_ok()),
        _ => Err(Failed),
    }
}

// Waits for a change, if there is time left, and returns whether there was. It fails if the system can't wait.
fn waits_on<C: Clock, W: Waiting>(
    clock: &C,
    waiting: &mut W,
    begun: Instant,
    within: Duration,
) -> Result<bool, Failed> {
    let most = left(clock, begun, within);
    if most.is_zero() {
        return Ok(false);
    }
    if waiting.wait(clock, most) {
        Ok(true)
    } else {
        Err(Failed)
    }
}

/// Why a connection didn't take what it was given.
#[derive(Debug, Clone, Copy, PartialEq, Eq)]
pub enum GiveFault {
    /// It is broken.
    Broken,
    /// It didn't take all in the time, or the system can't wait.
    Late,
}

/// Gives the first bytes of a piece to a connection, at least one, within a time that began then, and returns their number.
pub fn give<C: Clock, W: Waiting>(
    clock: &C,
    waiting: &mut W,
    stream: &mut TcpStream,
    piece: &[u8],
    begun: Instant,
    within: Duration,
) -> Result<usize, GiveFault>
    ensures some { IfOk result (λ count. 0 < count) }
    ensures fits { IfOk result (λ count. count ≤ length piece.now) }
{
    for _ in 0..u64::MAX {
        match stream.write(piece) {
            Ok(count) if count > 0 && count <= piece.len() => return Ok(count),
            Err(e) if e.kind() == ErrorKind::Interrupted => {}
            Err(e) if e.kind() == ErrorKind::WouldBlock => {
                if waits_on(clock, waiting, begun, within) != Ok(true) {
                    return Err(GiveFault::Late);
                }
            }
            _ => return Err(GiveFault::Broken),
        }
    }
    Err(GiveFault::Late)
}

/// Gives all bytes to a connection, within a time that began then.
pub fn give_all<C: Clock, W: Waiting>(
    clock: &C,
    waiting: &mut W,
    stream: &mut TcpStream,
    bytes: &[u8],
    begun: Instant,
    within: Duration,
) -> Result<(), GiveFault> {
    let mut at = 0usize;
    while at < bytes.len() {
        at += give(clock, waiting, stream, &bytes[at..], begun, within)?;
    }
    Ok(())
}
