//! How a connection for writing is made, and how bytes are given to it. Whoever waits here takes in what is offered meanwhile.
ghost use Rattle.std.specs.Prelude.{◌<◌, ◌≤◌, length, IfOk};

use crate::intake::Intake;
use crate::waiting::{self, Patience, standing};
use mio::net::TcpStream;
use sg_base::Failed;
use std::net::{Net, SocketAddr};
use std::time::{Clock, Duration, Instant};

/// Connects to an address, within a time.
pub(crate) fn connect<R: Net + Clock>(
    rt: &R,
    intake: &mut Intake,
    to: SocketAddr,
    within: Duration,
) -> Result<TcpStream, Failed> {
    let Ok(begun) = Instant::now(rt) else {
        return Err(Failed);
    };
    intake.take_in(rt);
    let mut patience = Patience::new(begun, within);
    for _ in 0..u64::MAX {
        let Some(most) = patience.next(rt) else {
            return Err(Failed);
        };
        if let Some(stream) = attempt(rt, intake, to, most)? {
            return Ok(stream);
        }
    }
    Err(Failed)
}

// One attempt to connect, or `None` if there was no answer in time.
fn attempt<R: Net + Clock>(
    rt: &R,
    intake: &mut Intake,
    to: SocketAddr,
    within: Duration,
) -> Result<Option<TcpStream>, Failed> {
    match (Instant::now(rt), TcpStream::connect(rt, to)) {
        (Ok(begun), Ok(stream)) => standing(rt, intake, stream, begun, within),
        _ => Err(Failed),
    }
}

/// Gives the first bytes of a piece to a connection, at least one, within a time, and returns their number.
pub(crate) fn give<C: Clock>(
    clock: &C,
    intake: &mut Intake,
    stream: &mut TcpStream,
    piece: &[u8],
    within: Duration,
) -> Result<usize, Failed>
    ensures some { IfOk result (λ count. 0 < count) }
    ensures fits { IfOk result (λ count. count ≤ length piece.now) }
{
    let Ok(begun) = Instant::now(clock) else {
        return Err(Failed);
    };
    match waiting::give(clock, intake, stream, piece, begun, within) {
        Ok(count) => Ok(count),
        Err(_) => Err(Failed),
    }
}
