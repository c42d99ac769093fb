//! How a connection for writing is made, and what is given to it. Whoever waits here takes in what is offered meanwhile.
ghost use Rattle.std.specs.Prelude.{◌≡◌, ◌≤◌, ◌++◌, length, OnOk};
ghost use Rattle.std.specs.Int.{w32, to_be_bytes};
ghost use Rattle.sg_model.specs.Limits.{most_frame_bytes};

use crate::conns::KeptConns;
use crate::fault::has_no_room;
use crate::intake::Intake;
use mio::net::TcpStream;
use sg_base::{Failed, OutOfMemory};
use sg_link::waiting::{Patience, standing};
use std::io;
use std::net::{Net, SocketAddr};
use std::time::{Clock, Duration, Instant};

/// Writes the message of a frame in the place of what was there.
pub(crate) fn write_message(out: &mut Vec<u8>, frame: &[u8]) -> Result<(), OutOfMemory>
    requires { length frame.now ≤ most_frame_bytes }
    ensures { OnOk result (out.new.items ≡ to_be_bytes w32 (length frame.now) ++ frame.now) }
{
    let len = (frame.len() as u32).to_be_bytes();
    out.clear();
    out.extend_from_slice(&len)?;
    out.extend_from_slice(frame)
}

/// Connects to an address, within a time that began then.
pub(crate) fn connect<R: Net + Clock>(
    rt: &R,
    intake: &mut Intake,
    kept: &mut KeptConns,
    to: SocketAddr,
    begun: Instant,
    within: Duration,
) -> Result<TcpStream, Failed> {
    let mut patience = Patience::new(begun, within);
    for _ in 0..u64::MAX {
        let Some(most) = patience.next(rt) else {
            return Err(Failed);
        };
        if let Some(stream) = attempt(rt, intake, kept, to, most)? {
            return Ok(stream);
        }
    }
    Err(Failed)
}

// One attempt to connect, or `None` if there was no answer in time.
fn attempt<R: Net + Clock>(
    rt: &R,
    intake: &mut Intake,
    kept: &mut KeptConns,
    to: SocketAddr,
    within: Duration,
) -> Result<Option<TcpStream>, Failed> {
    match (Instant::now(rt), begin(rt, intake, kept, to)) {
        (Ok(begun), Ok(stream)) => standing(rt, intake, stream, begun, within),
        _ => Err(Failed),
    }
}

// Begins to connect. If there is no room for one more connection, the kept one that rests longest gives way, or else the accepted one that
// was silent longest.
fn begin<R: Net>(
    rt: &R,
    intake: &mut Intake,
    kept: &mut KeptConns,
    to: SocketAddr,
) -> io::Result<TcpStream> {
    match TcpStream::connect(rt, to) {
        Err(e) if has_no_room(&e) && (kept.close_longest() || intake.close_silent()) => {
            TcpStream::connect(rt, to)
        }
        begun => begun,
    }
}
