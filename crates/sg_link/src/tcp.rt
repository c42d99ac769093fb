//! Connections over TCP.
ghost use Rattle.std.specs.Prelude.{◌≡◌, ◌<◌, ◌≤◌, length, None, IfOk, IsSome};
ghost use Rattle.sg_stream.specs.Counts.{no_faults};

use crate::address::socket_addr;
use crate::giving;
use crate::intake::Intake;
use mio::net::{TcpListener, TcpStream};
use sg_base::{Addr, Failed, LinkFault};
use sg_stream::{ConnFaults, Conns};
use std::alloc::Global;
use std::net::Net;
use std::time::{Clock, Duration};

/// The number of the connection that is read.
const READ: u8 = 0;

/// The number of the connection that is written.
const WRITTEN: u8 = 1;

/// How long a peer may be silent, and take nothing, in seconds.
const MOST_SECONDS: u64 = 10;

/// Connections over TCP. They wait at no address, and connect to none, until they are opened. Accepted connections are read one after the
/// other: the next one is taken when the present one has ended or was closed, or gave no byte for 10 seconds, after which it is closed and
/// has ended. A connection that its peer breaks off has ended too. One connection at a time is open for writing.
///
/// `take` waits for a connection and for its bytes, for as long as that takes, and never gives `None`. `connect` and `give` fail if the
/// peer's system answers nothing, or takes no byte, for 10 seconds. While they wait they take in what is offered: they read a connection
/// whole, close it, and go on to the next. `take` hands all of that out first, in the order in which it was accepted. For that there is room
/// for 4,194,304 bytes and 65,536 pieces, an end being one, which is made when they are opened; what finds no room waits in the system. So
/// two who send to each other don't wait for each other. A call that is interrupted is made again.
#[derive(Drop)]
pub struct TcpConns<R> {
    rt: R,
    limit: Duration,
    intake: Option<Intake>,
    written: Option<TcpStream>,
    bound: Option<Addr>,
    faults: ConnFaults,
}

impl<
    R: Net<Listener = std::net::TcpListener, Stream = std::net::TcpStream>
        + Clock
        + Alloc<A = Global>
        + Drop,
> TcpConns<R> {
    /// Connections that are not open, and of which no call failed. It takes no memory.
    pub fn new(rt: R) -> TcpConns<R>
        ensures faults { ⟦<TcpConns<R> as Conns>⟧.faults result ≡ no_faults }
        ensures bound { ⟦<TcpConns<R> as Conns>⟧.bound result ≡ None }
    {
        TcpConns::with_limit(rt, Duration::from_secs(MOST_SECONDS))
    }

    /// The same, but a peer may be silent, and take nothing, for as long as this limit, in place of 10 seconds.
    pub fn with_limit(rt: R, limit: Duration) -> TcpConns<R>
        ensures faults { ⟦<TcpConns<R> as Conns>⟧.faults result ≡ no_faults }
        ensures bound { ⟦<TcpConns<R> as Conns>⟧.bound result ≡ None }
    {
        TcpConns {
            rt,
            limit,
            intake: None,
            written: None,
            bound: None,
            faults: ConnFaults::none(),
        }
    }
}

// A listener at an address, which doesn't block. `None` if the system has none.
fn listener_at<R: Net<Listener = std::net::TcpListener, Stream = std::net::TcpStream>>(
    rt: &R,
    at: Addr,
) -> Option<TcpListener> {
    let Ok(listener) = std::net::TcpListener::bind(rt, socket_addr(at)) else {
        return None;
    };
    if listener.set_nonblocking(true).is_err() {
        return None;
    }
    Some(TcpListener::from_std(listener))
}

// Listens at an address from now on, and returns whether the system could, and there was memory for what comes in.
fn listen<
    R: Net<Listener = std::net::TcpListener, Stream = std::net::TcpStream> + Alloc<A = Global>,
>(rt: &R, intake: &mut Option<Intake>, at: Addr, limit: Duration) -> bool {
    let Some(listener) = listener_at(rt, at) else {
        return false;
    };
    if let Some(intake) = intake {
        return intake.listen(listener);
    }
    *intake = Intake::new(rt, rt.alloc(), listener, limit);
    intake.is_some()
}

// Gives bytes to the connection that is open for writing, if the number is its own.
fn give_open<C: Clock>(
    clock: &C,
    intake: &mut Option<Intake>,
    written: &mut Option<TcpStream>,
    conn: u8,
    piece: &[u8],
    limit: Duration,
) -> Result<usize, Failed>
    ensures is_open { IfOk result (λ _. (conn ≡ 1) × IsSome written.old) }
    ensures some { IfOk result (λ count. 0 < count) }
    ensures fits { IfOk result (λ count. count ≤ length piece.now) }
{
    if conn != WRITTEN {
        return Err(Failed);
    }
    match (intake, written) {
        (Some(intake), Some(stream)) => giving::give(clock, intake, stream, piece, limit),
        _ => Err(Failed),
    }
}

impl<
    R: Net<Listener = std::net::TcpListener, Stream = std::net::TcpStream>
        + Clock
        + Alloc<A = Global>
        + Drop,
> Conns for TcpConns<R> {
    ghost use Rattle.std.specs.Prelude.{None};

    ghost faults = { λ c. c.faults };

    ghost bound = { λ c. c.bound };

    ghost held = { λ _. None };

    /// It fails too if there is no memory for what comes in.
    fn open(&mut self, at: Addr) -> Result<(), Failed> {
        if listen(&self.rt, &mut self.intake, at, self.limit) {
            self.bound = Some(at);
            return Ok(());
        }
        self.faults.opens = self.faults.opens.saturating_add(1);
        Err(Failed)
    }

    fn take(&mut self, alloc: Global) -> Result<Option<(u8, Vec<u8>)>, LinkFault> {
        let came = match &mut self.intake {
            Some(intake) => intake.next(&self.rt, alloc),
            None => Err(LinkFault::Failed),
        };
        match came {
            Ok(piece) => Ok(Some((READ, piece))),
            Err(LinkFault::OutOfMemory) => Err(LinkFault::OutOfMemory),
            Err(LinkFault::Failed) => {
                self.faults.takes = self.faults.takes.saturating_add(1);
                Err(LinkFault::Failed)
            }
        }
    }

    fn close(&mut self, conn: u8) {
        if conn == WRITTEN {
            self.written = None;
        }
        if conn == READ {
            if let Some(intake) = &mut self.intake {
                intake.close();
            }
        }
    }

    fn connect(&mut self, to: Addr) -> Result<u8, Failed> {
        if self.written.is_none() {
            if let Some(intake) = &mut self.intake {
                if let Ok(stream) = giving::connect(&self.rt, intake, socket_addr(to), self.limit) {
                    self.written = Some(stream);
                    return Ok(WRITTEN);
                }
            }
        }
        self.faults.connects = self.faults.connects.saturating_add(1);
        Err(Failed)
    }

    fn give(&mut self, conn: u8, piece: &[u8]) -> Result<usize, Failed> {
        let given = give_open(
            &self.rt,
            &mut self.intake,
            &mut self.written,
            conn,
            piece,
            self.limit,
        );
        if given.is_err() {
            self.faults.gives = self.faults.gives.saturating_add(1);
        }
        given
    }
}
