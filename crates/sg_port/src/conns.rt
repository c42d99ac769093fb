//! The connections for writing that are kept.

use mio::net::TcpStream;
use sg_base::Addr;
use std::alloc::{AllocError, Global};
use std::io::{ErrorKind, Read};
use std::time::{Clock, Duration, Instant};

/// How many connections are kept at once.
const MOST_KEPT: usize = 256;

/// How many messages a connection has.
const MOST_MESSAGES: u32 = 64;

/// How long a connection is kept without a message, in seconds.
const REST_SECONDS: u64 = 1;

/// A connection for writing.
#[derive(Drop)]
pub(crate) struct Line {
    pub(crate) to: Addr,
    pub(crate) stream: TcpStream,
    // How many messages it had.
    pub(crate) given: u32,
}

// A connection that rests since its last message.
#[derive(Drop)]
struct Resting {
    line: Line,
    since: Instant,
}

/// The connections that are kept, at most one to each address. Room for 256 is made beforehand.
#[derive(Drop)]
pub(crate) struct KeptConns {
    lines: Vec<Resting>,
}

impl KeptConns {
    /// No connections, and no room for them yet.
    pub(crate) fn new(alloc: Global) -> KeptConns {
        KeptConns {
            lines: Vec::new(alloc),
        }
    }

    /// Makes the room.
    pub(crate) fn make_room(&mut self) -> Result<(), AllocError> {
        self.lines.reserve(MOST_KEPT)
    }

    /// Closes the connections that rest too long, and gives the time in which the next one will.
    pub(crate) fn close_resting<C: Clock>(&mut self, clock: &C) -> Option<Duration> {
        let Ok(now) = Instant::now(clock) else {
            self.lines.clear();
            return None;
        };
        let most = Duration::from_secs(REST_SECONDS);
        self.lines
            .retain(|resting| now.duration_since(resting.since) < most);
        let mut next: Option<Duration> = None;
        for resting in self.lines.iter() {
            let rest = most.saturating_sub(now.duration_since(resting.since));
            next = shorter(next, Some(rest));
        }
        next
    }

    /// Takes the connection to an address out, if there is one, and its peer didn't close it.
    pub(crate) fn take(&mut self, to: Addr) -> Option<Line> {
        let at = self.lines.iter().position(|resting| resting.line.to == to)?;
        let Resting { mut line, since: _ } = self.lines.swap_remove(at);
        if is_open(&mut line.stream) {
            Some(line)
        } else {
            None
        }
    }

    /// Keeps a connection that had one message more. It is closed if that was the last one that it has, and if all slots are taken,
    /// the one that rests longest is.
    pub(crate) fn keep<C: Clock>(&mut self, clock: &C, mut line: Line) {
        line.given = line.given.saturating_add(1);
        if line.given >= MOST_MESSAGES {
            return;
        }
        let Ok(since) = Instant::now(clock) else {
            return;
        };
        if self.lines.len() >= MOST_KEPT {
            let _ = self.close_longest();
        }
        let _ = self.lines.push(Resting { line, since });
    }

    /// Closes the connection that rests longest, and returns whether there is one.
    pub(crate) fn close_longest(&mut self) -> bool {
        let mut longest = 0usize;
        let mut since: Option<Instant> = None;
        for (at, resting) in self.lines.iter().enumerate() {
            if since.is_none_or(|before| resting.since < before) {
                longest = at;
                since = Some(resting.since);
            }
        }
        if longest < self.lines.len() {
            let _ = self.lines.swap_remove(longest);
            return true;
        }
        false
    }
}

// Whether a connection for writing is open by what came of it. Its peer sends nothing over it, so whatever comes is its end.
fn is_open(stream: &mut TcpStream) -> bool {
    for _ in 0..u64::MAX {
        match stream.read(&mut [0u8]) {
            Err(e) if e.kind() == ErrorKind::Interrupted => {}
            Err(e) => return e.kind() == ErrorKind::WouldBlock,
            Ok(_) => return false,
        }
    }
    false
}

/// The shorter of two times, if `None` is as long as it takes.
pub(crate) fn shorter(a: Option<Duration>, b: Option<Duration>) -> Option<Duration> {
    match (a, b) {
        (Some(a), Some(b)) => Some(a.min(b)),
        (Some(a), None) => Some(a),
        (None, b) => b,
    }
}
