//! What comes in: a listener, the accepted connection that is read, and what was read of connections while a send waited.

use crate::inbox::{Inbox, PIECE};
use crate::waiting::Waiting;
use crate::watch::{Watch, left};
use mio::Interest;
use mio::net::{TcpListener, TcpStream};
use sg_base::{LinkFault, OutOfMemory};
use std::alloc::Global;
use std::io::{ErrorKind, Read};
use std::net::Net;
use std::time::{Clock, Duration, Instant};

/// The most changes that one wait reports.
const MOST_CHANGES: usize = 4;

/// The number of all that is watched: nobody asks what changed.
const ALL: usize = 0;

// What a connection gave.
enum Brought {
    // So many bytes.
    Bytes(usize),
    // Its end.
    End,
    // Nothing yet.
    Nothing,
}

// An accepted connection, and when it gave its last byte, or was accepted.
#[derive(Drop)]
struct Reading {
    stream: TcpStream,
    heard: Instant,
}

/// A listener and what it brings. Accepted connections are read one after the other: the next one is accepted when the one before has ended,
/// was closed, or gave no byte for as long as the limit says. What is taken in while a send waits is handed out afterwards, in its order.
#[derive(Drop)]
pub(crate) struct Intake {
    watch: Watch,
    listener: TcpListener,
    limit: Duration,
    reading: Option<Reading>,
    inbox: Inbox,
    piece: Vec<u8>,
}

impl Intake {
    /// Takes in what comes to a listener, which doesn't block. All room is made here. `None` if there is none, or the system failed.
    pub(crate) fn new<R: Net>(
        rt: &R,
        alloc: Global,
        mut listener: TcpListener,
        limit: Duration,
    ) -> Option<Intake> {
        let watch = Watch::new(rt, alloc, MOST_CHANGES)?;
        if !watch.add(&mut listener, ALL, Interest::READABLE) {
            return None;
        }
        let Ok(inbox) = Inbox::new(alloc) else {
            return None;
        };
        let Ok(piece) = room_for_a_piece(alloc) else {
            return None;
        };
        Some(Intake {
            watch,
            listener,
            limit,
            reading: None,
            inbox,
            piece,
        })
    }

    /// Takes another listener in the place of the one before, and keeps what came in. It returns whether the system could.
    pub(crate) fn listen(&mut self, mut listener: TcpListener) -> bool {
        if !self.watch.add(&mut listener, ALL, Interest::READABLE) {
            return false;
        }
        self.listener = listener;
        true
    }

    /// The next piece, an empty one if a connection has ended. It waits for as long as that takes.
    pub(crate) fn next<C: Clock>(
        &mut self,
        clock: &C,
        alloc: Global,
    ) -> Result<Vec<u8>, LinkFault> {
        if let Some(piece) = self.inbox.first() {
            let Ok(copy) = copied(alloc, piece) else {
                return Err(LinkFault::OutOfMemory);
            };
            self.inbox.remove_first();
            return Ok(copy);
        }
        let Ok(mut bytes) = room_for_a_piece(alloc) else {
            return Err(LinkFault::OutOfMemory);
        };
        for _ in 0..u64::MAX {
            if !accept(clock, &self.watch, &self.listener, &mut self.reading) {
                return Err(LinkFault::Failed);
            }
            match read_on(clock, self.limit, &mut self.reading, &mut bytes) {
                Brought::Bytes(count) => {
                    bytes.truncate(count);
                    return Ok(bytes);
                }
                Brought::End => {
                    bytes.clear();
                    return Ok(bytes);
                }
                Brought::Nothing => {}
            }
            let most = patience(clock, self.limit, &self.reading);
            if !self.watch.wait(most) {
                return Err(LinkFault::Failed);
            }
        }
        Err(LinkFault::Failed)
    }

    /// Takes in what is offered, as far as there is room. It waits for nothing, and takes no memory.
    pub(crate) fn take_in<C: Clock>(&mut self, clock: &C) {
        for _ in 0..u64::MAX {
            if !self.inbox.has_room()
                || !accept(clock, &self.watch, &self.listener, &mut self.reading)
            {
                return;
            }
            match read_on(clock, self.limit, &mut self.reading, &mut self.piece) {
                Brought::Bytes(count) => {
                    if count <= self.piece.len() && count <= PIECE {
                        self.inbox.push(&self.piece[..count]);
                    }
                }
                Brought::End => self.inbox.push(&[]),
                Brought::Nothing => return,
            }
        }
    }

    /// Closes the connection whose pieces are handed out.
    pub(crate) fn close(&mut self) {
        if !self.inbox.remove_connection() {
            self.reading = None;
        }
    }
}

impl Waiting for Intake {
    fn waits_for(&self, stream: &mut TcpStream) -> bool {
        self.watch.add(stream, ALL, Interest::WRITABLE)
    }

    /// It takes no memory.
    fn wait<C: Clock>(&mut self, clock: &C, most: Duration) -> bool {
        self.take_in(clock);
        match patience(clock, self.limit, &self.reading) {
            Some(silence) => self.watch.wait(Some(most.min(silence))),
            None => self.watch.wait(Some(most)),
        }
    }
}

// How much longer the connection that is read may be silent.
fn patience<C: Clock>(clock: &C, limit: Duration, reading: &Option<Reading>) -> Option<Duration> {
    match reading {
        Some(reading) => Some(left(clock, reading.heard, limit)),
        None => None,
    }
}

// Accepts the next connection, if none is read and one is offered. It returns whether the system could.
fn accept<C: Clock>(
    clock: &C,
    watch: &Watch,
    listener: &TcpListener,
    reading: &mut Option<Reading>,
) -> bool {
    if reading.is_some() {
        return true;
    }
    for _ in 0..u64::MAX {
        match listener.accept() {
            Ok((mut stream, _)) => {
                let Ok(heard) = Instant::now(clock) else {
                    return false;
                };
                if !watch.add(&mut stream, ALL, Interest::READABLE) {
                    return false;
                }
                *reading = Some(Reading { stream, heard });
                return true;
            }
            Err(e) if is_passing(e.kind()) => {}
            Err(e) => return e.kind() == ErrorKind::WouldBlock,
        }
    }
    false
}

// Whether a call may be made again: it was interrupted, or a peer went away before its connection was accepted.
fn is_passing(kind: ErrorKind) -> bool {
    matches!(kind, ErrorKind::Interrupted | ErrorKind::ConnectionAborted)
}

// Reads on in the connection that is read. One that has ended, was broken off by its peer, or was silent for too long is closed.
fn read_on<C: Clock>(
    clock: &C,
    limit: Duration,
    reading: &mut Option<Reading>,
    bytes: &mut [u8],
) -> Brought {
    let Some(open) = reading else {
        return Brought::Nothing;
    };
    match read_some(&mut open.stream, bytes) {
        Some(count) if count > 0 => {
            if let Ok(now) = Instant::now(clock) {
                open.heard = now;
            }
            return Brought::Bytes(count);
        }
        None if !left(clock, open.heard, limit).is_zero() => return Brought::Nothing,
        _ => {}
    }
    *reading = None;
    Brought::End
}

// Reads some bytes, and gives their number, which is 0 if the connection has ended or its peer broke it off, or `None` if there are
// none yet.
fn read_some<S: Read>(stream: &mut S, bytes: &mut [u8]) -> Option<usize> {
    for _ in 0..u64::MAX {
        match stream.read(bytes) {
            Ok(count) => return Some(count),
            Err(e) if e.kind() == ErrorKind::Interrupted => {}
            Err(e) if e.kind() == ErrorKind::WouldBlock => return None,
            Err(_) => return Some(0),
        }
    }
    None
}

// Room for a piece.
fn room_for_a_piece(alloc: Global) -> Result<Vec<u8>, OutOfMemory> {
    vec![in alloc; 0u8; PIECE]
}

fn copied(alloc: Global, bytes: &[u8]) -> Result<Vec<u8>, OutOfMemory> {
    let mut copy = Vec::new(alloc);
    copy.extend_from_slice(bytes)?;
    Ok(copy)
}
