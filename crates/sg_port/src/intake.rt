//! What comes in: a listener, its connections, and the frames that were taken in while a send waited.
ghost use Rattle.std.specs.Prelude.{◌<◌};

use crate::accepted::{SLOTS, Table};
use crate::conns::{KeptConns, shorter};
use crate::fault::{has_no_room, is_passing};
use crate::inbox::Inbox;
use mio::net::{TcpListener, TcpStream};
use mio::{Interest, Token};
use sg_base::LinkFault;
use sg_link::waiting::Waiting;
use sg_link::watch::{Watch, left};
use std::alloc::Global;
use std::io::ErrorKind;
use std::net::Net;
use std::time::{Clock, Duration, Instant};

/// The most changes that one wait reports.
const MOST_CHANGES: usize = 1_024;

/// The number of the listener among what is watched; connections that were accepted have those below.
const LISTENER: usize = 1_000;

/// The number of all connections for writing.
const WRITTEN: usize = 1_001;

/// The most connections that are accepted, and frames that are taken in, before there is a look at the clock.
const AT_ONCE: usize = 256;

/// After how many milliseconds it tries again to accept a connection for which there was no room.
const AGAIN_MILLIS: u64 = 50;

// What came of accepting a connection.
#[derive(Clone, Copy, PartialEq, Eq)]
enum Offer {
    // It is there, or it was gone.
    Taken,
    // None is offered.
    Nothing,
    // The system has no room for it.
    NoRoom,
    // The system failed in another way.
    Failed,
}

/// A listener and what it brings. All connections are read side by side. What is taken in while a send waits is handed out first.
#[derive(Drop)]
pub(crate) struct Intake {
    alloc: Global,
    watch: Watch,
    listener: TcpListener,
    // Whether a connection may be offered.
    offered: bool,
    // Whether it can't be accepted for now.
    put_off: bool,
    table: Table,
    inbox: Inbox,
}

impl Intake {
    /// Takes in what comes to a listener. `None` if there is no memory, or the system failed.
    pub(crate) fn new<R: Net>(rt: &R, alloc: Global, mut listener: TcpListener) -> Option<Intake> {
        let watch = Watch::new(rt, alloc, MOST_CHANGES)?;
        if !watch.add(&mut listener, LISTENER, Interest::READABLE) {
            return None;
        }
        let table = Table::new(alloc)?;
        let Ok(inbox) = Inbox::new(alloc) else {
            return None;
        };
        Some(Intake {
            alloc,
            watch,
            listener,
            offered: true,
            put_off: false,
            table,
            inbox,
        })
    }

    /// Takes another listener in the place of the one before, and keeps what came in. It returns whether the system could.
    pub(crate) fn listen(&mut self, mut listener: TcpListener) -> bool {
        if !self.watch.add(&mut listener, LISTENER, Interest::READABLE) {
            return false;
        }
        self.listener = listener;
        self.offered = true;
        true
    }

    /// The next frame, or `None` if none came within the time, if there is a limit. What is offered already comes at once. Kept
    /// connections that rest too long are closed meanwhile.
    pub(crate) fn next<C: Clock>(
        &mut self,
        clock: &C,
        alloc: Global,
        kept: &mut KeptConns,
        within: Option<Duration>,
    ) -> Result<Option<Vec<u8>>, LinkFault> {
        let _ = kept.close_resting(clock);
        if let Some(frame) = self.inbox.pop() {
            return Ok(Some(frame));
        }
        let Ok(begun) = Instant::now(clock) else {
            return Err(LinkFault::Failed);
        };
        let mut most = Some(Duration::ZERO);
        let mut over = is_over(within);
        for _ in 0..u64::MAX {
            if let Some(frame) = self.look(clock, alloc, most)? {
                return Ok(Some(frame));
            }
            if over {
                return Ok(None);
            }
            let rest = rest_of(clock, begun, within);
            over = is_over(rest);
            most = if self.offered && !self.put_off {
                Some(Duration::ZERO)
            } else {
                shorter(self.patience(), shorter(rest, kept.close_resting(clock)))
            };
        }
        Err(LinkFault::Failed)
    }

    // For how long it accepts nothing.
    fn patience(&self) -> Option<Duration> {
        if self.put_off {
            Some(Duration::from_millis(AGAIN_MILLIS))
        } else {
            None
        }
    }

    // Waits for a change, for so long at most, or as long as it takes, and gives the next frame that is whole then.
    fn look<C: Clock>(
        &mut self,
        clock: &C,
        alloc: Global,
        most: Option<Duration>,
    ) -> Result<Option<Vec<u8>>, LinkFault> {
        if !self.await_change(clock, most) {
            return Err(LinkFault::Failed);
        }
        let more = self.accept(clock);
        match self.table.next(alloc) {
            Ok(None) if !more => Err(LinkFault::Failed),
            Ok(found) => Ok(found),
            Err(_) => Err(LinkFault::OutOfMemory),
        }
    }

    /// Closes the accepted connection that was silent longest, and returns whether there is one that has nothing to read.
    pub(crate) fn close_silent(&mut self) -> bool {
        self.table.close_silent()
    }

    // Takes whole frames in, as far as there is room. It returns whether there may be more of them.
    fn take_in(&mut self) -> bool {
        for _ in 0..AT_ONCE {
            if !self.inbox.has_room() {
                return false;
            }
            match self.table.next(self.alloc) {
                Ok(Some(frame)) => self.inbox.push(frame),
                _ => return false,
            }
        }
        true
    }

    // Waits for a change, for so long at most, and notes what changed. It returns whether the system could.
    fn await_change<C: Clock>(&mut self, clock: &C, most: Option<Duration>) -> bool {
        if !self.watch.wait(most) {
            return false;
        }
        let Ok(now) = Instant::now(clock) else {
            return false;
        };
        for change in self.watch.changes().iter() {
            let Token(at) = change.token();
            if at == LISTENER {
                self.offered = true;
            } else {
                self.table.wake(at, now);
            }
        }
        true
    }

    // Accepts what is offered, as far as there are slots. If the system has no room for one more connection, the one that was silent longest
    // gives way; if that didn't help, or none is open, it accepts nothing for a while. It returns whether more can come.
    fn accept<C: Clock>(&mut self, clock: &C) -> bool {
        self.put_off = false;
        let mut gave_way = false;
        for _ in 0..AT_ONCE {
            if !self.offered {
                return true;
            }
            let Some(at) = self.table.slot() else {
                return true;
            };
            match self.accept_one(clock, at) {
                Offer::Taken => gave_way = false,
                Offer::Nothing => self.offered = false,
                Offer::NoRoom if !gave_way && self.table.close_silent() => gave_way = true,
                Offer::NoRoom => {
                    self.put_off = gave_way || !self.table.has_open();
                    return true;
                }
                Offer::Failed => {
                    self.put_off = true;
                    return self.table.has_open();
                }
            }
        }
        true
    }

    // Accepts the next connection that is offered, and reads it from now on, in a slot.
    fn accept_one<C: Clock>(&mut self, clock: &C, at: usize) -> Offer
        requires { at < SLOTS }
    {
        match self.listener.accept() {
            Ok((stream, _)) => {
                self.admit(clock, at, stream);
                Offer::Taken
            }
            Err(e) if e.kind() == ErrorKind::WouldBlock => Offer::Nothing,
            Err(e) if is_passing(&e) => Offer::Taken,
            Err(e) if has_no_room(&e) => Offer::NoRoom,
            Err(_) => Offer::Failed,
        }
    }

    // Reads a connection from now on, in a slot. One that the system doesn't watch is closed.
    fn admit<C: Clock>(&mut self, clock: &C, at: usize, mut stream: TcpStream)
        requires { at < SLOTS }
    {
        let Ok(now) = Instant::now(clock) else {
            return;
        };
        if self.watch.add(&mut stream, at, Interest::READABLE) {
            self.table.put(self.alloc, at, stream, now);
        }
    }
}

impl Waiting for Intake {
    fn waits_for(&self, stream: &mut TcpStream) -> bool {
        self.watch.add(stream, WRITTEN, Interest::WRITABLE)
    }

    fn wait<C: Clock>(&mut self, clock: &C, most: Duration) -> bool {
        let _ = self.accept(clock);
        if self.take_in() {
            self.await_change(clock, Some(Duration::ZERO))
        } else {
            self.await_change(clock, Some(most))
        }
    }
}

// What is left of a limit that began then.
fn rest_of<C: Clock>(clock: &C, begun: Instant, within: Option<Duration>) -> Option<Duration> {
    match within {
        Some(within) => Some(left(clock, begun, within)),
        None => None,
    }
}

// Whether nothing is left of a limit.
fn is_over(rest: Option<Duration>) -> bool {
    match rest {
        Some(rest) => rest.is_zero(),
        None => false,
    }
}
