//! A link over a UDP socket.
ghost use Rattle.std.specs.Prelude.{◌≡◌, None};

use crate::datagrams::Datagrams;
use sg_base::{Addr, Failed, Link, LinkFault, Sealed};
use sg_wait::TimedLink;
use std::alloc::Global;
use std::net::Net;
use std::time::{Clock, Duration};

/// A link over a UDP socket. It has no socket until it is opened. `recv` waits for a datagram, for as long as that takes, and never
/// gives `None`; neither does `recv_within` if it has no limit. A call that is interrupted is made again, and a wait with a limit goes
/// on with what is left of the time.
#[derive(Drop)]
pub struct UdpLink<R: Net> {
    rt: R,
    socket: Option<Datagrams>,
    bound: Option<Addr>,
    faults: u64,
}

impl<R: Net + Drop> UdpLink<R> {
    /// A link that is not open, with a count of faults of 0.
    pub fn new(rt: R) -> UdpLink<R>
        ensures faults { ⟦<UdpLink<R> as Link>⟧.faults result ≡ 0 }
        ensures bound { ⟦<UdpLink<R> as Link>⟧.bound result ≡ None }
    {
        UdpLink {
            rt,
            socket: None,
            bound: None,
            faults: 0,
        }
    }
}

// Room for the longest datagram and one more byte, so that none is cut short unnoticed. `None` means out of memory.
fn longest_datagram(alloc: Global) -> Option<Vec<u8>> {
    match vec![in alloc; 0u8; 65_508] {
        Ok(bytes) => Some(bytes),
        Err(_) => None,
    }
}

// The next datagram, in the room that is given. It fails if there is no socket.
fn receive(socket: &mut Option<Datagrams>, mut bytes: Vec<u8>) -> Result<Vec<u8>, Failed> {
    let Some(socket) = socket else {
        return Err(Failed);
    };
    let count = socket.receive(&mut bytes)?;
    bytes.truncate(count);
    Ok(bytes)
}

// The same, or `None` if no datagram came within a time.
fn receive_within<C: Clock>(
    clock: &C,
    socket: &mut Option<Datagrams>,
    mut bytes: Vec<u8>,
    within: Duration,
) -> Result<Option<Vec<u8>>, Failed> {
    let Some(socket) = socket else {
        return Err(Failed);
    };
    let Some(count) = socket.receive_within(clock, &mut bytes, within)? else {
        return Ok(None);
    };
    bytes.truncate(count);
    Ok(Some(bytes))
}

// Sends a datagram, and returns whether the system took all of it. There is no socket before the link is opened.
fn send(socket: &mut Option<Datagrams>, bytes: &[u8], to: Addr) -> bool {
    match socket {
        Some(socket) => socket.send(bytes, to),
        None => false,
    }
}

impl<R: Net + Drop> Link for UdpLink<R> {
    ghost use Rattle.std.specs.Prelude.{None};

    ghost faults = { λ l. l.faults };

    ghost bound = { λ l. l.bound };

    ghost deliveries = { λ _. None };

    ghost sent = { λ _. None };

    fn open(&mut self, at: Addr) -> Result<(), Failed> {
        match Datagrams::bind(&self.rt, at) {
            Some(socket) => {
                self.socket = Some(socket);
                self.bound = Some(at);
                Ok(())
            }
            None => {
                self.faults = self.faults.saturating_add(1);
                Err(Failed)
            }
        }
    }

    fn recv(&mut self, alloc: Global) -> Result<Option<Vec<u8>>, LinkFault> {
        let Some(bytes) = longest_datagram(alloc) else {
            return Err(LinkFault::OutOfMemory);
        };
        match receive(&mut self.socket, bytes) {
            Ok(bytes) => Ok(Some(bytes)),
            Err(_) => {
                self.faults = self.faults.saturating_add(1);
                Err(LinkFault::Failed)
            }
        }
    }

    fn send(&mut self, to: Addr, frame: Sealed) -> Result<(), (Sealed, Failed)> {
        if send(&mut self.socket, frame.bytes(), to) {
            let _ = frame.release();
            Ok(())
        } else {
            self.faults = self.faults.saturating_add(1);
            Err((frame, Failed))
        }
    }
}

impl<R: Net + Clock + Drop> TimedLink for UdpLink<R> {
    ghost use Rattle.std.specs.Prelude.{None};

    ghost coming = { λ _. None };

    fn open_at(&mut self, at: Addr) -> Result<(), Failed> {
        self.open(at)
    }

    /// With a limit it fails too if the clock can't be read.
    fn recv_within(
        &mut self,
        alloc: Global,
        within: Option<u32>,
    ) -> Result<Option<Vec<u8>>, LinkFault> {
        let Some(millis) = within else {
            return self.recv(alloc);
        };
        let Some(bytes) = longest_datagram(alloc) else {
            return Err(LinkFault::OutOfMemory);
        };
        let within = Duration::from_millis(u64::from(millis));
        match receive_within(&self.rt, &mut self.socket, bytes, within) {
            Ok(found) => Ok(found),
            Err(_) => {
                self.faults = self.faults.saturating_add(1);
                Err(LinkFault::Failed)
            }
        }
    }

    fn post(&mut self, to: Addr, frame: &[u8]) -> Result<(), Failed> {
        if send(&mut self.socket, frame, to) {
            return Ok(());
        }
        self.faults = self.faults.saturating_add(1);
        Err(Failed)
    }
}
