//! A UDP socket whose reads wait for as long as it takes, for a limited time, or not at all.
ghost use Rattle.std.specs.Prelude.{◌≡◌, IsTrue, is_some, true};

use crate::address::socket_addr;
use crate::watch::left;
use sg_base::{Addr, Failed};
use std::io::ErrorKind;
use std::net::{Net, UdpSocket};
use std::time::{Clock, Duration, Instant};

/// A UDP socket. A call that is interrupted is made again.
#[derive(Drop)]
pub(crate) struct Datagrams {
    socket: UdpSocket,
    blocks: bool,
    limited: bool,
}

impl Datagrams {
    /// A socket at an address. `None` if the system has none.
    pub(crate) fn bind<R: Net>(rt: &R, at: Addr) -> Option<Datagrams> {
        match UdpSocket::bind(rt, socket_addr(at)) {
            Ok(socket) => Some(Datagrams {
                socket,
                blocks: true,
                limited: false,
            }),
            Err(_) => None,
        }
    }

    /// Takes the next datagram into the room, and gives the number of its bytes. It waits for as long as that takes.
    pub(crate) fn receive(&mut self, room: &mut [u8]) -> Result<usize, Failed> {
        if !self.set_limit(None) {
            return Err(Failed);
        }
        for _ in 0..u64::MAX {
            match self.socket.recv_from(room) {
                Ok((count, _)) => return Ok(count),
                Err(e) if e.kind() == ErrorKind::Interrupted => {}
                Err(_) => return Err(Failed),
            }
        }
        Err(Failed)
    }

    /// The same, but `None` if no datagram came within a time, which may be no time at all. Before it is `None`, it has looked once
    /// more when the time was over.
    pub(crate) fn receive_within<C: Clock>(
        &mut self,
        clock: &C,
        room: &mut [u8],
        within: Duration,
    ) -> Result<Option<usize>, Failed> {
        let Ok(begun) = Instant::now(clock) else {
            return Err(Failed);
        };
        for _ in 0..u64::MAX {
            let most = left(clock, begun, within);
            if !self.set_most(most) {
                return Err(Failed);
            }
            match self.socket.recv_from(room) {
                Ok((count, _)) => return Ok(Some(count)),
                Err(e) if e.kind() == ErrorKind::Interrupted => {}
                Err(e) if e.kind() == ErrorKind::WouldBlock => {
                    if most.is_zero() {
                        return Ok(None);
                    }
                }
                Err(_) => return Err(Failed),
            }
        }
        Err(Failed)
    }

    /// Sends a datagram, and returns whether the system took all of it.
    pub(crate) fn send(&mut self, bytes: &[u8], to: Addr) -> bool {
        if !self.set_blocks(true) {
            return false;
        }
        for _ in 0..u64::MAX {
            match self.socket.send_to(bytes, socket_addr(to)) {
                Ok(count) => return count == bytes.len(),
                Err(e) if e.kind() == ErrorKind::Interrupted => {}
                Err(_) => return false,
            }
        }
        false
    }

    // Has the next read wait for so long at most, and returns whether the system took that. It takes no read that waits for no time.
    fn set_most(&mut self, most: Duration) -> bool {
        if most.is_zero() {
            self.set_blocks(false)
        } else {
            self.set_limit(Some(most))
        }
    }

    // Has reads wait for so long at most, or for as long as it takes, and returns whether the system took that.
    fn set_limit(&mut self, most: Option<Duration>) -> bool
        ensures { IsTrue result → (self.new.blocks ≡ true) × (self.new.limited ≡ is_some most) }
    {
        if !self.set_blocks(true) {
            return false;
        }
        if most.is_some() || self.limited {
            if self.socket.set_read_timeout(most).is_err() {
                return false;
            }
            self.limited = most.is_some();
        }
        true
    }

    // Has calls wait or not, and returns whether the system took that.
    fn set_blocks(&mut self, blocks: bool) -> bool
        ensures blocks { IsTrue result → self.new.blocks ≡ blocks }
        ensures limited { self.new.limited ≡ self.old.limited }
    {
        if self.blocks != blocks {
            if self.socket.set_nonblocking(!blocks).is_err() {
                return false;
            }
            self.blocks = blocks;
        }
        true
    }
}
