//! Waiting for sockets.

use mio::event::Source;
use mio::{Events, Interest, Poll, Token};
use std::alloc::Global;
use std::net::Net;
use std::time::{Clock, Duration, Instant};

/// Waits until one of the sockets that it watches changes. A socket that is closed is watched no more.
#[derive(Drop)]
pub struct Watch {
    poll: Poll,
    events: Events<Global>,
}

impl Watch {
    /// It watches nothing yet, and a wait reports so many changes at most. `None` if the system has no room for it, or memory is wanting.
    pub fn new<R: Net>(rt: &R, alloc: Global, most_changes: usize) -> Option<Watch> {
        let Ok(poll) = Poll::new(rt) else {
            return None;
        };
        match Events::with_capacity(alloc, most_changes) {
            Ok(events) => Some(Watch { poll, events }),
            Err(_) => None,
        }
    }

    /// Watches a socket from now on under a number, and returns whether the system took it.
    pub fn add<S: Source>(&self, source: &mut S, at: usize, interest: Interest) -> bool {
        self.poll
            .registry()
            .register(source, Token(at), interest)
            .is_ok()
    }

    /// Waits for a change, for so long at most, or as long as it takes. It returns whether the system could.
    pub fn wait(&mut self, most: Option<Duration>) -> bool {
        self.poll.poll(&mut self.events, most).is_ok()
    }

    /// What changed in the last wait.
    pub fn changes(&self) -> &Events<Global> {
        &self.events
    }
}

/// What is left of a time that began then. It is none if the clock can't be read.
pub fn left<C: Clock>(clock: &C, begun: Instant, most: Duration) -> Duration {
    match begun.elapsed(clock) {
        Ok(gone) => most.saturating_sub(gone),
        Err(_) => Duration::ZERO,
    }
}
