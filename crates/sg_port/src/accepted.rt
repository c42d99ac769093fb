//! The accepted connections, which are read side by side.
ghost use Rattle.std.specs.Prelude.{◌≡◌, ◌<◌, ◌≤◌, ◌⊎◌, length, map, slice_get, slice_set, option_map, All, IfOk, IfSome, IfNone, IsSomeAnd, IsTrue, IsFalse, Some, None};
ghost use Rattle.std.specs.Time.{instant_nanos};
ghost use Rattle.sg_model.specs.Limits.{most_frame_bytes};
ghost use Rattle.sg_port.specs.Brought.{Fits};
ghost use Rattle.sg_port.specs.Silence.{silent_since, stream_at, IsQuietest};

use crate::parcel::{Brought, Parcel};
use mio::net::TcpStream;
use sg_base::OutOfMemory;
use std::alloc::{AllocError, Global};
use std::time::Instant;

/// How many connections are open at once.
pub(crate) const SLOTS: usize = 256;

// An accepted connection.
#[derive(Drop)]
struct Accepted {
    stream: TcpStream,
    parcel: Parcel,
    // When it was accepted, or something last came of it.
    heard: Instant,
    // Whether there may be more to read.
    ready: bool,
}

/// The connections that were accepted, each in its slot. They are read in turn, one frame each.
#[derive(Drop)]
pub(crate) struct Table {
    slots: Vec<Option<Accepted>>,
    turn: usize,
    ghost all: { length slots.items ≡ 256 },
}

impl Table {
    /// Slots for connections, with none in them. `None` means out of memory.
    pub(crate) fn new(alloc: Global) -> Option<Table> {
        let mut slots = Vec::new(alloc);
        if slots.resize_with(SLOTS, || None).is_err() {
            return None;
        }
        Some(Table { slots, turn: 0 })
    }

    /// A connection in a slot has something to read.
    pub(crate) fn wake(&mut self, at: usize, now: Instant) {
        if let Some(slot) = self.slots.get_mut(at) {
            wake_at(slot, now);
        }
    }

    /// A slot for one more connection: a free one, or else that of the connection that was silent longest. `None` if each has something
    /// to read.
    pub(crate) fn slot(&mut self) -> Option<usize>
        ensures within { IfSome result (λ at. at < SLOTS) }
        ensures gives_way { IfSome result (λ at. (slice_get self.new.slots.items at ≡ Some None) ⊎ IsQuietest self.new.slots.items at) }
    {
        match self.slots.iter().position(|slot| slot.is_none()) {
            Some(at) => Some(at),
            None => silent(&mut self.slots),
        }
    }

    /// Puts a connection in a slot, and closes the one that was there.
    pub(crate) fn put(&mut self, alloc: Global, at: usize, stream: TcpStream, now: Instant)
        requires { at < SLOTS }
        ensures { map stream_at self.new.slots.items ≡ slice_set (map stream_at self.old.slots.items) at (Some stream) }
    {
        self.slots[at] = Some(Accepted {
            stream,
            parcel: Parcel::new(alloc),
            heard: now,
            ready: true,
        });
    }

    /// Closes the connection that was silent longest, and returns whether there is one that has nothing to read.
    pub(crate) fn close_silent(&mut self) -> bool {
        match silent(&mut self.slots) {
            Some(at) => {
                self.slots[at] = None;
                true
            }
            None => false,
        }
    }

    /// Whether a connection is open.
    pub(crate) fn has_open(&self) -> bool {
        self.slots.iter().any(|slot| slot.is_some())
    }

    /// The next whole frame of those that may be read, or `None` if there is none yet. Connections that have ended are closed.
    pub(crate) fn next(&mut self, alloc: Global) -> Result<Option<Vec<u8>>, OutOfMemory>
        ensures { IfOk result (λ found. IfSome found (λ frame. length frame.items ≤ most_frame_bytes)) }
    {
        for _ in 0..SLOTS {
            match self.read_next(alloc) {
                Brought::Frame(frame) => return Ok(Some(frame)),
                Brought::OutOfMemory => return Err(AllocError),
                Brought::Nothing | Brought::End => {}
            }
        }
        Ok(None)
    }

    // Reads on in the slot whose turn it is.
    fn read_next(&mut self, alloc: Global) -> Brought
        ensures { Fits result }
    {
        let at = self.turn;
        self.turn = behind(at);
        match self.slots.get_mut(at) {
            Some(slot) => read_at(alloc, slot),
            None => Brought::Nothing,
        }
    }
}

// The connection in a slot has something to read.
fn wake_at(slot: &mut Option<Accepted>, now: Instant) {
    if let Some(open) = slot {
        open.ready = true;
        open.heard = now;
    }
}

// The slot behind a slot, in a circle.
fn behind(at: usize) -> usize
    ensures { result < SLOTS }
{
    if at < SLOTS - 1 { at + 1 } else { 0 }
}

// The slot of the connection that was silent longest, of those that have nothing to read by now.
fn silent(slots: &mut [Option<Accepted>]) -> Option<usize>
    ensures same { length slots.new ≡ length slots.old }
    ensures quietest { IfSome result (λ at. IsQuietest slots.new at) }
{
    for _ in 0..SLOTS {
        let at = quietest(slots)?;
        if !has_more(&mut slots[at]) {
            return Some(at);
        }
    }
    None
}

// The slot of the connection that was heard least lately, of those that have nothing to read.
fn quietest(slots: &[Option<Accepted>]) -> Option<usize>
    ensures some { IfSome result (λ at. IsQuietest slots.now at) }
    ensures none { IfNone result (All (λ slot. silent_since slot ≡ None) slots.now) }
{
    let mut found: Option<(usize, Instant)> = None;
    for (at, slot) in slots.iter().enumerate() {
        if let Some(heard) = silent_since(slot) {
            if is_earliest(heard, found) {
                found = Some((at, heard));
            }
        }
    }
    match found {
        Some((at, _)) => Some(at),
        None => None,
    }
}

// When the connection in a slot was heard, if it has nothing to read.
fn silent_since(slot: &Option<Accepted>) -> Option<Instant>
    ensures { option_map instant_nanos result ≡ silent_since slot.now }
{
    match slot {
        Some(open) if !open.ready => Some(open.heard),
        _ => None,
    }
}

// Whether this is before what was found, if anything was.
fn is_earliest(heard: Instant, found: Option<(usize, Instant)>) -> bool
    ensures earliest { IsTrue result → IfSome found (λ f. instant_nanos heard ≤ instant_nanos f.1) }
    ensures later { IsFalse result → IsSomeAnd found (λ f. instant_nanos f.1 ≤ instant_nanos heard) }
{
    match found {
        Some((_, before)) => heard.checked_duration_since(before).is_none(),
        None => true,
    }
}

// Whether the connection in a slot has something to read by now, and is kept therefore.
fn has_more(slot: &mut Option<Accepted>) -> bool
    ensures { IsFalse result → slot.new ≡ slot.old }
{
    let Some(open) = slot else {
        return false;
    };
    let more = matches!(open.stream.peek(&mut [0u8]), Ok(count) if count > 0);
    if more {
        open.ready = true;
    }
    more
}

// Reads on in a slot. A connection that has ended is closed.
fn read_at(alloc: Global, slot: &mut Option<Accepted>) -> Brought
    ensures { Fits result }
{
    let Some(open) = slot else {
        return Brought::Nothing;
    };
    if !open.ready {
        return Brought::Nothing;
    }
    let came = open.parcel.read_on(alloc, &mut open.stream);
    match &came {
        Brought::Nothing => open.ready = false,
        Brought::End => *slot = None,
        Brought::Frame(_) | Brought::OutOfMemory => {}
    }
    came
}
