//! The file of a disk in memory, with a record of its calls.
ghost use Rattle.std.specs.Prelude.{◌≡◌, ◌+◌, ◌++◌, ◌^◌, ◌<◌, ◌≤◌, [], ◌∷◌, ◌&&◌, nat_lt, nat_le, length, vec_capacity, All, IfOk};
ghost use Rattle.sg_ledger.specs.Disk.{overlaid, Elapses};
ghost use Rattle.sg_ledger.specs.Memory.{padded, torn_by, picked, platter, after_call, with_call, IsImage, LeftSince};
ghost use Rattle.sg_ledger.specs.declared.medium.DiskCall.TheVariants.{Kept, Wrote, Tore, Synced};

use sg_base::OutOfMemory;
use std::alloc::Global;
use std::marker::Model;

/// A call of a disk in memory, as its record has it.
#[derive(Clone, Copy, PartialEq, Eq)]
pub enum DiskCall {
    /// One that changed nothing.
    Kept,
    /// A write of `count` bytes from the offset `at` on.
    Wrote {
        /// The offset.
        at: u32,
        /// How many bytes.
        count: u32,
    },
    /// A write that failed.
    Tore {
        /// The offset.
        at: u32,
        /// How many bytes.
        count: u32,
    },
    /// A sync that succeeded.
    Synced,
}

// The bytes as read and those at the last sync stand beside the record, and the ranges of the writes since.
#[derive(Drop)]
pub(crate) struct Medium {
    start: Vec<u8>,
    calls: Vec<DiskCall>,
    written: Vec<u8>,
    bytes: Vec<u8>,
    synced: Vec<u8>,
    tears: Vec<(u32, u32)>,
    room: usize,
    most: usize,
}

impl Model for Medium {
    ghost use Rattle.sg_ledger.specs.Memory.{Medium as Held};
    ghost use Rattle.sg_ledger.specs.Invariant.{IsTied};

    ghost Value = { Held };

    ghost view = { λ m. record { start = m.start.items; calls = m.calls.items; written = m.written.items; room = m.room; most = m.most } };

    ghost invariant = { λ m. IsTied m };
}

impl Medium {
    pub(crate) fn new(alloc: Global, room: u32, most: u32) -> Result<Medium, OutOfMemory>
        ensures { IfOk result (λ m. m ≡ record { start = []; calls = []; written = []; room = room; most = most }) }
    {
        let (room, most) = (room as usize, most as usize);
        Ok(Medium {
            start: Vec::with_capacity(alloc, room)?,
            calls: Vec::with_capacity(alloc, most)?,
            written: Vec::with_capacity(alloc, room)?,
            bytes: Vec::with_capacity(alloc, room)?,
            synced: Vec::with_capacity(alloc, room)?,
            tears: Vec::with_capacity(alloc, most)?,
            room,
            most,
        })
    }

    pub(crate) fn bytes(&self) -> &[u8]
        ensures bytes { result.now ≡ (platter self.now).seen }
        ensures within { length result.now ≤ self.now.room }
        ensures small { self.now.room < 2 ^ 32 }
    {
        self.bytes.as_slice()
    }

    // `count` bytes from the offset `at` on fit, and `count` more may be written.
    pub(crate) fn has_room_for(&self, at: u32, count: usize) -> bool
        ensures { result ≡ (nat_le (at + count) self.now.room && nat_le (length self.now.written + count) self.now.room) }
    {
        let at = at as usize;
        at <= self.room
            && count <= self.room - at
            && self.written.len() <= self.room
            && count <= self.room - self.written.len()
    }

    pub(crate) fn calls(&self) -> &[DiskCall]
        ensures { result.now ≡ self.now.calls }
    {
        self.calls.as_slice()
    }

    pub(crate) fn has_room_for_a_call(&self) -> bool
        ensures { result ≡ nat_lt (length self.now.calls) self.now.most }
    {
        self.calls.len() < self.most
    }

    pub(crate) fn keep(&mut self)
        requires { length self.old.calls < self.old.most }
        ensures call { self.new ≡ with_call self.old Kept [] }
        ensures state { platter self.new ≡ after_call (platter self.old) Kept [] }
        ensures time { Elapses (length self.old.calls) (length self.new.calls) (LeftSince self.old) (LeftSince self.new) (IsImage (platter self.new)) }
    {
        push_within(&mut self.calls, DiskCall::Kept);
    }

    // Writes over what is there, and past the end.
    pub(crate) fn write(&mut self, at: u32, bytes: &[u8])
        requires call { length self.old.calls < self.old.most }
        requires begins { at ≤ length (platter self.old).seen }
        requires fits { at + length bytes.now ≤ self.old.room }
        requires record { length self.old.written + length bytes.now ≤ self.old.room }
        requires count { length bytes.now < 2 ^ 32 }
        ensures call { self.new ≡ with_call self.old (Wrote at (length bytes.now)) bytes.now }
        ensures state { platter self.new ≡ after_call (platter self.old) (Wrote at (length bytes.now)) bytes.now }
        ensures time { Elapses (length self.old.calls) (length self.new.calls) (LeftSince self.old) (LeftSince self.new) (IsImage (platter self.new)) }
    {
        let count = bytes.len() as u32;
        write_over(&mut self.bytes, at as usize, bytes);
        append_within(&mut self.written, bytes);
        push_within(&mut self.tears, (at, count));
        push_within(&mut self.calls, DiskCall::Wrote { at, count });
    }

    // Notes a write that failed.
    pub(crate) fn tear(&mut self, at: u32, count: u32)
        requires call { length self.old.calls < self.old.most }
        requires fits { at + count ≤ self.old.room }
        ensures call { self.new ≡ with_call self.old (Tore at count) [] }
        ensures state { platter self.new ≡ after_call (platter self.old) (Tore at count) [] }
        ensures time { Elapses (length self.old.calls) (length self.new.calls) (LeftSince self.old) (LeftSince self.new) (IsImage (platter self.new)) }
    {
        push_within(&mut self.tears, (at, count));
        push_within(&mut self.calls, DiskCall::Tore { at, count });
    }

    // Brings the bytes to the disk.
    pub(crate) fn sync(&mut self)
        requires { length self.old.calls < self.old.most }
        ensures call { self.new ≡ with_call self.old Synced [] }
        ensures state { platter self.new ≡ after_call (platter self.old) Synced [] }
        ensures time { Elapses (length self.old.calls) (length self.new.calls) (LeftSince self.old) (LeftSince self.new) (IsImage (platter self.new)) }
    {
        put_within(&mut self.synced, &self.bytes);
        self.tears.clear();
        push_within(&mut self.calls, DiskCall::Synced);
    }

    // The disk after a crash that left an image: the bytes at the last sync, with the next of the picks in each range.
    pub(crate) fn crash(self, picks: &[u8]) -> Medium
        ensures picked { result.start ≡ picked (platter self).synced (platter self).tears picks.now }
        ensures image { IsImage (platter self) result.start }
        ensures calls { result.calls ≡ [] }
        ensures written { result.written ≡ [] }
        ensures room { result.room ≡ self.room }
        ensures most { result.most ≡ self.most }
    {
        let Medium {
            mut start,
            mut calls,
            mut written,
            mut bytes,
            synced: mut image,
            mut tears,
            room,
            most,
        } = self;
        tear_all(&mut image, &mut written, &tears, picks, room);
        put_within(&mut start, &image);
        put_within(&mut bytes, &image);
        calls.clear();
        written.clear();
        tears.clear();
        Medium {
            start,
            calls,
            written,
            bytes,
            synced: image,
            tears,
            room,
            most,
        }
    }
}

// Writes the next picks over each range; `buffer` has room for one.
fn tear_all(
    image: &mut Vec<u8>,
    buffer: &mut Vec<u8>,
    tears: &[(u32, u32)],
    picks: &[u8],
    room: usize,
)
    requires ranges { All (λ r. r.0 + r.1 ≤ room) tears.now }
    requires image { length image.old.items ≤ room }
    requires room { room ≤ vec_capacity image.old }
    requires buffer { room ≤ vec_capacity buffer.old }
    ensures image { image.new.items ≡ picked image.old.items tears.now picks.now }
    ensures fits { length image.new.items ≤ room }
    ensures room { room ≤ vec_capacity image.new }
    ensures buffer { room ≤ vec_capacity buffer.new }
{
    let mut rest = tears;
    let mut left = picks;
    while let [tear, after @ ..] = rest {
        tear_one(image, buffer, *tear, left, room);
        left = &left[left.len().min(tear.1 as usize)..];
        rest = after;
    }
}

fn tear_one(image: &mut Vec<u8>, buffer: &mut Vec<u8>, tear: (u32, u32), picks: &[u8], room: usize)
    requires range { tear.0 + tear.1 ≤ room }
    requires image { length image.old.items ≤ room }
    requires room { room ≤ vec_capacity image.old }
    requires buffer { room ≤ vec_capacity buffer.old }
    ensures image { image.new.items ≡ torn_by image.old.items tear picks.now }
    ensures fits { length image.new.items ≤ room }
    ensures room { room ≤ vec_capacity image.new }
    ensures buffer { room ≤ vec_capacity buffer.new }
{
    let (at, count) = (tear.0 as usize, tear.1 as usize);
    pad_within(buffer, picks, count);
    if at <= image.len() {
        write_over(image, at, buffer);
    }
}

// Puts the first picks in the place of a list's bytes, and zeros where they end.
fn pad_within(list: &mut Vec<u8>, picks: &[u8], count: usize)
    requires { count ≤ vec_capacity list.old }
    ensures items { list.new.items ≡ padded count picks.now }
    ensures capacity { vec_capacity list.old ≤ vec_capacity list.new }
{
    put_within(list, &picks[..picks.len().min(count)]);
    match list.resize(count, 0) {
        Ok(()) => {}
        Err(_) => {}
    }
}

// Writes over a list from an offset on and past its end, within its capacity.
fn write_over(list: &mut Vec<u8>, at: usize, bytes: &[u8])
    requires begins { at ≤ length list.old.items }
    requires room { at + length bytes.now ≤ vec_capacity list.old }
    ensures items { list.new.items ≡ overlaid list.old.items at bytes.now }
    ensures capacity { vec_capacity list.old ≤ vec_capacity list.new }
{
    let within = bytes.len().min(list.len() - at);
    put_at(list, at, &bytes[..within]);
    append_within(list, &bytes[within..]);
}

fn put_at(list: &mut Vec<u8>, at: usize, bytes: &[u8])
    requires { at + length bytes.now ≤ length list.old.items }
    ensures items { list.new.items ≡ overlaid list.old.items at bytes.now }
    ensures capacity { vec_capacity list.new ≡ vec_capacity list.old }
{
    list[at..at + bytes.len()].copy_from_slice(bytes);
}

// Puts bytes in the place of those of a list, within its capacity.
fn put_within(list: &mut Vec<u8>, bytes: &[u8])
    requires { length bytes.now ≤ vec_capacity list.old }
    ensures items { list.new.items ≡ bytes.now }
    ensures capacity { vec_capacity list.old ≤ vec_capacity list.new }
{
    list.clear();
    append_within(list, bytes);
}

fn append_within(list: &mut Vec<u8>, bytes: &[u8])
    requires { length list.old.items + length bytes.now ≤ vec_capacity list.old }
    ensures items { list.new.items ≡ list.old.items ++ bytes.now }
    ensures capacity { vec_capacity list.old ≤ vec_capacity list.new }
{
    match list.extend_from_slice(bytes) {
        Ok(()) => {}
        Err(_) => {}
    }
}

// Adds a value that there is room for.
fn push_within<T: Drop>(list: &mut Vec<T>, value: T)
    requires { length list.old.items < vec_capacity list.old }
    ensures items { list.new.items ≡ list.old.items ++ value ∷ [] }
    ensures capacity { vec_capacity list.old ≤ vec_capacity list.new }
{
    match list.push(value) {
        Ok(()) => {}
        Err(_) => {}
    }
}
