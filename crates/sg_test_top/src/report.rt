//! What a run left, as lines have it.
use crate::around::{Outputs, random_source};
use sg_base::{Addr, ByteOut, Fresh, Link, MemFresh, MemSink, OutOfMemory};
use sg_input::{Input, MemInput};
use sg_ledger::MemDisk;
use std::alloc::Global;

/// Puts how a run ended: `status` and its status; `says` and what was written to standard error, if that is anything; and what was written to
/// standard output.
pub fn put_said(out: &mut ByteOut, status: u8, outputs: &Outputs) -> Result<(), OutOfMemory> {
    out.bytes(b"status ")?;
    out.decimal(u64::from(status))?;
    out.u8(b'\n')?;
    if !outputs.err.bytes().is_empty() {
        out.bytes(b"says ")?;
    }
    out.bytes(outputs.err.bytes())?;
    out.bytes(outputs.out.bytes())
}

/// Puts a line for each frame that went out over a link: this word, the address and the bytes.
pub fn put_frames(
    out: &mut ByteOut,
    what: &[u8],
    frames: &[(Addr, Vec<u8>)],
) -> Result<(), OutOfMemory> {
    for (to, frame) in frames {
        put_one(out, what, *to, frame)?;
    }
    Ok(())
}

/// Puts a line `gives` for each connection that was made for writing, with the address and what it was given.
pub fn put_given(out: &mut ByteOut, closed: &[(Addr, MemSink)]) -> Result<(), OutOfMemory> {
    for (to, given) in closed {
        put_one(out, b"gives ", *to, given.bytes())?;
    }
    Ok(())
}

fn put_one(out: &mut ByteOut, what: &[u8], to: Addr, bytes: &[u8]) -> Result<(), OutOfMemory> {
    let ip = to.ip;
    out.bytes(what)?;
    out.bytes(&ip)?;
    out.u16(to.port)?;
    out.bytes(bytes)?;
    out.u8(b'\n')
}

/// Puts `stands`, how many bytes the file of a disk has, and its head and its first slot.
pub fn put_disk(out: &mut ByteOut, disk: &MemDisk) -> Result<(), OutOfMemory> {
    let bytes = disk.bytes();
    out.bytes(b"stands ")?;
    out.decimal(bytes.len() as u64)?;
    out.u8(b' ')?;
    if let Some((first, _)) = bytes.split_at_checked(42) {
        out.bytes(first)?;
    }
    out.u8(b'\n')
}

/// Puts a line for each delivery that is still to come.
pub fn put_coming<L: Link>(alloc: Global, out: &mut ByteOut, link: &mut L) -> Option<()> {
    for _ in 0..8 {
        let Some(bytes) = link.recv(alloc).ok()? else {
            return Some(());
        };
        out.bytes(b"left ").ok()?;
        out.bytes(&bytes).ok()?;
        out.u8(b'\n').ok()?;
    }
    None
}

/// Puts the name of an object if it is so.
pub fn put_if(out: &mut ByteOut, is_so: bool, name: &[u8]) -> Result<(), OutOfMemory> {
    if is_so {
        return out.bytes(name);
    }
    Ok(())
}

/// Whether nothing was asked of a link whose first call fails.
pub fn is_new<L: Link>(link: &mut L) -> bool {
    let at = Addr {
        ip: [127, 0, 0, 1],
        port: 4003,
    };
    link.open(at).is_err() && link.open(at).is_ok()
}

/// Whether nothing was asked of an input whose first call fails.
pub fn is_unread(input: &mut MemInput) -> bool {
    let mut room = [0u8; 8];
    input.read(&mut room).is_err() && input.read(&mut room).is_ok()
}

/// Whether no random bytes were drawn.
pub fn is_undrawn(alloc: Global, fresh: &mut MemFresh) -> Option<bool> {
    let mut again = random_source(alloc)?;
    Some(fresh.next() == again.next())
}
