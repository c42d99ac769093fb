//! Words that are calls of links and of connections.
use sg_base::{Addr, ByteOut, Failed, Link, LinkFault, OutOfMemory, Sealed};
use sg_stream::Conns;
use sg_table::{byte, bytes, fixed, name, number};
use sg_wait::TimedLink;
use std::alloc::Global;
use std::fmt;

/// An address on the loopback with this port.
pub fn at(port: &[u8]) -> Option<Addr> {
    Some(Addr {
        ip: [127, 0, 0, 1],
        port: u16::from_be_bytes(fixed(port)?),
    })
}

/// The address that a word begins with by its port, and what is behind it.
pub fn to(word: &[u8]) -> Option<(Addr, &[u8])> {
    let (port, rest) = word.split_first_chunk::<2>()?;
    Some((at(port)?, rest))
}

/// Puts what a call answers that gives nothing.
pub fn put(out: &mut ByteOut, answer: Result<(), Failed>) -> Result<(), OutOfMemory> {
    match answer {
        Ok(()) => out.bytes(b"ok,"),
        Err(fault) => write!(out, "{fault},"),
    }
}

/// Puts whether something is so.
pub fn put_so(out: &mut ByteOut, is_so: bool) -> Option<()> {
    out.bytes(if is_so { b"yes," } else { b"no," }).ok()
}

/// Makes a call of a link: `open` has a port behind it, `send` a port and a frame, and `recv` nothing.
pub fn call<L: Link>(alloc: Global, link: &mut L, out: &mut ByteOut, word: &[u8]) -> Option<()> {
    if let Some(port) = word.strip_prefix(b"open") {
        put(out, link.open(at(port)?)).ok()
    } else if let Some(sent) = word.strip_prefix(b"send") {
        let (to, frame) = to(sent)?;
        send(link, out, to, bytes(alloc, frame)?)
    } else if word == b"recv".as_slice() {
        put_came(out, link.recv(alloc)).ok()
    } else {
        None
    }
}

/// Makes a call of a link on which one waits with a limit: `bind` has a port behind it, `post` a port and a frame, and `wait` milliseconds, or nothing
/// if there is no limit. Others are those of a link.
pub fn call_timed<L: TimedLink>(
    alloc: Global,
    link: &mut L,
    out: &mut ByteOut,
    word: &[u8],
) -> Option<()> {
    if let Some(port) = word.strip_prefix(b"bind") {
        put(out, link.open_at(at(port)?)).ok()
    } else if let Some(sent) = word.strip_prefix(b"post") {
        let (to, frame) = to(sent)?;
        put(out, post(link, to, frame)?).ok()
    } else if let Some(millis) = word.strip_prefix(b"wait") {
        let within = if millis.is_empty() {
            None
        } else {
            Some(number(millis)?)
        };
        put_came(out, link.recv_within(alloc, within)).ok()
    } else {
        call(alloc, link, out, word)
    }
}

/// Posts a frame, if it is one.
pub fn post<L: TimedLink>(link: &mut L, to: Addr, frame: &[u8]) -> Option<Result<(), Failed>> {
    if frame.is_empty() || frame.len() > 60_000 {
        return None;
    }
    Some(link.post(to, frame))
}

// Sends a frame, and puts whether it went out. One that comes back must be the same, for the same principal.
fn send<L: Link>(link: &mut L, out: &mut ByteOut, to: Addr, frame: Vec<u8>) -> Option<()> {
    let bob = name(b"bob")?;
    if frame.is_empty() || frame.len() > 60_000 {
        return None;
    }
    match link.send(to, Sealed::seal(bob, frame)) {
        Ok(()) => out.bytes(b"sent,").ok(),
        Err((back, Failed)) => {
            let (name, frame) = back.release();
            if name != bob {
                return None;
            }
            out.bytes(&frame).ok()?;
            out.bytes(b" comes back,").ok()
        }
    }
}

fn put_came(
    out: &mut ByteOut,
    came: Result<Option<Vec<u8>>, LinkFault>,
) -> Result<(), OutOfMemory> {
    match came {
        Ok(Some(frame)) => {
            out.bytes(&frame)?;
            out.u8(b',')
        }
        Ok(None) => out.bytes(b"none,"),
        Err(fault) => write!(out, "{fault},"),
    }
}

/// Puts frames that were sent, each behind its port.
pub fn put_sent(out: &mut ByteOut, frames: &[(Addr, Vec<u8>)]) -> Result<(), OutOfMemory> {
    for (to, frame) in frames {
        out.u16(to.port)?;
        out.bytes(frame)?;
        out.u8(b';')?;
    }
    Ok(())
}

/// Makes a call of connections: `open` and `connect` have a port behind them, `give` a connection and bytes, `close` a connection, and `take` nothing.
pub fn call_conns<C: Conns>(
    alloc: Global,
    conns: &mut C,
    out: &mut ByteOut,
    word: &[u8],
) -> Option<()> {
    if let Some(port) = word.strip_prefix(b"open") {
        put(out, conns.open(at(port)?)).ok()
    } else if let Some(port) = word.strip_prefix(b"connect") {
        put_number(out, conns.connect(at(port)?)).ok()
    } else if let Some(given) = word.strip_prefix(b"give") {
        put_number(out, give(conns, given)?).ok()
    } else if let Some(conn) = word.strip_prefix(b"close") {
        conns.close(byte(conn)?);
        Some(())
    } else if word == b"take".as_slice() {
        put_taken(out, conns.take(alloc)).ok()
    } else {
        None
    }
}

/// Puts the number that a call answers.
pub fn put_number<T: fmt::Display + Drop>(
    out: &mut ByteOut,
    answer: Result<T, Failed>,
) -> Result<(), OutOfMemory> {
    match answer {
        Ok(number) => write!(out, "{number},"),
        Err(fault) => write!(out, "{fault},"),
    }
}

// Gives bytes to a connection, whose number is before them.
fn give<C: Conns>(conns: &mut C, given: &[u8]) -> Option<Result<usize, Failed>> {
    let (conn, piece) = given.split_first()?;
    if piece.is_empty() {
        return None;
    }
    Some(conns.give(*conn, piece))
}

fn put_taken(
    out: &mut ByteOut,
    taken: Result<Option<(u8, Vec<u8>)>, LinkFault>,
) -> Result<(), OutOfMemory> {
    match taken {
        Ok(Some((conn, piece))) => {
            out.u8(conn)?;
            out.bytes(&piece)?;
            out.u8(b',')
        }
        Ok(None) => out.bytes(b"none,"),
        Err(fault) => write!(out, "{fault},"),
    }
}
