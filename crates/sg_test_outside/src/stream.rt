//! Frames over streams of bytes, and connections in memory.
ghost use Rattle.std.specs.Prelude.{◌≡◌, ◌==◌};
ghost use Rattle.std.specs.List.{list_any};

use crate::calls::{call, call_conns};
use sg_base::{Addr, ByteOut, Failed, Link, LinkFault, MemSink, OutOfMemory, Seq};
use sg_stream::{Conns, MemConns, StreamLink, StreamReader};
use sg_table::{Calls, Target, answers, bytes, hold, number};
use std::alloc::{AllocError, Global};

struct Streams;

impl Calls for Streams {
    fn answer(&self, alloc: Global, call: &str, args: &[Vec<u8>]) -> Option<Vec<u8>> {
        if call == "reader" {
            let reader = StreamReader::new(alloc);
            return answers(alloc, &mut Pieces { reader }, args);
        }
        let [count, room, fails, calls @ ..] = args else {
            return None;
        };
        let conns = conns(alloc, count, room, fails, calls)?;
        if call == "conns" {
            answers(alloc, &mut OnConns { conns }, calls)
        } else {
            answers(alloc, &mut link(alloc, conns)?, calls)
        }
    }
}

fn link(alloc: Global, conns: MemConns) -> Option<OnLink> {
    let link = StreamLink::new(alloc, conns).ok()?;
    Some(OnLink { link })
}

// A reader of pieces.
#[derive(Drop)]
struct Pieces {
    reader: StreamReader,
}

// A call is a piece, or nothing for a call of `next`.
impl Target for Pieces {
    fn call(&mut self, alloc: Global, out: &mut ByteOut, word: &[u8]) -> Option<()> {
        if word.is_empty() {
            put_next(alloc, &mut self.reader, out).ok()
        } else {
            self.reader.feed(word).ok()
        }
    }
}

fn put_next(
    alloc: Global,
    reader: &mut StreamReader,
    out: &mut ByteOut,
) -> Result<(), OutOfMemory> {
    match reader.next(alloc) {
        Ok(Some(frame)) => out.bytes(&frame)?,
        Ok(None) => out.bytes(b"none")?,
        Err(fault) => write!(out, "{fault}")?,
    }
    out.u8(b',')
}

// Connections with room for so many of them for writing, and for so many bytes in each, of which a call fails. The pieces to come are those of these
// words: behind `piece` each has the number of its connection and its bytes.
fn conns(
    alloc: Global,
    count: &[u8],
    room: &[u8],
    fails: &[u8],
    words: &[Vec<u8>],
) -> Option<MemConns> {
    let mut pieces = Vec::new(alloc);
    for word in words {
        if let Some(piece) = word.strip_prefix(b"piece") {
            let (conn, piece) = piece.split_first()?;
            let piece = Seq::from_vec(bytes(alloc, piece)?);
            pieces.push((*conn, piece)).ok()?;
        }
    }
    if has_writer(&pieces) {
        return None;
    }
    let fails = vec![in alloc; number(fails)?].ok()?;
    MemConns::new(alloc, pieces, number(count)?, number(room)?, fails).ok()
}

// A piece is of the connection for writing.
fn has_writer(pieces: &[(u8, Seq<u8>)]) -> bool
    ensures { result ≡ list_any (λ p. p.0 == 255) pieces.now }
{
    pieces.iter().any(|piece| piece.0 == 255)
}

// Connections.
#[derive(Drop)]
struct OnConns {
    conns: MemConns,
}

// A call is one of theirs, or a piece that comes. In the end comes what each connection for writing was given that was closed: its port,
// and the bytes.
impl Target for OnConns {
    fn call(&mut self, alloc: Global, out: &mut ByteOut, word: &[u8]) -> Option<()> {
        if word.starts_with(b"piece") {
            return Some(());
        }
        call_conns(alloc, &mut self.conns, out, word)
    }

    fn end(&self, out: &mut ByteOut) -> Result<(), OutOfMemory> {
        put_closed(out, self.conns.closed())
    }
}

fn put_closed(out: &mut ByteOut, closed: &[(Addr, MemSink)]) -> Result<(), OutOfMemory> {
    for (to, sink) in closed {
        out.u16(to.port)?;
        out.bytes(sink.bytes())?;
        out.u8(b';')?;
    }
    Ok(())
}

// A link over connections.
#[derive(Drop)]
struct OnLink {
    link: StreamLink<MemConns>,
}

// The same of its calls.
impl Target for OnLink {
    fn call(&mut self, alloc: Global, out: &mut ByteOut, word: &[u8]) -> Option<()> {
        if word.starts_with(b"piece") {
            return Some(());
        }
        call(alloc, &mut self.link, out, word)
    }

    fn end(&self, out: &mut ByteOut) -> Result<(), OutOfMemory> {
        put_closed(out, self.link.conns().closed())
    }
}

#[test]
fn streams_and_connections(rt: HostRuntime) -> Result<(), &'static str> {
    hold(rt.alloc(), &Streams, &[LINES])
}

const LINES: &str = "
let ABC 00000003+'abc
let Z 00000001+'z
let LONG 0000ea61

# What a reader gives that takes these pieces, by a call of `next` at each empty word. Pieces of one byte; many frames in a piece; and lengths of
# 60,001 and 0, which stay.

reader ' 00 ' 00 ' 00 ' 03 ' 'a ' 'b ' 'c ' ' 00 ' 00 ' 00 ' 01 ' 'z ' ' 'none,none,none,none,none,none,none,abc,none,none,none,none,none,z,none,
reader $ABC+$Z $ABC+$Z ' ' ' ' ' 'abc,z,abc,z,none,
reader $LONG ' $ABC+$Z ' 'a_length_of_60001,a_length_of_60001,
reader 00000000 ' 'a_length_of_0,

# Calls on connections in memory. These have room for so many connections for writing, with so many bytes each, and a call fails, whose
# number comes next; then come the pieces, each behind its connection, and the calls. In the end come the connections for writing that were closed, by
# their ports, and what they were given.

# A closed connection gives no piece.

conns '0 '0 '3 'piece+01+'a 'piece+02+'b 'piece+01+'c 'piece+01 'piece+01+'d \
  'open+0004 'take 'take 'close+01 'take 'take 'take \
  'ok,+01+'a,the_link_failed,+02+'b,+01+'d,none,

# Connections for writing have room.

conns '2 '3 '0 'give+ff+'a 'connect+0004 'connect+0004 'give+ff+'ab 'give+ff+'cd 'give+ff+'d 'close+ff 'connect+0005 'close+ff 'connect+0006 \
  'the_call_failed,255,the_call_failed,2,1,the_call_failed,255,the_call_failed,+0004+'abc;+0005+';

# The same of calls on a link over connections. Frames come in the order in which they are whole; each goes out over a connection of its own.

link '0 '0 '3 'piece+01+00000003+'a 'piece+02+$Z+00000001+'y+00000002+'x 'piece+01+'bc+$LONG 'piece+02 'piece+01+00000001+'v 'piece+01 \
  'piece+02+00000001+'w 'piece+01+00000001+'u 'recv 'recv 'recv 'recv 'recv 'recv 'recv \
  'z,y,the_link_failed,abc,w,u,none,
link '3 '7 '6 'send+0004+'abc 'send+0005+'x 'send+0006+'abcd 'send+0007+'y \
  'sent,x_comes_back,abcd_comes_back,y_comes_back,+0004+$ABC+';+0005+00000001+';+0006+00000004+'abc;
";

// Connections that end without end.
#[derive(Drop)]
struct Endless {
    bound: Option<Addr>,
}

impl Conns for Endless {
    ghost use Rattle.std.specs.Prelude.{None};
    ghost use Rattle.sg_stream.specs.Counts.{no_faults};

    ghost faults = { λ _. no_faults };

    ghost bound = { λ c. c.bound };

    ghost held = { λ _. None };

    fn open(&mut self, at: Addr) -> Result<(), Failed> {
        self.bound = Some(at);
        Ok(())
    }

    fn take(&mut self, alloc: Global) -> Result<Option<(u8, Vec<u8>)>, LinkFault> {
        Ok(Some((7, Vec::new(alloc))))
    }

    fn close(&mut self, conn: u8) {
        let _ = conn;
    }

    fn connect(&mut self, to: Addr) -> Result<u8, Failed> {
        let _ = to;
        Ok(8)
    }

    fn give(&mut self, conn: u8, piece: &[u8]) -> Result<usize, Failed> {
        let _ = conn;
        Ok(piece.len())
    }
}

#[test]
fn a_million_pieces_without_a_message_are_a_fault(rt: HostRuntime) -> Result<(), OutOfMemory> {
    let alloc = rt.alloc();
    let Ok(mut link) = StreamLink::new(alloc, Endless { bound: None }) else {
        return Err(AllocError);
    };
    assert!(rt; matches!(link.recv(alloc), Err(LinkFault::Failed)));
    Ok(())
}
