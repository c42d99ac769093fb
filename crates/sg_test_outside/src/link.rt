//! Links and connections of the system, over the loopback.
use crate::calls::{at, call, call_conns, call_timed, put_so, to};
use sg_base::{Addr, ByteOut};
use sg_link::{TcpConns, UdpLink};
use sg_stream::{Conns, StreamLink};
use sg_table::{Calls, Target, answers, hold, number};
use std::alloc::Global;
use std::time::{Duration, Instant};

#[derive(Drop)]
struct Loopback {
    rt: HostRuntime,
}

impl Calls for Loopback {
    fn answer(&self, alloc: Global, call: &str, args: &[Vec<u8>]) -> Option<Vec<u8>> {
        match call {
            "udp" => answers(alloc, &mut self.udp()?, args),
            "stream" => answers(alloc, &mut self.stream(alloc)?, args),
            _ => answers(alloc, &mut self.two_conns()?, args),
        }
    }
}

impl Loopback {
    fn udp(&self) -> Option<OnUdp> {
        let rt = self.rt.clone().ok()?;
        let link = UdpLink::new(self.rt.clone().ok()?);
        Some(OnUdp { rt, link })
    }

    fn stream(&self, alloc: Global) -> Option<OnStream> {
        let link = self.link(alloc)?;
        let other = self.conns()?;
        Some(OnStream { link, other })
    }

    fn link(&self, alloc: Global) -> Option<StreamLink<TcpConns<HostRuntime>>> {
        StreamLink::new(alloc, self.conns()?).ok()
    }

    fn two_conns(&self) -> Option<OnConns> {
        let one = self.conns()?;
        let other = self.conns()?;
        Some(OnConns { one, other })
    }

    // Connections that wait for 200 milliseconds at most.
    fn conns(&self) -> Option<TcpConns<HostRuntime>> {
        let rt = self.rt.clone().ok()?;
        Some(TcpConns::with_limit(rt, Duration::from_millis(200)))
    }
}

#[derive(Drop)]
struct OnUdp {
    rt: HostRuntime,
    link: UdpLink<HostRuntime>,
}

// A call is one of the link. One of `wait` behind `whole` must take as long as its limit says.
impl Target for OnUdp {
    fn call(&mut self, alloc: Global, out: &mut ByteOut, word: &[u8]) -> Option<()> {
        let Some(wait) = word.strip_prefix(b"whole") else {
            return call_timed(alloc, &mut self.link, out, word);
        };
        let least = number(wait.strip_prefix(b"wait")?)?;
        let begun = Instant::now(&self.rt).ok()?;
        call_timed(alloc, &mut self.link, out, wait)?;
        let gone = begun.elapsed(&self.rt).ok()?;
        if gone >= Duration::from_millis(u64::from(least)) {
            Some(())
        } else {
            None
        }
    }
}

// A link over connections, and other connections.
#[derive(Drop)]
struct OnStream {
    link: StreamLink<TcpConns<HostRuntime>>,
    other: TcpConns<HostRuntime>,
}

// A call is one of the link, or behind `other` one of the connections.
impl Target for OnStream {
    fn call(&mut self, alloc: Global, out: &mut ByteOut, word: &[u8]) -> Option<()> {
        match word.strip_prefix(b"other") {
            Some(word) => call_tcp(alloc, &mut self.other, out, word),
            None => call(alloc, &mut self.link, out, word),
        }
    }
}

#[derive(Drop)]
struct OnConns {
    one: TcpConns<HostRuntime>,
    other: TcpConns<HostRuntime>,
}

// A call is one of the first connections, or behind `other` one of the others.
impl Target for OnConns {
    fn call(&mut self, alloc: Global, out: &mut ByteOut, word: &[u8]) -> Option<()> {
        match word.strip_prefix(b"other") {
            Some(word) => call_tcp(alloc, &mut self.other, out, word),
            None => call_tcp(alloc, &mut self.one, out, word),
        }
    }
}

// A call of connections: `sends` has a port behind it, a size and bytes, `many` a port, `left` a port, two numbers and bytes, and `whole` nothing, for
// all that a connection brings. Others are those of connections.
fn call_tcp<C: Conns>(alloc: Global, conns: &mut C, out: &mut ByteOut, word: &[u8]) -> Option<()> {
    if let Some(sent) = word.strip_prefix(b"sends") {
        let (to, sent) = to(sent)?;
        let (size, bytes) = sent.split_first()?;
        put_so(out, sends(conns, to, bytes, usize::from(*size)))
    } else if let Some(port) = word.strip_prefix(b"many") {
        let to = at(port)?;
        put_so(out, send_many(conns, to) && take_many(alloc, conns)?)
    } else if let Some(tries) = word.strip_prefix(b"left") {
        let (to, tries) = to(tries)?;
        let ([a, b, c, d], bytes) = tries.split_first_chunk::<4>()?;
        let most = u16::from_be_bytes([*a, *b]);
        let times = u16::from_be_bytes([*c, *d]);
        put_so(out, is_left(conns, to, most, times, bytes))
    } else if word == b"whole".as_slice() {
        let came = taken(alloc, conns)?;
        out.bytes(&came).ok()?;
        out.u8(b',').ok()
    } else {
        call_conns(alloc, conns, out, word)
    }
}

// Gives bytes over a connection of their own, `size` at a time, and returns whether all were taken.
fn sends<C: Conns>(conns: &mut C, to: Addr, bytes: &[u8], size: usize) -> bool {
    let Ok(conn) = conns.connect(to) else {
        return false;
    };
    let mut whole = true;
    for piece in bytes.chunks(size.max(1)) {
        if !piece.is_empty() && conns.give(conn, piece).is_err() {
            whole = false;
        }
    }
    conns.close(conn);
    whole
}

// Sends 300 times four bytes, a number that counts up, and returns whether all were taken.
fn send_many<C: Conns>(conns: &mut C, to: Addr) -> bool {
    for number in 0..300u32 {
        if !sends(conns, to, &number.to_be_bytes(), 3) {
            return false;
        }
    }
    true
}

// Whether the same are brought by the next 300 connections.
fn take_many<C: Conns>(alloc: Global, conns: &mut C) -> Option<bool> {
    for number in 0..300u32 {
        if taken(alloc, conns)?.as_slice() != number.to_be_bytes().as_slice() {
            return Some(false);
        }
    }
    Some(true)
}

// All that a connection brings.
fn taken<C: Conns>(alloc: Global, conns: &mut C) -> Option<Vec<u8>> {
    let mut all = Vec::new(alloc);
    for _ in 0..u32::MAX {
        let Ok(Some((0, piece))) = conns.take(alloc) else {
            return None;
        };
        if piece.is_empty() {
            return Some(all);
        }
        all.extend_from_slice(&piece).ok()?;
    }
    None
}

// Connects, gives bytes and closes the connection until one of these calls fails, so many times at most, and returns whether one did. Over each
// connection the bytes are given so many times.
fn is_left<C: Conns>(conns: &mut C, to: Addr, most: u16, times: u16, bytes: &[u8]) -> bool {
    for _ in 0..most {
        let Ok(conn) = conns.connect(to) else {
            return true;
        };
        let fails = fails_to_give(conns, conn, times, bytes);
        conns.close(conn);
        if fails {
            return true;
        }
    }
    false
}

fn fails_to_give<C: Conns>(conns: &mut C, conn: u8, times: u16, bytes: &[u8]) -> bool {
    for _ in 0..times {
        if bytes.is_empty() || conns.give(conn, bytes).is_err() {
            return true;
        }
    }
    false
}

#[test]
fn frames_come_back_over_udp(rt: HostRuntime) -> Result<(), &'static str> {
    let alloc = rt.alloc();
    hold(alloc, &Loopback { rt }, &[DATAGRAMS])
}

const DATAGRAMS: &str = "
# A frame comes back as it is.

let LONG 59999*07+09
udp 'recv 'open+6e8d 'send+6e8d+$LONG 'recv 'the_link_failed,ok,sent,+$LONG+',

# A wait ends in time, and not before.

udp 'wait0 'post+6e97+'abc 'bind+6e97 'wait0 'wholewait50 'wait0 'the_link_failed,the_call_failed,ok,none,none,none,

# What came is given with any limit.

let ABC 'post+6e98+'abc
udp 'bind+6e98 $ABC 'wait0 $ABC 'wait50 $ABC 'wait 'wait0 $ABC 'wait 'wait1 'post+6e98+'x 'recv \
  'ok,ok,abc,ok,abc,ok,abc,none,ok,abc,none,ok,x,
";

#[test]
fn frames_come_over_connections(rt: HostRuntime) -> Result<(), &'static str> {
    let alloc = rt.alloc();
    hold(alloc, &Loopback { rt }, &[CONNECTIONS])
}

const CONNECTIONS: &str = "
# A frame of a link, which is open, and what others send to it, once they are open: in pieces of nine bytes a length of 0 and a byte, of five bytes
# less than a length says, and of one byte a frame.

let LONG 59999*07+09
stream 'recv 'open+6e8e 'send+6e8e+$LONG 'othersends+6e8e+01+'x 'otheropen+6e8f 'othersends+6e8e+09+0000000000000001+'x \
  'othersends+6e8e+05+00000002+'y 'othersends+6e8e+01+00000003+'abc 'recv 'recv 'the_link_failed,ok,sent,no,ok,yes,yes,yes,+$LONG+',abc,
";

#[test]
fn more_than_the_system_holds_is_taken_in(rt: HostRuntime) -> Result<(), &'static str> {
    let alloc = rt.alloc();
    hold(alloc, &Loopback { rt }, &[MANY])
}

const MANY: &str = "
# 300 connections that somebody makes to itself before it takes one.

conns 'open+6e90 'many+6e90 'ok,yes,
";

#[test]
fn who_is_silent_or_takes_nothing_is_left(rt: HostRuntime) -> Result<(), &'static str> {
    let alloc = rt.alloc();
    hold(alloc, &Loopback { rt }, &[SILENT])
}

const SILENT: &str = "
# Somebody connects and is silent, before a connection with bytes; takes none of the bytes that are given to it, so many times over one connection; and
# doesn't accept so many connections.

conns 'open+6e91 'otheropen+6e92 'otherconnect+6e91 'sends+6e91+01+'abc 'whole 'whole 'left+6e92+0001+2710+60000*07 'left+6e92+012c+0001+'x \
  'ok,ok,1,yes,,abc,yes,yes,
";
