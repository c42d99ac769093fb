//! Ports over the loopback.
use crate::calls::{at, call_timed, post, put_so, to};
use mio::Interest;
use mio::net::TcpStream;
use sg_base::{Addr, ByteOut, OutOfMemory};
use sg_link::socket_addr;
use sg_link::waiting::{GiveFault, Waiting, give_all, standing};
use sg_link::watch::Watch;
use sg_port::TcpPort;
use sg_table::{Calls, Target, answers, hold};
use sg_wait::TimedLink;
use std::alloc::Global;
use std::io::Write;
use std::net::TcpListener;
use std::time::{Clock, Duration, Instant};

#[derive(Drop)]
struct Loopback {
    rt: HostRuntime,
}

impl Calls for Loopback {
    fn answer(&self, alloc: Global, call: &str, args: &[Vec<u8>]) -> Option<Vec<u8>> {
        let _ = call;
        let mut ports = Ports {
            rt: self.rt.clone().ok()?,
            a: new_port(&self.rt)?,
            b: new_port(&self.rt)?,
            streams: Vec::new(alloc),
            listeners: Vec::new(alloc),
        };
        answers(alloc, &mut ports, args)
    }
}

fn new_port(rt: &HostRuntime) -> Option<TcpPort<HostRuntime>> {
    Some(TcpPort::new(rt.clone().ok()?))
}

// Two ports, and others: connections that give bytes and stay open, and listeners that accept none.
#[derive(Drop)]
struct Ports {
    rt: HostRuntime,
    a: TcpPort<HostRuntime>,
    b: TcpPort<HostRuntime>,
    streams: Vec<TcpStream>,
    listeners: Vec<TcpListener>,
}

// A call is one of a port, behind `a:` or `b:`, or one that needs more than one port.
impl Target for Ports {
    fn call(&mut self, alloc: Global, out: &mut ByteOut, word: &[u8]) -> Option<()> {
        if let Some(word) = word.strip_prefix(b"a:") {
            call_timed(alloc, &mut self.a, out, word)
        } else if let Some(word) = word.strip_prefix(b"b:") {
            call_timed(alloc, &mut self.b, out, word)
        } else {
            self.call_several(alloc, out, word)
        }
    }
}

impl Ports {
    // `play` has the ports of b and a behind it, and `brings` how often a frame comes to b, and the frame; `give` and `one:` have a port, and what many
    // others or another one gives there, `deaf` and `listen` a port, and `anew` nothing: there is another b.
    fn call_several(&mut self, alloc: Global, out: &mut ByteOut, word: &[u8]) -> Option<()> {
        if let Some(ports) = word.strip_prefix(b"play") {
            let (b, a) = to(ports)?;
            put_so(out, play(alloc, &mut self.a, &mut self.b, at(a)?, b)?)
        } else if let Some(word) = word.strip_prefix(b"brings") {
            let (times, frame) = word.split_first_chunk::<2>()?;
            put_so(
                out,
                come_often(alloc, &mut self.b, frame, u16::from_be_bytes(*times)),
            )
        } else {
            self.call_others(out, word)
        }
    }

    fn call_others(&mut self, out: &mut ByteOut, word: &[u8]) -> Option<()> {
        if let Some(word) = word.strip_prefix(b"give") {
            let (to, bytes) = to(word)?;
            put_so(out, all_give(&self.rt, &mut self.streams, to, bytes)?)
        } else if let Some(word) = word.strip_prefix(b"one:") {
            let (to, bytes) = to(word)?;
            put_given(out, given(&self.rt, to, bytes)?).ok()
        } else if let Some(port) = word.strip_prefix(b"deaf") {
            put_given(out, given_too_much(&self.rt, at(port)?)?).ok()
        } else if let Some(port) = word.strip_prefix(b"listen") {
            let listener = TcpListener::bind(&self.rt, socket_addr(at(port)?)).ok()?;
            self.listeners.push(listener).ok()
        } else if word == b"anew".as_slice() {
            self.b = new_port(&self.rt)?;
            Some(())
        } else {
            None
        }
    }
}

// Whether a frame goes from a to b and one back, 100 times.
fn play<L: TimedLink>(alloc: Global, a: &mut L, b: &mut L, at_a: Addr, at_b: Addr) -> Option<bool> {
    for _ in 0..100u32 {
        if !goes(alloc, a, b, at_b, b"ping")? || !goes(alloc, b, a, at_a, b"pong")? {
            return Some(false);
        }
    }
    Some(true)
}

// Whether a frame that one link sends to the other's address comes there.
fn goes<L: TimedLink>(
    alloc: Global,
    from: &mut L,
    to: &mut L,
    address: Addr,
    frame: &[u8],
) -> Option<bool> {
    Some(post(from, address, frame)? == Ok(()) && comes(alloc, to, frame))
}

// Whether a link gives these bytes next.
fn comes<L: TimedLink>(alloc: Global, link: &mut L, frame: &[u8]) -> bool {
    matches!(link.recv_within(alloc, Some(2_000)), Ok(Some(came)) if came.as_slice() == frame)
}

// Whether a link gives these bytes so many times.
fn come_often<L: TimedLink>(alloc: Global, link: &mut L, frame: &[u8], times: u16) -> bool {
    for _ in 0..times {
        if !comes(alloc, link, frame) {
            return false;
        }
    }
    true
}

// Connects 300 times, giving each time the same bytes, keeps the connections open, and returns whether all took the bytes.
fn all_give(
    rt: &HostRuntime,
    streams: &mut Vec<TcpStream>,
    to: Addr,
    bytes: &[u8],
) -> Option<bool> {
    let mut all = true;
    for _ in 0..300u32 {
        match gives(rt, to, bytes) {
            Some(stream) => streams.push(stream).ok()?,
            None => all = false,
        }
    }
    Some(all)
}

// Connects to an address, and gives bytes.
fn gives(rt: &HostRuntime, to: Addr, bytes: &[u8]) -> Option<TcpStream> {
    let mut stream = TcpStream::connect(rt, socket_addr(to)).ok()?;
    match stream.write(bytes) {
        Ok(count) if count == bytes.len() => Some(stream),
        _ => None,
    }
}

#[test]
fn two_play_over_kept_connections(rt: HostRuntime) -> Result<(), &'static str> {
    let alloc = rt.alloc();
    hold(alloc, &Loopback { rt }, &[TWO])
}

const TWO: &str = "
# Frames go to and fro, the last of 60,000 bytes.

ports 'a:recv 'a:bind+7045 'b:bind+7046 'play+7046+7045 'a:post+7046+60000*07 'b:wait2000 'the_link_failed,ok,ok,yes,ok,+60000*07+',
";

#[test]
fn many_are_read_side_by_side(rt: HostRuntime) -> Result<(), &'static str> {
    let alloc = rt.alloc();
    hold(alloc, &Loopback { rt }, &[SIDE_BY_SIDE])
}

const SIDE_BY_SIDE: &str = "
# 300 connections bring half a frame, and 300 more a frame each.

let PING 'a:post+7048+'ping
ports 'a:bind+7047 'b:bind+7048 'give+7048+00000009+'half 'b:wait0 'b:wait50 $PING 'b:wait2000 'give+7048+00000004+'many 'brings+012c+'many \
  $PING 'b:wait2000 'ok,ok,yes,none,none,ok,ping,yes,yes,ok,ping,
";

#[test]
fn who_is_away_or_does_not_answer_ends_nothing(rt: HostRuntime) -> Result<(), &'static str> {
    let alloc = rt.alloc();
    hold(alloc, &Loopback { rt }, &[AWAY])
}

const AWAY: &str = "
# A peer is away, comes, goes and comes again; another one has a full queue of connections, and accepts none.

let PING 'a:post+704a+'ping
ports 'a:bind+7049 $PING 'b:bind+704a $PING 'b:wait2000 'anew $PING 'b:bind+704a 'listen+704b 'give+704b+'x 'a:post+704b+'ping $PING 'b:wait2000 \
  'ok,the_call_failed,ok,ok,ping,the_call_failed,ok,no,the_call_failed,ok,ping,
";

#[test]
fn who_takes_no_bytes_ends_nothing(rt: HostRuntime) -> Result<(), &'static str> {
    let alloc = rt.alloc();
    hold(alloc, &Loopback { rt }, &[DEAF])
}

const DEAF: &str = "
# The system takes a connection for a peer that never reads, and of 64 MiB what its buffers hold.

ports 'b:bind+704d 'listen+704e 'deaf+704e 'one:+704d+00000004+'ping 'b:wait2000 'ok,late,ok,ping,
";

// Who waits for a connection, and takes nothing in.
#[derive(Drop)]
struct Giver {
    watch: Watch,
}

impl Waiting for Giver {
    fn waits_for(&self, stream: &mut TcpStream) -> bool {
        self.watch.add(stream, 0, Interest::WRITABLE)
    }

    fn wait<C: Clock>(&mut self, clock: &C, most: Duration) -> bool {
        let _ = clock;
        self.watch.wait(Some(most))
    }
}

// Gives bytes over a connection of their own, within a second.
fn given(rt: &HostRuntime, to: Addr, bytes: &[u8]) -> Option<Result<(), GiveFault>> {
    let mut giver = Giver {
        watch: Watch::new(rt, rt.alloc(), 4)?,
    };
    let within = Duration::from_secs(1);
    let begun = Instant::now(rt).ok()?;
    let stream = TcpStream::connect(rt, socket_addr(to)).ok()?;
    let mut stream = standing(rt, &mut giver, stream, begun, within).ok()??;
    Some(give_all(rt, &mut giver, &mut stream, bytes, begun, within))
}

// The same of 64 MiB, which must end within ten seconds.
fn given_too_much(rt: &HostRuntime, to: Addr) -> Option<Result<(), GiveFault>> {
    let bytes = vec![in rt.alloc(); 7u8; 67_108_864].ok()?;
    let begun = Instant::now(rt).ok()?;
    let given = given(rt, to, &bytes)?;
    if begun.elapsed(rt).ok()? < Duration::from_secs(10) {
        Some(given)
    } else {
        None
    }
}

fn put_given(out: &mut ByteOut, given: Result<(), GiveFault>) -> Result<(), OutOfMemory> {
    match given {
        Ok(()) => out.bytes(b"ok,"),
        Err(GiveFault::Broken) => out.bytes(b"broken,"),
        Err(GiveFault::Late) => out.bytes(b"late,"),
    }
}
