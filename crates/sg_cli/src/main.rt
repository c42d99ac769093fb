//! `sessiongraph`: checks, composes and compiles session graphs, runs one principal, also over a ledger of its joins or over TCP, serves applications, replays
//! schedules, generates runs, and audits logs of sessions.
//!
//! All of this is `top` of `sg_top`. Here are the objects of the system that it works on, and the end if the system doesn't give them. What the system may
//! refuse is asked for first, each in a function of its own: the standard descriptors, the arguments, a random seed, and memory for connections.
#![tactic(auto)]

use sg_base::{Fresh, StdFiles, StdSink};
use sg_ending::{end_without_args, end_without_descriptors, end_without_memory, end_without_seed};
use sg_input::StdInput;
use sg_ledger::FileDisk;
use sg_link::{TcpConns, UdpLink};
use sg_port::TcpPort;
use sg_stream::{Conns, StreamLink};
use sg_system::{OsFresh, StdDescriptors, hold_standard};
use sg_top::top;
use std::process::ExitCode;
use std::{env, io};

// Ends with the program's status.
fn main(rt: HostRuntime) -> ExitCode {
    ExitCode::from(on_descriptors(&rt))
}

// Nothing is opened before the standard descriptors are held, so nothing that is opened takes one of their numbers.
fn on_descriptors(rt: &HostRuntime) -> u8 {
    let mut descriptors = StdDescriptors::new(rt, rt.stdin(), rt.stdout(), rt.stderr());
    match hold_standard(&mut descriptors) {
        Ok(()) => on_args(rt),
        Err(_) => end_without_descriptors(),
    }
}

fn on_args(rt: &HostRuntime) -> u8 {
    match args_of(rt) {
        Ok(args) => on_seed(rt, args.as_slice()),
        Err(e) => without_args(rt, e.kind()),
    }
}

// The arguments after the program's name.
fn args_of(rt: &HostRuntime) -> io::Result<Vec<String>> {
    Ok(env::args(rt)?.skip(1).collect(rt.alloc())?)
}

// How the program ends if it has no arguments: one of them is no UTF-8, so it is in no command, or memory ran out.
fn without_args(rt: &HostRuntime, kind: io::ErrorKind) -> u8 {
    let mut err = StdSink::new(rt.stderr());
    match kind {
        io::ErrorKind::InvalidData => end_without_args(rt.alloc(), &mut err),
        _ => end_without_memory(&mut err),
    }
}

fn on_seed(rt: &HostRuntime, args: &[String]) -> u8 {
    match OsFresh::seeded(rt) {
        Some(mut fresh) => on_conns(rt, args, &mut fresh, TcpConns::new(rt)),
        None => end_without_seed(&mut StdSink::new(rt.stderr())),
    }
}

fn on_conns<R: Fresh, C: Conns + Drop>(
    rt: &HostRuntime,
    args: &[String],
    fresh: &mut R,
    conns: C,
) -> u8 {
    match StreamLink::new(rt.alloc(), conns) {
        Ok(mut stream) => on_objects(rt, args, fresh, &mut stream),
        Err(_) => end_without_memory(&mut StdSink::new(rt.stderr())),
    }
}

// Does the work. The other objects are always there.
fn on_objects<R: Fresh, C: Conns>(
    rt: &HostRuntime,
    args: &[String],
    fresh: &mut R,
    stream: &mut StreamLink<C>,
) -> u8 {
    top(
        rt.alloc(),
        args,
        &mut StdFiles::new(rt),
        &mut StdSink::new(io::writer(rt)),
        &mut StdSink::new(rt.stderr()),
        &mut UdpLink::new(rt),
        fresh,
        &mut FileDisk::new(rt),
        stream,
        &mut TcpPort::new(rt),
        &mut StdInput::new(rt.stdin()),
    )
}
