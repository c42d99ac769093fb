//! The objects around the program, in memory, and its call.
ghost use Rattle.std.specs.Prelude.{◌≡◌, ◌==◌, ◌++◌, ◌∷◌, [], map, string_bytes, IfSome};
ghost use Rattle.std.specs.List.{list_any};

use crate::surroundings::{Fails, Surroundings, Texts, WHOLE};
use sg_base::{MemFiles, MemFresh, MemSink, Seq};
use sg_input::MemInput;
use sg_ledger::MemDisk;
use sg_stream::{MemConns, StreamLink};
use sg_top::top;
use sg_wait::{Coming, MemTimedLink, TimedLink};
use std::alloc::Global;
use std::mem;

/// What is around the program beside its link and its disk.
#[derive(Drop)]
pub struct Around {
    pub files: MemFiles,
    pub outputs: Outputs,
    pub conns: ConnLinks,
    pub fresh: MemFresh,
    pub input: MemInput,
}

/// Standard output and standard error.
#[derive(Drop)]
pub struct Outputs {
    pub out: MemSink,
    pub err: MemSink,
}

impl Outputs {
    // Standard output with so much room, and standard error.
    fn new(alloc: Global, room: u32, fails: Fails) -> Option<Outputs> {
        let out = sink(alloc, room, fails.out)?;
        let err = sink(alloc, 1_000, fails.err)?;
        Some(Outputs { out, err })
    }
}

/// The links over connections: one that makes a connection for each frame, and one that keeps its connections.
#[derive(Drop)]
pub struct ConnLinks {
    pub stream: StreamLink<MemConns>,
    pub port: MemTimedLink,
}

impl ConnLinks {
    // Links to which these pieces are to come on the first, and nothing on the other.
    fn new(alloc: Global, pieces: Vec<(u8, Seq<u8>)>, fails: Fails) -> Option<ConnLinks> {
        let stream = stream(alloc, pieces, fails.stream)?;
        let port = link(alloc, Vec::new(alloc), fails.port)?;
        Some(ConnLinks { stream, port })
    }
}

impl Around {
    /// Empty files and an empty input, and outputs and links as if a line gave nothing.
    pub fn new(alloc: Global) -> Option<Around> {
        let outputs = Outputs::new(alloc, 0, WHOLE)?;
        let conns = ConnLinks::new(alloc, Vec::new(alloc), WHOLE)?;
        Some(Around {
            fresh: random_source(alloc)?,
            outputs,
            conns,
            files: MemFiles::new(Vec::new(alloc), Vec::new(alloc)),
            input: MemInput::new(Vec::new(alloc), Vec::new(alloc), Vec::new(alloc)),
        })
    }

    /// Makes all of it anew, as a line gives it.
    pub fn renew(
        &mut self,
        alloc: Global,
        texts: &Texts,
        surroundings: &mut Surroundings,
    ) -> Option<()> {
        self.outputs = Outputs::new(alloc, surroundings.room, surroundings.fails)?;
        self.fresh = random_source(alloc)?;
        self.renew_files(alloc, texts, surroundings.fails)?;
        self.renew_conns(alloc, surroundings)?;
        self.renew_input(alloc, surroundings)
    }

    fn renew_files(&mut self, alloc: Global, texts: &Texts, fails: Fails) -> Option<()> {
        self.files = files(alloc, texts, fails.files)?;
        Some(())
    }

    fn renew_conns(&mut self, alloc: Global, surroundings: &mut Surroundings) -> Option<()> {
        let pieces = mem::replace(&mut surroundings.pieces, Vec::new(alloc));
        self.conns = ConnLinks::new(alloc, pieces, surroundings.fails)?;
        Some(())
    }

    fn renew_input(&mut self, alloc: Global, surroundings: &mut Surroundings) -> Option<()> {
        let asks = mem::replace(&mut surroundings.asks, Vec::new(alloc));
        self.input = input(alloc, asks, surroundings.fails.input)?;
        Some(())
    }
}

/// The link that a line gives.
pub fn link_of(alloc: Global, surroundings: &mut Surroundings) -> Option<MemTimedLink> {
    let coming = mem::replace(&mut surroundings.coming, Vec::new(alloc));
    link(alloc, coming, surroundings.fails.link)
}

/// Runs the program, and gives its status.
pub fn run<L: TimedLink>(
    alloc: Global,
    args: &[String],
    around: &mut Around,
    link: &mut L,
    disk: &mut MemDisk,
) -> u8 {
    top(
        alloc,
        args,
        &mut around.files,
        &mut around.outputs.out,
        &mut around.outputs.err,
        link,
        &mut around.fresh,
        disk,
        &mut around.conns.stream,
        &mut around.conns.port,
        &mut around.input,
    )
}

/// Random bytes for eight draws, the same in each run.
pub fn random_source(alloc: Global) -> Option<MemFresh> {
    MemFresh::new(alloc, [7; 32], 8).ok()
}

/// An empty disk with room for so many bytes, and for calls if for bytes, of which each call after the first `stop` fails, if that is given.
pub fn disk(alloc: Global, room: u32, stop: Option<u32>) -> Option<MemDisk> {
    let calls = if room == 0 { 0 } else { 60 };
    MemDisk::new(alloc, room, calls, Vec::new(alloc), stop).ok()
}

fn files(alloc: Global, texts: &Texts, fails: u32) -> Option<MemFiles> {
    let mut files = Vec::new(alloc);
    add_file(alloc, &mut files, "f", &texts.f)?;
    add_file(alloc, &mut files, "c", &texts.c)?;
    add_file(alloc, &mut files, "k", &texts.k)?;
    add_file(alloc, &mut files, "s", &texts.s)?;
    add_file(alloc, &mut files, "p", &texts.p)?;
    let fails = only(alloc, fails)?;
    Some(MemFiles::new(files, fails))
}

// Adds a file of this name.
fn add_file(
    alloc: Global,
    files: &mut Vec<(String, Vec<u8>)>,
    name: &str,
    bytes: &[u8],
) -> Option<()>
    ensures { IfSome result (λ _. map (λ f. string_bytes f.0) files.new.items ≡ map (λ f. string_bytes f.0) files.old.items ++ name.now ∷ []) }
{
    let name = String::from_str(alloc, name).ok()?;
    let bytes = bytes.to_vec(alloc).ok()?;
    files.push((name, bytes)).ok()
}

// The number of the call that fails.
fn only(alloc: Global, call: u32) -> Option<Vec<u32>> {
    vec![in alloc; call].ok()
}

fn sink(alloc: Global, room: u32, fails: u32) -> Option<MemSink> {
    MemSink::new(alloc, room, only(alloc, fails)?).ok()
}

// A link with room for eight frames.
fn link(alloc: Global, coming: Vec<Coming>, fails: u32) -> Option<MemTimedLink> {
    MemTimedLink::new(alloc, coming, 8, 60_000, only(alloc, fails)?).ok()
}

fn stream(alloc: Global, pieces: Vec<(u8, Seq<u8>)>, fails: u32) -> Option<StreamLink<MemConns>> {
    StreamLink::new(alloc, conns(alloc, pieces, fails)?).ok()
}

// Connections, of which one is for writing.
fn conns(alloc: Global, pieces: Vec<(u8, Seq<u8>)>, fails: u32) -> Option<MemConns> {
    if has_writer(&pieces) {
        return None;
    }
    MemConns::new(alloc, pieces, 1, 200, only(alloc, fails)?).ok()
}

// A piece is of the connection for writing.
fn has_writer(pieces: &[(u8, Seq<u8>)]) -> bool
    ensures { result ≡ list_any (λ p. p.0 == 255) pieces.now }
{
    pieces.iter().any(|piece| piece.0 == 255)
}

// An input whose first 20 bytes come, then 15, and then the others.
fn input(alloc: Global, asks: Vec<u8>, fails: u32) -> Option<MemInput> {
    let pieces = vec![in alloc; 20u32, 15].ok()?;
    Some(MemInput::new(asks, pieces, only(alloc, fails)?))
}
