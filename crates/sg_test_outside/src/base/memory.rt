//! Objects in memory.
use crate::calls;
use sg_base::{
    ByteOut, FileFault, Files, Fresh, MemFiles, MemFresh, MemLink, MemSink, OutOfMemory, Sink,
    write_all,
};
use sg_table::{Calls, Target, answers, bytes, fixed, hold, number};
use std::alloc::Global;
use std::str;

struct Memory;

impl Calls for Memory {
    fn answer(&self, alloc: Global, call: &str, args: &[Vec<u8>]) -> Option<Vec<u8>> {
        match args {
            [seed, count, draws] if call == "fresh" => {
                fresh(alloc, fixed(seed)?, number(count)?, number(draws)?)
            }
            [room, fails, pieces @ ..] if call == "sink" => {
                answers(alloc, &mut sink(alloc, room, fails)?, pieces)
            }
            [fails, names @ ..] if call == "files" => {
                answers(alloc, &mut two_files(alloc, fails)?, names)
            }
            [delivery, room, fails, words @ ..] => {
                answers(alloc, &mut link(alloc, delivery, room, fails)?, words)
            }
            _ => None,
        }
    }
}

fn sink(alloc: Global, room: &[u8], fails: &[u8]) -> Option<OnSink> {
    let sink = MemSink::new(alloc, number(room)?, only(alloc, fails)?).ok()?;
    Some(OnSink { sink })
}

// A link with one delivery to come.
fn link(alloc: Global, delivery: &[u8], room: &[u8], fails: &[u8]) -> Option<OnLink> {
    let room = number(room)?;
    let fails = only(alloc, fails)?;
    let deliveries = vec![in alloc; bytes(alloc, delivery)?].ok()?;
    let link = MemLink::new(alloc, deliveries, room, fails).ok()?;
    Some(OnLink { link })
}

// The number of the call that fails.
fn only(alloc: Global, call: &[u8]) -> Option<Vec<u32>> {
    vec![in alloc; number(call)?].ok()
}

#[derive(Drop)]
struct OnSink {
    sink: MemSink,
}

// A call writes the bytes behind `once` as far as the sink takes them, or all behind `all`. In the end comes what was written.
impl Target for OnSink {
    fn call(&mut self, alloc: Global, out: &mut ByteOut, word: &[u8]) -> Option<()> {
        let _ = alloc;
        if let Some(piece) = word.strip_prefix(b"all") {
            return calls::put(out, write_all(&mut self.sink, piece)).ok();
        }
        put_taken(&mut self.sink, out, word.strip_prefix(b"once")?)
    }

    fn end(&self, out: &mut ByteOut) -> Result<(), OutOfMemory> {
        out.bytes(self.sink.bytes())
    }
}

fn put_taken<S: Sink>(sink: &mut S, out: &mut ByteOut, piece: &[u8]) -> Option<()> {
    if piece.is_empty() {
        return None;
    }
    match sink.write(piece) {
        Ok(count) => write!(out, "{count},").ok(),
        Err(fault) => write!(out, "{fault},").ok(),
    }
}

// A file of three bytes, and one of four.
fn two_files(alloc: Global, fails: &[u8]) -> Option<OnFiles> {
    let fails = only(alloc, fails)?;
    let short = (
        String::from_str(alloc, "short").ok()?,
        bytes(alloc, b"abc")?,
    );
    let long = (
        String::from_str(alloc, "long").ok()?,
        bytes(alloc, b"abcd")?,
    );
    let files = MemFiles::new(vec![in alloc; short, long].ok()?, fails);
    Some(OnFiles { files })
}

#[derive(Drop)]
struct OnFiles {
    files: MemFiles,
}

// A call is the name of a file, of which at most three bytes are asked for.
impl Target for OnFiles {
    fn call(&mut self, alloc: Global, out: &mut ByteOut, word: &[u8]) -> Option<()> {
        put_read(alloc, &mut self.files, out, str::from_utf8(word).ok()?, 3)
    }
}

/// Puts what comes of reading a file.
pub fn put_read<F: Files>(
    alloc: Global,
    files: &mut F,
    out: &mut ByteOut,
    name: &str,
    most: u32,
) -> Option<()> {
    match files.read(alloc, name, most) {
        Ok(Some(bytes)) => {
            out.bytes(&bytes).ok()?;
            out.u8(b',').ok()
        }
        Ok(None) => out.bytes(b"none,").ok(),
        Err(FileFault::OutOfMemory) => None,
        Err(fault) => write!(out, "{fault},").ok(),
    }
}

#[derive(Drop)]
struct OnLink {
    link: MemLink,
}

// A call is one of the link. In the end come the frames that were sent.
impl Target for OnLink {
    fn call(&mut self, alloc: Global, out: &mut ByteOut, word: &[u8]) -> Option<()> {
        calls::call(alloc, &mut self.link, out, word)
    }

    fn end(&self, out: &mut ByteOut) -> Result<(), OutOfMemory> {
        calls::put_sent(out, self.link.frames())
    }
}

// What so many draws give of so many times sixteen bytes of a seed.
fn fresh(alloc: Global, seed: [u8; 32], count: u32, draws: u32) -> Option<Vec<u8>> {
    let mut fresh = MemFresh::new(alloc, seed, count).ok()?;
    let mut out = ByteOut::new(alloc);
    for _ in 0..draws {
        out.bytes(&fresh.next()).ok()?;
    }
    Some(out.done())
}

#[test]
fn objects_in_memory(rt: HostRuntime) -> Result<(), &'static str> {
    hold(rt.alloc(), &Memory, &[LINES])
}

const LINES: &str = "
# A sink with room for so many bytes, of which a call fails, takes what it has room for.

sink '3 '0 'onceabcde 'oncede '3,the_call_failed,abc
sink '3 '2 'allab 'allc 'allcd 'ok,the_call_failed,the_call_failed,abc

# Files by name, of which a call fails.

files '4 'short 'long 'shor 'short 'short 'abc,the_file_is_too_long,none,the_file_could_not_be_read,abc,

# A link with one delivery to come and room for so many frames, of which a call fails.

link 'one '1 '3 'open+0004 'recv 'open+0004 'recv 'send+0004+'f 'send+0004+'f \
  'ok,one,the_call_failed,none,sent,f_comes_back,+0004+'f;

# Random bytes are the key stream of ChaCha20 by their seed, and zeros behind the last. RFC 8439, appendix A.1, the first test: the key stream of a key
# of zeros. That of a key of sevens was made by another program.

fresh 32*00 '2 '2 76b8e0ada0f13d90405d6ae55386bd28bdd219b8a08ded1aa836efcc8b770dc7
let SEVENS f400927857aaf64114f561baacb379708c79a1dc1476ab573216a4020764bde545c143dbb9609c22ab855d60925a997603d78a3f20d154abd8ddfa6974eedf6b
let SEVENS $SEVENS+3784290c606b04fdc0720400c961e366b6ea14d411fcc53dea4f44c9bb4d7408de0ea89a53f1ecf3f3d0a462fb77d2baf5e0e5dfefb6897bbd7460315e81182a
let SEVENS $SEVENS+c2be6756184ff1346102aa1a537271de
fresh 32*07 '9 '10 $SEVENS+16*00
";
