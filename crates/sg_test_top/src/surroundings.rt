//! What a line gives to the program: files, and for its next run calls that fail, room, lines, deliveries and pieces.
use sg_base::Seq;
use sg_table::{bytes, number};
use sg_wait::Coming;
use std::alloc::Global;
use std::str;

/// The bytes of each file that there may be, by its name.
#[derive(Drop)]
pub struct Texts {
    pub f: Vec<u8>,
    pub c: Vec<u8>,
    pub k: Vec<u8>,
    pub s: Vec<u8>,
    pub p: Vec<u8>,
}

impl Texts {
    /// Empty files.
    pub fn new(alloc: Global) -> Texts {
        Texts {
            f: Vec::new(alloc),
            c: Vec::new(alloc),
            k: Vec::new(alloc),
            s: Vec::new(alloc),
            p: Vec::new(alloc),
        }
    }

    /// Gives a file its bytes.
    pub fn put(&mut self, name: &str, text: Vec<u8>) -> Option<()> {
        match name {
            "f" => self.f = text,
            "c" => self.c = text,
            "k" => self.k = text,
            "s" => self.s = text,
            "p" => self.p = text,
            _ => return None,
        }
        Some(())
    }
}

/// Which call of each object fails, counted from 1, none for 0.
#[derive(Clone, Copy)]
pub struct Fails {
    pub files: u32,
    pub out: u32,
    pub err: u32,
    pub link: u32,
    pub stream: u32,
    pub port: u32,
    pub input: u32,
}

/// If nothing is said of the links over connections, they fail at their first call.
pub const WHOLE: Fails = Fails {
    files: 0,
    out: 0,
    err: 0,
    link: 0,
    stream: 1,
    port: 1,
    input: 0,
};

impl Fails {
    fn put(&mut self, object: &str, call: u32) -> Option<()> {
        match object {
            "files" => self.files = call,
            "out" => self.out = call,
            "err" => self.err = call,
            "link" => self.link = call,
            "stream" => self.stream = call,
            "port" => self.port = call,
            "input" => self.input = call,
            _ => return None,
        }
        Some(())
    }
}

/// What the next run has besides its files and its disk.
#[derive(Drop)]
pub struct Surroundings {
    pub fails: Fails,
    /// How many bytes standard output takes.
    pub room: u32,
    /// What stands on standard input.
    pub asks: Vec<u8>,
    /// What is to come on the link.
    pub coming: Vec<Coming>,
    /// What is to come on the connections.
    pub pieces: Vec<(u8, Seq<u8>)>,
}

// The bytes that standard output takes if nothing is said.
const MOST_OUT: u32 = 10_000;

impl Surroundings {
    /// Room enough, and nothing else.
    pub fn new(alloc: Global) -> Surroundings {
        Surroundings {
            fails: WHOLE,
            room: MOST_OUT,
            asks: Vec::new(alloc),
            coming: Vec::new(alloc),
            pieces: Vec::new(alloc),
        }
    }

    /// What is left for the run after the next, if all deliveries, pieces and lines were taken.
    pub fn end(&mut self) {
        self.fails = WHOLE;
        self.room = MOST_OUT;
    }

    /// Takes what a word gives.
    pub fn put(&mut self, alloc: Global, what: &str, rest: &[u8]) -> Option<()> {
        match what {
            "fails" => self.fail(rest),
            "room" => self.make_room(rest),
            "asks" => self.asks.extend_from_slice(rest).ok(),
            "comes" => self.deliver(alloc, rest),
            "silence" => self.coming.push(Coming::Silence).ok(),
            "piece" => self.add_piece(alloc, rest),
            _ => None,
        }
    }

    fn fail(&mut self, rest: &[u8]) -> Option<()> {
        let (object, call) = parted(rest)?;
        self.fails.put(str::from_utf8(object).ok()?, number(call)?)
    }

    fn make_room(&mut self, rest: &[u8]) -> Option<()> {
        self.room = number(rest)?;
        Some(())
    }

    fn deliver(&mut self, alloc: Global, rest: &[u8]) -> Option<()> {
        let delivery = Seq::from_vec(bytes(alloc, rest)?);
        self.coming.push(Coming::Delivery(delivery)).ok()
    }

    fn add_piece(&mut self, alloc: Global, rest: &[u8]) -> Option<()> {
        let (conn, piece) = rest.split_first()?;
        let piece = Seq::from_vec(bytes(alloc, piece)?);
        self.pieces.push((*conn, piece)).ok()
    }
}

/// What stands before the first blank, and behind it.
pub fn parted(word: &[u8]) -> Option<(&[u8], &[u8])> {
    let at = word.iter().position(|byte| *byte == b' ');
    let (first, rest) = word.split_at_checked(at.unwrap_or(word.len()))?;
    Some((first, rest.strip_prefix(b" ").unwrap_or(rest)))
}
