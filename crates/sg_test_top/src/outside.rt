//! What the words of a line do, one after the other.
//!
//! `beside FILE BYTES` gives a file its bytes, one of f, c, k, s and p. `disk` makes an empty disk with room for a ledger, `disk N` one that stops
//! after N calls; without them the disk has no room.
//!
//! For the next run alone: `fails OBJECT N` has call N fail of the files, out, err, the link, the stream, the port or the input (none for 0; of stream
//! and port else the first); `room N` has standard output take N bytes; `asks LINES` gives standard input; `comes BYTES` and `silence` come on the
//! link, and `piece BYTES` on the connection whose number is the first byte.
//!
//! `args ARG..` runs the program, whose random bytes are the same each time, and puts how it ended: its status, what it wrote to standard error and to
//! standard output, and a line for each frame that went out: `sends` over the link, `posts` over the connections that are kept, `gives` for what each
//! connection was given that was made for writing. `crash BYTES` leaves these bytes of what was written to the disk and not synced.
//!
//! `stands` puts what stands on the disk; `left link` and `left stream` a line for each delivery that is still to come; `unasked` the names of the
//! objects of which nothing was asked, which of the links and the input shows only if their first call fails.
use crate::around::{Around, disk, link_of, run};
use crate::report::{
    is_new, is_undrawn, is_unread, put_coming, put_disk, put_frames, put_given, put_if, put_said,
};
use crate::surroundings::{Surroundings, Texts, parted};
use sg_base::{ByteOut, OutOfMemory};
use sg_ledger::MemDisk;
use sg_table::{Calls, Target, answers, bytes, number, yes};
use sg_wait::{MemTimedLink, TimedLink};
use std::alloc::Global;
use std::{mem, str};

/// What is around the program.
#[derive(Drop)]
pub struct Outside {
    texts: Texts,
    surroundings: Surroundings,
    disk: MemDisk,
    link: MemTimedLink,
    around: Around,
    status: u8,
}

// The bytes of an empty disk with room for a ledger.
const ROOM: u32 = 2_300_000;

impl Outside {
    /// Empty files, a disk that has no room, and nothing that came.
    pub fn new(alloc: Global) -> Option<Outside> {
        let around = Around::new(alloc)?;
        let disk = disk(alloc, 0, None)?;
        let mut surroundings = Surroundings::new(alloc);
        Some(Outside {
            link: link_of(alloc, &mut surroundings)?,
            texts: Texts::new(alloc),
            surroundings,
            disk,
            around,
            status: 0,
        })
    }

    // Runs the program.
    fn run(&mut self, alloc: Global, args: &[u8]) -> Option<()> {
        let args = args_of(alloc, args)?;
        self.renew(alloc)?;
        self.status = run(
            alloc,
            &args,
            &mut self.around,
            &mut self.link,
            &mut self.disk,
        );
        Some(())
    }

    /// Runs the program over another link, and puts what it said.
    pub fn run_over<L: TimedLink>(
        &mut self,
        alloc: Global,
        out: &mut ByteOut,
        args: &[u8],
        link: &mut L,
    ) -> Option<()> {
        let args = args_of(alloc, args)?;
        self.renew(alloc)?;
        let status = run(alloc, &args, &mut self.around, link, &mut self.disk);
        put_said(out, status, &self.around.outputs).ok()
    }

    // Makes what is around the next run of what was given for it.
    fn renew(&mut self, alloc: Global) -> Option<()> {
        self.around
            .renew(alloc, &self.texts, &mut self.surroundings)?;
        self.link = link_of(alloc, &mut self.surroundings)?;
        self.surroundings.end();
        Some(())
    }

    fn crash(&mut self, alloc: Global, picks: &[u8]) -> Option<()> {
        let before = mem::replace(&mut self.disk, disk(alloc, 0, None)?);
        self.disk = before.crash(picks);
        Some(())
    }

    fn make_disk(&mut self, alloc: Global, stop: &[u8]) -> Option<()> {
        let stop = if stop.is_empty() {
            None
        } else {
            Some(number(stop)?)
        };
        self.disk = disk(alloc, ROOM, stop)?;
        Some(())
    }

    fn add_text(&mut self, alloc: Global, rest: &[u8]) -> Option<()> {
        let (name, text) = parted(rest)?;
        let text = bytes(alloc, text)?;
        self.texts.put(str::from_utf8(name).ok()?, text)
    }

    // Takes what a word gives to the next run.
    fn prepare(&mut self, alloc: Global, what: &str, rest: &[u8]) -> Option<()> {
        match what {
            "beside" => self.add_text(alloc, rest),
            "disk" => self.make_disk(alloc, rest),
            _ => self.surroundings.put(alloc, what, rest),
        }
    }

    fn put_left(&self, out: &mut ByteOut) -> Option<()> {
        put_said(out, self.status, &self.around.outputs).ok()?;
        put_frames(out, b"sends ", self.link.frames()).ok()?;
        put_frames(out, b"posts ", self.around.conns.port.frames()).ok()?;
        put_given(out, self.around.conns.stream.conns().closed()).ok()
    }

    fn put_rest(&mut self, alloc: Global, out: &mut ByteOut, link: &[u8]) -> Option<()> {
        if link == b"link".as_slice() {
            put_coming(alloc, out, &mut self.link)
        } else {
            put_coming(alloc, out, &mut self.around.conns.stream)
        }
    }

    fn put_unasked(&mut self, alloc: Global, out: &mut ByteOut) -> Option<()> {
        let is_undrawn = is_undrawn(alloc, &mut self.around.fresh)?;
        self.put_unasked_links(out).ok()?;
        put_if(out, self.disk.calls().is_empty(), b" disk").ok()?;
        put_if(out, is_unread(&mut self.around.input), b" input").ok()?;
        put_if(out, is_undrawn, b" fresh").ok()?;
        out.u8(b'\n').ok()
    }

    fn put_unasked_links(&mut self, out: &mut ByteOut) -> Result<(), OutOfMemory> {
        out.bytes(b"unasked")?;
        put_if(out, is_new(&mut self.link), b" link")?;
        put_if(out, is_new(&mut self.around.conns.port), b" port")?;
        put_if(out, is_new(&mut self.around.conns.stream), b" stream")
    }
}

impl Target for Outside {
    fn call(&mut self, alloc: Global, out: &mut ByteOut, word: &[u8]) -> Option<()> {
        let (what, rest) = parted(word)?;
        match str::from_utf8(what).ok()? {
            "args" => {
                self.run(alloc, rest)?;
                self.put_left(out)
            }
            "crash" => self.crash(alloc, rest),
            "stands" => put_disk(out, &self.disk).ok(),
            "left" => self.put_rest(alloc, out, rest),
            "unasked" => self.put_unasked(alloc, out),
            other => self.prepare(alloc, other, rest),
        }
    }
}

// The arguments of a line, with a blank between them.
fn args_of(alloc: Global, line: &[u8]) -> Option<Vec<String>> {
    let mut args = Vec::new(alloc);
    for arg in str::from_utf8(line).ok()?.split(' ') {
        args.push(String::from_str(alloc, arg).ok()?).ok()?;
    }
    Some(args)
}

/// The call `top`, whose arguments are words as above; and `prefixes TEXT STEP WORD..`, whose answer is `yes` if each run that finds room for 0, STEP,
/// twice STEP.. bytes of the text, and not for all, ends with 6, has written just these, and says nothing.
pub struct Top;

impl Calls for Top {
    fn answer(&self, alloc: Global, call: &str, args: &[Vec<u8>]) -> Option<Vec<u8>> {
        if call == "top" {
            return of_run(alloc, args);
        }
        let [text, step, args @ ..] = args else {
            return None;
        };
        yes(alloc, leaves_prefixes(alloc, text, number(step)?, args)?)
    }
}

fn of_run(alloc: Global, args: &[Vec<u8>]) -> Option<Vec<u8>> {
    let mut outside = Outside::new(alloc)?;
    answers(alloc, &mut outside, args)
}

fn leaves_prefixes(alloc: Global, text: &[u8], step: u32, args: &[Vec<u8>]) -> Option<bool> {
    for (index, _) in text.iter().enumerate() {
        let index = u32::try_from(index).ok()?;
        if index.checked_rem(step)? == 0 && !leaves_prefix(alloc, text, index, args)? {
            return Some(false);
        }
    }
    Some(true)
}

fn leaves_prefix(alloc: Global, text: &[u8], room: u32, args: &[Vec<u8>]) -> Option<bool> {
    let (prefix, _) = text.split_at_checked(room as usize)?;
    let mut outside = Outside::new(alloc)?;
    outside.surroundings.room = room;
    ends_behind(alloc, &mut outside, prefix, args)
}

// Whether the program ends as its output takes no more than this.
fn ends_behind(
    alloc: Global,
    outside: &mut Outside,
    prefix: &[u8],
    args: &[Vec<u8>],
) -> Option<bool> {
    let _ = answers(alloc, outside, args)?;
    Some(is_prefix(outside, prefix))
}

fn is_prefix(outside: &Outside, prefix: &[u8]) -> bool {
    outside.status == 6
        && outside.around.outputs.out.bytes() == prefix
        && outside.around.outputs.err.bytes().is_empty()
}
