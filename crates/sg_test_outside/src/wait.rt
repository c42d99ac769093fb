//! A link in memory on which one waits.
use crate::calls::{call_timed, put_sent};
use sg_base::{ByteOut, OutOfMemory, Seq};
use sg_table::{Calls, Target, answers, bytes, hold, number};
use sg_wait::{Coming, MemTimedLink};
use std::alloc::Global;

struct Waits;

impl Calls for Waits {
    fn answer(&self, alloc: Global, call: &str, args: &[Vec<u8>]) -> Option<Vec<u8>> {
        let _ = call;
        let [room, most, fails, words @ ..] = args else {
            return None;
        };
        answers(alloc, &mut made(alloc, room, most, fails, words)?, words)
    }
}

// A link to which comes what these words say.
fn made(
    alloc: Global,
    room: &[u8],
    most: &[u8],
    fails: &[u8],
    words: &[Vec<u8>],
) -> Option<Waiting> {
    let (room, most) = (number(room)?, number(most)?);
    let fails = vec![in alloc; number(fails)?].ok()?;
    let link = MemTimedLink::new(alloc, coming(alloc, words)?, room, most, fails).ok()?;
    Some(Waiting { link })
}

// What is to come: the word `silence`, and words of `brings` and a delivery.
fn coming(alloc: Global, words: &[Vec<u8>]) -> Option<Vec<Coming>> {
    let mut coming = Vec::new(alloc);
    for word in words {
        if word.as_slice() == b"silence".as_slice() {
            coming.push(Coming::Silence).ok()?;
        } else if let Some(delivery) = word.strip_prefix(b"brings") {
            let delivery = Seq::from_vec(bytes(alloc, delivery)?);
            coming.push(Coming::Delivery(delivery)).ok()?;
        }
    }
    Some(coming)
}

#[derive(Drop)]
struct Waiting {
    link: MemTimedLink,
}

// A call is one of the link. In the end come the frames that were sent.
impl Target for Waiting {
    fn call(&mut self, alloc: Global, out: &mut ByteOut, word: &[u8]) -> Option<()> {
        if word == b"silence".as_slice() || word.starts_with(b"brings") {
            return Some(());
        }
        call_timed(alloc, &mut self.link, out, word)
    }

    fn end(&self, out: &mut ByteOut) -> Result<(), OutOfMemory> {
        put_sent(out, self.link.frames())
    }
}

#[test]
fn waits_with_and_without_a_limit(rt: HostRuntime) -> Result<(), &'static str> {
    hold(rt.alloc(), &Waits, &[LINES])
}

const LINES: &str = "
# A link with room for so many frames, of so many bytes each, of which a call fails, whose number comes next; then what comes to it, and its calls.

# Silences end waits with a limit alone.

link '0 '0 '2 'silence 'bringsone 'silence 'silence 'bringstwo 'silence 'bringssix 'wait5 'wait 'wait0 'wait 'recv 'wait5 'wait 'recv \
  'none,the_link_failed,one,two,six,none,none,none,

# Frames have room.

link '2 '2 '4 'post+0002+'abc 'bind+0001 'post+0002+'fr 'bind+0001 'post+0002+'fr 'open+0003 'send+0002+'f \
  'the_call_failed,ok,ok,the_call_failed,ok,ok,f_comes_back,+0002+'fr;+0002+'fr;
";
