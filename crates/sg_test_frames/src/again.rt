//! The last frames of sessions.
use sg_again::{LastFrame, LastFrames};
use sg_base::{Addr, ByteOut, Name, OutOfMemory, Sid};
use sg_table::{Calls, Target, answers, hold, name, number};
use std::alloc::Global;

struct Frames;

impl Calls for Frames {
    fn answer(&self, alloc: Global, call: &str, args: &[Vec<u8>]) -> Option<Vec<u8>> {
        let _ = call;
        let frames = LastFrames::new(alloc);
        answers(alloc, &mut Kept { frames }, args)
    }
}

#[derive(Drop)]
struct Kept {
    frames: LastFrames,
}

// A call is `sends` and a session and a frame, each its number in a byte; `all` and a number, for as many sessions that send a frame of their own
// number; `end` and a number, for as many sessions that end, the first first; `ends` and the number of one that ends; or the number of a session,
// whose frame is asked for.
impl Target for Kept {
    fn call(&mut self, alloc: Global, out: &mut ByteOut, word: &[u8]) -> Option<()> {
        if let Some(last) = word.strip_prefix(b"all") {
            send_all(alloc, &mut self.frames, number(last)?)
        } else if let Some([session, frame]) = word.strip_prefix(b"sends") {
            send(
                alloc,
                &mut self.frames,
                u32::from(*session),
                u32::from(*frame),
            )
        } else if let Some(session) = word.strip_prefix(b"ends") {
            self.frames.ended(&sid_of(number(session)?)).ok()
        } else if let Some(last) = word.strip_prefix(b"end") {
            end_all(&mut self.frames, number(last)?).ok()
        } else {
            put_number(out, self.frames.of(&sid_of(number(word)?))).ok()
        }
    }
}

fn sid_of(number: u32) -> Sid {
    let mut bytes = [0u8; 32];
    bytes[..4].copy_from_slice(&number.to_be_bytes());
    Sid(bytes)
}

// The session of this number sends a frame of this number.
fn send(alloc: Global, frames: &mut LastFrames, session: u32, number: u32) -> Option<()> {
    let at = Addr {
        ip: [127, 0, 0, 1],
        port: 28_310,
    };
    let bytes = vec![in alloc; 7u8; 3].ok()?;
    let frame = LastFrame::new(u64::from(number), name(b"bob")?, at, bytes);
    frames.sent(sid_of(session), frame).ok()
}

fn send_all(alloc: Global, frames: &mut LastFrames, last: u32) -> Option<()> {
    for session in 1u32..=last {
        send(alloc, frames, session, session)?;
    }
    Some(())
}

fn end_all(frames: &mut LastFrames, last: u32) -> Result<(), OutOfMemory> {
    for session in 1u32..=last {
        frames.ended(&sid_of(session))?;
    }
    Ok(())
}

// The number of the frame that is kept of a session.
fn put_number(out: &mut ByteOut, frame: Option<&LastFrame>) -> Result<(), OutOfMemory> {
    match frame {
        Some(frame) => {
            let number = frame.number();
            write!(out, "{number},")
        }
        None => out.bytes(b"none,"),
    }
}

#[test]
fn frames_of_sessions_that_ended(rt: HostRuntime) -> Result<(), &'static str> {
    hold(rt.alloc(), &Frames, &[LINES])
}

const LINES: &str = "
# The first of 4,097 sessions that ended is gone.

frames 'all4098 'end4096 '1 'end4097 '1 '2 '4097 '4098 '1,none,2,4097,4098,

# It is the one that ended first, whichever sent first.

frames 'all4097 'ends4097 'end4096 '1 '4096 '4097 '1,4096,none,

# The last frame takes the place of the one before.

frames 'sends+0901 'sends+0802 'sends+0903 'end9 '7 '8 '9 'none,2,3,
";
