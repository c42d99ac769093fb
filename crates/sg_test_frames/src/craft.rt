//! Frames that are changed, and confounders.
use sg_base::{Seq, Var};
use sg_craft::{confounder, first_bytes, flipped, frame_at};
use sg_table::{Args, Calls, bytes, hold};
use std::alloc::Global;

struct Crafts;

impl Calls for Crafts {
    fn answer(&self, alloc: Global, call: &str, words: &[Vec<u8>]) -> Option<Vec<u8>> {
        let mut args = Args::new(words);
        let answer = match call {
            "frame_at" => recorded(alloc, args.word(), args.number()),
            "flipped" => flipped(alloc, args.word(), args.number()).ok(),
            "first_bytes" => bytes(alloc, first_bytes(args.word(), args.number())),
            _ => confounded(alloc, &mut args),
        };
        args.gives(answer)
    }
}

fn confounded(alloc: Global, args: &mut Args<'_>) -> Option<Vec<u8>> {
    let step = u64::from_be_bytes(args.fixed());
    bytes(alloc, &confounder(step, Var(args.byte())))
}

fn recorded(alloc: Global, frame: &[u8], at: u32) -> Option<Vec<u8>> {
    let mut frames = Seq::new(alloc);
    frames.push(Seq::from_vec(bytes(alloc, frame)?)).ok()?;
    match frame_at(frames.as_slice(), at) {
        Some(frame) => bytes(alloc, frame),
        None => bytes(alloc, b"none"),
    }
}

#[test]
fn frames_that_are_found_and_changed(rt: HostRuntime) -> Result<(), &'static str> {
    hold(rt.alloc(), &Crafts, &[LINES])
}

const LINES: &str = "
# The frame of a number, from 1, if one is recorded.

frame_at 'SGF1 '0 'none
frame_at 'SGF1 '1 'SGF1
frame_at 'SGF1 '2 'none

# The first bytes of a frame, and the frame with the lowest bit changed of the byte at an index.

first_bytes 'SGF1 '3 'SGF
first_bytes 'SGF1 '5 'SGF1
flipped 'SGF1 '0 'RGF1
flipped 'SGF1 '4 'SGF1

# A confounder is the step and the variable.

confounder 0102030405060708 1f 0102030405060708000000000000001f
";
