//! Bytes that are frames, and others.
use sg_craft::{first_bytes, flipped};
use sg_frame::{decode, encode};
use sg_table::{Args, Calls, hold, text};
use std::alloc::Global;

struct Frames;

impl Calls for Frames {
    fn answer(&self, alloc: Global, call: &str, words: &[Vec<u8>]) -> Option<Vec<u8>> {
        let mut args = Args::new(words);
        let whole = args.word();
        let answer = match call {
            "frame" => spelled(alloc, whole),
            "cut" => spelled(alloc, first_bytes(whole, args.number())),
            "flipped" => spelled_flipped(alloc, whole, args.number()),
            _ => frames_among(alloc, whole, args.number(), args.number()),
        };
        args.gives(answer)
    }
}

fn spelled_flipped(alloc: Global, whole: &[u8], at: u32) -> Option<Vec<u8>> {
    spelled(alloc, &flipped(alloc, whole, at).ok()?)
}

// How many bytes spell the frame of these bytes, if they are the same ones; or why these are no frame.
fn spelled(alloc: Global, whole: &[u8]) -> Option<Vec<u8>> {
    match decode(alloc, whole) {
        Ok(frame) => {
            let again = encode(alloc, &frame).ok()?;
            if again.as_slice() != whole {
                return None;
            }
            text(alloc, &again.len())
        }
        Err(fault) => text(alloc, &fault),
    }
}

// At how many of these indices the bytes are a frame with the lowest bit changed of the byte there.
fn frames_among(alloc: Global, whole: &[u8], first: u32, end: u32) -> Option<Vec<u8>> {
    let mut count = 0u32;
    for index in first..end {
        if decode(alloc, &flipped(alloc, whole, index).ok()?).is_ok() {
            count = count.wrapping_add(1);
        }
    }
    text(alloc, &count)
}

#[test]
fn frames_and_their_first_wrong_fields(rt: HostRuntime) -> Result<(), &'static str> {
    hold(rt.alloc(), &Frames, &[LINES])
}

const LINES: &str = "
# How many bytes a frame has, or the first wrong field.

frame ' 'malformed_at_0
frame 'SGF1 'malformed_at_4
frame 60001*00 'malformed_at_60000

# The first frame of a session of the graph `pair`, with the roles a and b and the edges Request and Reply between them, with the nonce 1 and the
# principals a and b: a sends Request to b, who joins. Their key has the bytes 11.

let DIGEST a50909945ba18a502fe69beb2e25ce8bc1b8184e659e396a87bab2bb9467999c
let JOIN 00+01+$DIGEST+15*00+01+02+01+'a+01+'b+0001+00+0000+00000001+00+00+00
let FIRST 'SGF1+00+0e7bc807d33403b829056fbe288db09e59726d48de330d84201c8c7768214aa9+$JOIN
let FIRST $FIRST+a24c92c4f3a3fa8b158f1217e1938345e389c3da171f94596c5e4a7f3e26ffa2
let SECOND 'SGF2+00+2edbb1fda3ad922d09898091ddcaefb2c94aac4e79c0df4f5bb1cdd1969fabae+$JOIN
let SECOND $SECOND+4f90b3ea38a078e4a7bcfd09dc051282
frame $FIRST '136
frame $SECOND '120

# A frame of version 2 that continues: a step with two commitments and a tag, and openings of a number and a text.

let STEP 02+01ff+000f4240+02+03+32*55+1f+32*66+01+0f+16*44
let OPENED 03+16*77+00+00000008+fffffffffffffffe+1f+16*77+01+00000003+'tea
frame 'SGF2+01+32*22+02+01+0001+$STEP+02+$OPENED+16*33 '205

# One of 60,000 bytes, which continues: 6,656 steps and an opening of an empty text.

frame 'SGF1+01+32*22+00+01+1a00+6656*000000000000010000+01+00+16*00+01+00000000+32*00 '60000

# The first frame, cut off after so many bytes.

cut $FIRST '0 'malformed_at_0
cut $FIRST '1 'malformed_at_0
cut $FIRST '2 'malformed_at_0
cut $FIRST '3 'malformed_at_0
cut $FIRST '135 'malformed_at_104
cut $SECOND '119 'malformed_at_104

# The first frame in version 1, with the lowest bit changed of the byte at one index.

flipped $FIRST '0 'malformed_at_0
flipped $FIRST '1 'malformed_at_0
flipped $FIRST '2 'malformed_at_0
flipped $FIRST '3 'malformed_at_0
flipped $FIRST '37 'malformed_at_38
flipped $FIRST '38 'malformed_at_38
flipped $FIRST '87 'malformed_at_92
flipped $FIRST '89 'malformed_at_89
flipped $FIRST '93 'malformed_at_92
flipped $FIRST '97 'malformed_at_97
flipped $FIRST '100 'malformed_at_97

# The same at each index from the first number to before the second one: at how many it is a frame.

frames_among $FIRST '5 '37 '32
frames_among $FIRST '39 '87 '48
frames_among $FIRST '91 '92 '1
frames_among $FIRST '94 '97 '3
frames_among $FIRST '98 '100 '2
frames_among $FIRST '104 '136 '32
";
