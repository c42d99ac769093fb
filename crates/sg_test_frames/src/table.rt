//! Lines that hold, and lines that don't.
use sg_table::{Calls, bytes, hold};
use std::alloc::Global;

struct Same;

// The answer of `same` is its argument.
impl Calls for Same {
    fn answer(&self, alloc: Global, call: &str, args: &[Vec<u8>]) -> Option<Vec<u8>> {
        match args {
            [word] if call == "same" => bytes(alloc, word),
            _ => None,
        }
    }
}

#[test]
fn lines_that_hold(rt: HostRuntime) -> Result<(), &'static str> {
    hold(rt.alloc(), &Same, &[RIGHT])
}

// Each of these is the first that does not hold, behind lines of another text that do.
#[test]
fn lines_that_do_not_hold(rt: HostRuntime) {
    for line in WRONG.lines() {
        let first = hold(rt.alloc(), &Same, &[RIGHT, line]);
        assert!(rt; matches!(first, Err(wrong) if wrong == line), "{line}");
    }
}

const RIGHT: &str = "
# What words spell.

same ' '
same 0a0B 0A0b
same 'a_b^ 6120620a
same 3*0a0b 0a0b0a0b0a0b
same 0*0a '
let A 00+'a
let A $A+$A+01
same 2*02+$A+'_+03 0202+0061+0061+01+20+03
";

const WRONG: &str = "\
same 00 01
same 00 0000
same 00 '
same 0 0
same 0g 0g
same x*00 x*00
same $B $B
same A A
same 'a_b 'a b
same
let B
let B 0
other 00 00
same 00 00 00";
