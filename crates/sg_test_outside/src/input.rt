//! Lines of inputs, in memory and of the system.
use sg_base::ByteOut;
use sg_input::{Input, InputFault, LineFound, LineReader, MemInput, StdInput};
use sg_table::{Calls, bytes, hold, number};
use std::alloc::Global;
use std::fs;
use std::io::{self, ErrorKind, Read};

#[derive(Drop)]
struct Inputs {
    rt: HostRuntime,
}

impl Calls for Inputs {
    fn answer(&self, alloc: Global, call: &str, args: &[Vec<u8>]) -> Option<Vec<u8>> {
        match args {
            [steps] => {
                let mut troubled = StdInput::new(Troubled { reads: 0 });
                read(alloc, &mut troubled, number(steps)?)
            }
            [text, steps] => in_a_file(alloc, &self.rt, call, text, number(steps)?),
            [text, size, count, fails, steps] => {
                let mut input = in_memory(
                    alloc,
                    text,
                    number(size)?,
                    number(count)?,
                    number(fails)?,
                )?;
                read(alloc, &mut input, number(steps)?)
            }
            _ => None,
        }
    }
}

// An input that gives so many pieces of a size, and then the others, of which a call fails.
fn in_memory(alloc: Global, text: &[u8], size: u32, count: u32, fails: u32) -> Option<MemInput> {
    let mut pieces = Vec::new(alloc);
    for _ in 0..count {
        pieces.push(size).ok()?;
    }
    Some(MemInput::new(bytes(alloc, text)?, pieces, vec![in alloc; fails].ok()?))
}

// What so many calls give that ask for the next line.
fn read<I: Input>(alloc: Global, input: &mut I, steps: u32) -> Option<Vec<u8>> {
    let mut reader = LineReader::new(alloc).ok()?;
    let mut out = ByteOut::new(alloc);
    for _ in 0..steps {
        put_next(&mut out, &mut reader, input)?;
    }
    Some(out.done())
}

fn put_next<I: Input>(out: &mut ByteOut, reader: &mut LineReader, input: &mut I) -> Option<()> {
    match reader.next(input) {
        Ok(Some(LineFound::Line)) => {
            out.bytes(reader.line()).ok()?;
            out.u8(b';').ok()
        }
        Ok(Some(LineFound::TooLong)) => out.bytes(b"too long;").ok(),
        Ok(None) => out.bytes(b"end;").ok(),
        Err(InputFault::Failed) => out.bytes(b"failed;").ok(),
        Err(InputFault::OutOfMemory) => None,
    }
}

// The lines of a file of the system with this text.
fn in_a_file(
    alloc: Global,
    rt: &HostRuntime,
    file: &str,
    text: &[u8],
    steps: u32,
) -> Option<Vec<u8>> {
    fs::write(rt, file, text).ok()?;
    let mut input = StdInput::new(fs::open(rt, file).ok()?);
    let lines = read(alloc, &mut input, steps)?;
    fs::remove_file(rt, file).ok()?;
    Some(lines)
}

// A reader of the system that is interrupted at its first read, gives three bytes at the second, and fails at the third.
#[derive(Drop)]
struct Troubled {
    reads: u8,
}

impl Read for Troubled {
    fn read(&mut self, buf: &mut [u8]) -> io::Result<usize> {
        self.reads = self.reads.saturating_add(1);
        match self.reads {
            1 => Err(io::Error::from(ErrorKind::Interrupted)),
            2 => b"a\nb".as_slice().read(buf),
            _ => Err(io::Error::from(ErrorKind::BrokenPipe)),
        }
    }
}

#[test]
fn lines_of_inputs(rt: HostRuntime) -> Result<(), &'static str> {
    let alloc = rt.alloc();
    hold(alloc, &Inputs { rt }, &[LINES, LONG])
}

const LINES: &str = "
# The lines of a text, however it is cut: pieces of a size, so many of them, a call that fails, and how many lines are asked for.

let TEXT 'ab^^cd+0d+'^rest
let CUT 'ab;;cd+0d+';end;end;
memory $TEXT '0 '20 '0 '5 $CUT
memory $TEXT '1 '20 '0 '5 $CUT
memory $TEXT '2 '20 '0 '5 $CUT
memory $TEXT '3 '20 '0 '5 $CUT
memory $TEXT '4 '20 '0 '5 $CUT
memory $TEXT '5 '20 '0 '5 $CUT
memory $TEXT '6 '20 '0 '5 $CUT
memory $TEXT '7 '20 '0 '5 $CUT
memory $TEXT '8 '20 '0 '5 $CUT

# A read that fails loses nothing.

memory 'abc^d^ '2 '2 '2 '4 'failed;abc;d;end;

# Of the system: a reader that is interrupted and then fails, and a file of this name.

troubled '2 'a;failed;
two_lines 'one^two^ '3 'one;two;end;
";

const LONG: &str = "
# A line has at most 262,144 bytes.

let A 16384*61616161616161616161616161616161
let B 16384*62626262626262626262626262626262+62
let C 62500*63636363636363636363636363636363
let D 16383*64646464646464646464646464646464+15*64
memory $A+'^+$B+'^+$C+'^+$D+'^ '50000 '5 '0 '5 $A+';too_long;too_long;+$D+';end;
";
