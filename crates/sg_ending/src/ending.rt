//! How the program ends, and what it says of it.
ghost use Rattle.std.specs.Prelude.{◌≡◌, ◌≢◌, ◌++◌, ◌∷◌, [], IfOk, OnErr, OnOk, codes};
ghost use Rattle.sg_compile.specs.FaultText.{refusal_text};
ghost use Rattle.sg_ending.specs.Ending.{status_of, line_of, program_text, shown_byte, shown_arg};
ghost use Rattle.sg_ending.specs.Model.{ending_held};

use sg_base::{ByteOut, OutOfMemory};
use sg_claims_text::ClaimsFault;
use sg_compile::CompileFault;
use sg_compose::ComposeFault;
use sg_graph::Graph;
use sg_keys::KeyFault;
use sg_parse::ParseFault;
use sg_script::ScriptFault;
use sg_text::put_escaped;
use std::alloc::Global;
use std::fmt;

/// What is wrong with a line of a schedule or of logs.
#[derive(Clone, Copy)]
pub enum Wrong {
    /// It is of no form, or stands where its form may not.
    Form,
    /// A name that it uses isn't declared.
    Unknown,
    /// It declares what is declared already.
    Twice,
    /// It is a step of a principal that isn't honest.
    NotHonest,
}

impl fmt::Display for Wrong {
    ghost use Rattle.std.specs.Prelude.{Some};
    ghost use Rattle.sg_ending.specs.Ending.{wrong_text, program_text};

    ghost output = { λ wrong. Some (wrong_text wrong) };

    fn fmt<W: fmt::Write>(&self, f: &mut fmt::Formatter<W>) -> fmt::Result {
        match self {
            Wrong::Form => f.write_str("form"),
            Wrong::Unknown => f.write_str("unknown"),
            Wrong::Twice => f.write_str("twice"),
            Wrong::NotHonest => f.write_str("not-honest"),
        }
    }
}

/// Why a program isn't taken.
#[derive(Clone, Copy)]
pub enum BadProgram {
    /// Its text is malformed at this offset.
    Malformed { at: u32 },
    /// This line of its table, counted from 1, is the first that isn't the program's.
    NotTheTable { entry: usize },
    /// A program before it is of the same graph and role, or of another graph with the same name.
    Twice,
}

impl fmt::Display for BadProgram {
    ghost use Rattle.std.specs.Prelude.{Some};

    ghost output = { λ cause. Some (program_text cause) };

    fn fmt<W: fmt::Write>(&self, f: &mut fmt::Formatter<W>) -> fmt::Result {
        match self {
            BadProgram::Malformed { at } => write!(f, "malformed at {at}"),
            BadProgram::NotTheTable { entry } => write!(f, "entry {entry}"),
            BadProgram::Twice => f.write_str("twice"),
        }
    }
}

/// How the program ends.
#[derive(Drop)]
pub enum Ending<'w> {
    /// The output is written whole.
    Written,
    /// The arguments are not in the table of commands.
    NoCommand,
    /// The bytes are no graph, or a block of them isn't: the fault of its first wrong token.
    NoGraph { fault: ParseFault },
    /// The parts are not expanded: the first use that can't be.
    NoExpansion { fault: ComposeFault },
    /// The graph isn't accepted: its first fault.
    GraphRefused { graph: Graph, fault: CompileFault },
    /// The graph has no role of this name.
    NoRole { role: &'w str },
    /// This line of the schedule or of the logs, counted from 1, is the first that is wrong.
    WrongLine { line: u32, wrong: Wrong },
    /// The bytes are no key file: the first fault.
    KeysRefused { fault: KeyFault },
    /// The bytes are no script beside the programs: the first fault.
    ScriptRefused { fault: ScriptFault },
    /// The bytes are no claims of the graph: the fault of the first wrong token.
    ClaimsRefused { fault: ClaimsFault },
    /// The output is written whole, and it says of a claim that it fails.
    ClaimFails,
    /// The program of this number, counted from 1, isn't taken.
    ProgramRefused { number: usize, cause: BadProgram },
    /// The file is no ledger.
    NoLedger,
    /// This slot of the ledger, counted from 0, is the first that no ledger has.
    BadSlot { slot: u32 },
    /// The file of the ledger to be made has bytes already.
    LedgerNotEmpty,
    /// The file could not be read.
    FileFailed { file: &'w str },
    /// What was to be written was not taken.
    WriteFailed,
    /// The link failed.
    LinkFailed,
    /// The input failed.
    InputFailed,
    /// The disk failed.
    DiskFailed,
    /// Out of memory.
    NoMemory,
    /// There is no such file.
    NoSuchFile { file: &'w str },
    /// The file, or what it holds, passes a limit.
    TooLarge { what: &'w str },
}

impl<'w> Ending<'w> {
    /// The exit status.
    pub fn status(&self) -> u8
        ensures { result ≡ status_of (ending_held self.now) }
    {
        match self {
            Ending::Written => 0,
            Ending::NoCommand => 2,
            Ending::NoGraph { .. } => 3,
            Ending::NoExpansion { .. } => 3,
            Ending::GraphRefused { .. } => 3,
            Ending::NoRole { .. } => 4,
            Ending::WrongLine { .. } => 4,
            Ending::KeysRefused { .. } => 4,
            Ending::ScriptRefused { .. } => 4,
            Ending::ClaimsRefused { .. } => 4,
            Ending::ProgramRefused { .. } => 4,
            Ending::NoLedger => 4,
            Ending::BadSlot { .. } => 4,
            Ending::LedgerNotEmpty => 4,
            Ending::FileFailed { .. } => 5,
            Ending::WriteFailed => 6,
            Ending::LinkFailed => 7,
            Ending::NoMemory => 8,
            Ending::NoSuchFile { .. } => 9,
            Ending::TooLarge { .. } => 10,
            Ending::DiskFailed => 11,
            Ending::ClaimFails => 13,
            Ending::InputFailed => 14,
        }
    }

    /// The line on standard error, with its line end; nothing, which takes no memory, if the output was written or was not taken.
    pub fn line(&self, alloc: Global) -> Result<Vec<u8>, OutOfMemory>
        ensures value { IfOk result (λ text. text.items ≡ line_of (ending_held self.now)) }
        ensures memory { OnErr result (line_of (ending_held self.now) ≢ []) }
    {
        let mut out = ByteOut::new(alloc);
        self.put_line(&mut out)?;
        Ok(out.done())
    }

    // Writes the line.
    fn put_line(&self, out: &mut ByteOut) -> Result<(), OutOfMemory>
        ensures value { OnOk result (out.new ≡ out.old ++ line_of (ending_held self.now)) }
        ensures memory { OnErr result (line_of (ending_held self.now) ≢ []) }
    {
        match self {
            Ending::Written | Ending::ClaimFails | Ending::WriteFailed => Ok(()),
            Ending::NoCommand => out.bytes(
                b"usage: sessiongraph check|compile|run|replay|drive|ledger|keep|stream|audit|compose|claims|serve\n",
            ),
            Ending::NoGraph { fault } => writeln!(out, "graph refused: {fault}"),
            Ending::NoExpansion { fault } => writeln!(out, "graph refused: {fault}"),
            Ending::GraphRefused { graph, fault } => put_refusal(out, graph, fault),
            Ending::NoRole { role } => put_about(out, b"input refused: role ", role),
            Ending::WrongLine { line, wrong } => {
                writeln!(out, "input refused: line {line} {wrong}")
            }
            Ending::KeysRefused { fault } => writeln!(out, "input refused: keys {fault}"),
            Ending::ScriptRefused { fault } => writeln!(out, "input refused: script {fault}"),
            Ending::ClaimsRefused { fault } => writeln!(out, "input refused: claims {fault}"),
            Ending::ProgramRefused { number, cause } => {
                writeln!(out, "input refused: program {number} {cause}")
            }
            Ending::NoLedger => out.bytes(b"input refused: ledger not made\n"),
            Ending::BadSlot { slot } => writeln!(out, "input refused: ledger slot {slot}"),
            Ending::LedgerNotEmpty => out.bytes(b"input refused: ledger not empty\n"),
            Ending::FileFailed { file } => put_about(out, b"file failed: ", file),
            Ending::LinkFailed => out.bytes(b"link failed\n"),
            Ending::InputFailed => out.bytes(b"input failed\n"),
            Ending::DiskFailed => out.bytes(b"disk failed\n"),
            Ending::NoMemory => out.bytes(b"out of memory\n"),
            Ending::NoSuchFile { file } => put_about(out, b"no such file: ", file),
            Ending::TooLarge { what } => put_about(out, b"too large: ", what),
        }
    }
}

// Writes the line that says why a graph isn't accepted.
fn put_refusal(out: &mut ByteOut, graph: &Graph, fault: &CompileFault) -> Result<(), OutOfMemory>
    ensures { OnOk result (out.new ≡ out.old ++ (codes "graph refused: " ++ refusal_text graph.now fault.now ++ 10 ∷ [])) }
{
    out.bytes(b"graph refused: ")?;
    fault.put(out, graph)?;
    out.u8(b'\n')
}

// Writes a line that ends with an argument of the command line.
fn put_about(out: &mut ByteOut, before: &[u8], arg: &str) -> Result<(), OutOfMemory>
    ensures { OnOk result (out.new ≡ out.old ++ (before.now ++ shown_arg arg.now ++ 10 ∷ [])) }
{
    out.bytes(before)?;
    put_arg(out, arg)?;
    out.u8(b'\n')
}

// Writes an argument, with its control bytes escaped.
fn put_arg(out: &mut ByteOut, arg: &str) -> Result<(), OutOfMemory>
    ensures { OnOk result (out.new ≡ out.old ++ shown_arg arg.now) }
{
    for byte in arg.as_bytes() {
        put_shown(out, *byte)?;
    }
    Ok(())
}

fn put_shown(out: &mut ByteOut, byte: u8) -> Result<(), OutOfMemory>
    ensures { OnOk result (out.new ≡ out.old ++ shown_byte byte) }
{
    if byte < 0x20 || byte == 0x7F {
        put_escaped(out, byte)
    } else {
        out.u8(byte)
    }
}
