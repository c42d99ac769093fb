//! Where a block of graph text ends.
ghost use Rattle.std.specs.Prelude.{◌≡◌, ◌+◌, ◌<◌, ◌≤◌, ◌^◌, length, MatchOption, IfSome};
ghost use Rattle.sg_sched.specs.Format.Spells.{closes};
ghost use Rattle.sg_sched.specs.Text.{lines};
ghost use Rattle.sg_sched_text.specs.Block.{IsOpen, IsClosed};

use sg_sched::{line_content, split_line};

/// What stands between the two lines of a block, and what follows it.
#[derive(Clone, Copy)]
pub(crate) struct Block<'a> {
    /// The text of the graph.
    pub text: &'a [u8],
    /// How many lines it has.
    pub count: u32,
    /// What follows the line that closes the block.
    pub rest: &'a [u8],
}

/// The block whose text begins here, or `None` if no line closes it.
#[tactic(auto, using(crate::proofs::BlockLaws::begun, crate::proofs::BlockLaws::onward, crate::proofs::BlockLaws::found, crate::proofs::BlockLaws::nowhere, crate::proofs::BlockLaws::line_len))]
pub(crate) fn split_block(bytes: &[u8]) -> Option<Block<'_>>
    requires { length bytes.now < 2 ^ 32 }
    ensures closed { MatchOption result (IsOpen (lines bytes.now)) (λ b. IsClosed (lines bytes.now) b.text.now b.count (lines b.rest.now)) }
    ensures shorter { IfSome result (λ b. b.count + length b.rest.now < length bytes.now) }
{
    let mut rest = bytes;
    let mut at = 0usize;
    let mut count = 0u32;
    'lines: while !rest.is_empty() {
        let (line, after) = split_line(rest);
        if is_closing(line) {
            return Some(Block {
                text: &bytes[..at],
                count,
                rest: after,
            });
        }
        at += line.len();
        count += 1;
        rest = after;
    }
    None
}

// Whether a line is `}` alone.
fn is_closing(line: &[u8]) -> bool
    ensures { result ≡ closes line.now }
{
    line_content(line) == b"}".as_slice()
}

/// The number of lines.
pub(crate) fn count_lines(bytes: &[u8]) -> u32
    requires { length bytes.now < 2 ^ 32 }
    ensures count { result ≡ length (lines bytes.now) }
    ensures few { result ≤ length bytes.now }
{
    let mut rest = bytes;
    let mut count = 0u32;
    'lines: while !rest.is_empty() {
        let (_, after) = split_line(rest);
        count += 1;
        rest = after;
    }
    count
}
