//! What answers the calls of a line.
use sg_base::{ByteOut, OutOfMemory};
use std::alloc::Global;

/// The calls of a table.
pub trait Calls {
    /// The answer to a call with these arguments; `None` if there is no such call or argument, or memory runs out.
    fn answer(&self, alloc: Global, call: &str, args: &[Vec<u8>]) -> Option<Vec<u8>>;
}

/// A value on which a line makes calls one after the other, each a word.
pub trait Target {
    /// Makes a call, and puts its answer; `None` if there is no such call, or memory runs out.
    fn call(&mut self, alloc: Global, out: &mut ByteOut, word: &[u8]) -> Option<()>;

    /// Puts what is told of the value after all calls: nothing, if a target doesn't say otherwise.
    fn end(&self, out: &mut ByteOut) -> Result<(), OutOfMemory> {
        let _ = out;
        Ok(())
    }
}

/// The answers to calls on a value, and what is told of it after them.
pub fn answers<T: Target>(alloc: Global, target: &mut T, words: &[Vec<u8>]) -> Option<Vec<u8>> {
    let mut out = ByteOut::new(alloc);
    for word in words {
        target.call(alloc, &mut out, word)?;
    }
    target.end(&mut out).ok()?;
    Some(out.done())
}
