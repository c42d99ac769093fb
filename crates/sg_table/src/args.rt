//! The arguments of a call, read one after the other.
use crate::words::{byte, fixed, number};

/// Arguments that are to be read. It keeps in mind whether one was not what was asked for, or not there; zeros are read in its place.
#[derive(Drop)]
pub struct Args<'w> {
    words: &'w [Vec<u8>],
    is_bad: bool,
}

impl<'w> Args<'w> {
    /// All arguments of a call.
    pub fn new(words: &'w [Vec<u8>]) -> Args<'w> {
        Args {
            words,
            is_bad: false,
        }
    }

    /// The next word, or no bytes.
    pub fn word(&mut self) -> &'w [u8] {
        match self.words.split_first() {
            Some((word, rest)) => {
                self.words = rest;
                word.as_slice()
            }
            None => {
                self.is_bad = true;
                b""
            }
        }
    }

    /// A single byte.
    pub fn byte(&mut self) -> u8 {
        let read = byte(self.word());
        self.read(read, 0)
    }

    /// A number in decimal digits.
    pub fn number(&mut self) -> u32 {
        let read = number(self.word());
        self.read(read, 0)
    }

    /// Bytes of this count.
    pub fn fixed<const N: usize>(&mut self) -> [u8; N] {
        let read = fixed(self.word());
        self.read(read, [0; N])
    }

    /// The answer, if each argument was what was asked for, and none is left.
    pub fn gives(&self, answer: Option<Vec<u8>>) -> Option<Vec<u8>> {
        if self.is_bad || !self.words.is_empty() {
            return None;
        }
        answer
    }

    fn read<T: Drop>(&mut self, read: Option<T>, zero: T) -> T {
        if read.is_none() {
            self.is_bad = true;
        }
        read.unwrap_or(zero)
    }
}
