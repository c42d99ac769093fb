//! Fields read from a slice of bytes, numbers with the high byte first.
ghost use Rattle.std.specs.Prelude.{◌≡◌, IfOk};
ghost use Rattle.std.specs.Int.{w8, w16, w32, from_be_bytes};
ghost use Rattle.sg_base.specs.Reading.{field, Moves};

use std::marker::Model;
use thiserror::Error;

/// A field isn't there whole; it begins at the offset `at`.
#[derive(Debug, Clone, Copy, PartialEq, Eq, Error)]
#[error("a field at {at} is cut short")]
pub struct Short {
    /// Where the field begins.
    pub at: usize,
}

/// Reads the fields of a slice one after the other. A field that isn't there whole isn't passed, and its offset is the error. Nothing
/// takes memory.
#[derive(Drop)]
pub struct ByteIn<'a> {
    bytes: &'a [u8],
    at: usize,
}

impl<'a> Model for ByteIn<'a> {
    ghost use Rattle.std.specs.Prelude.{◌≤◌, length};
    ghost use Rattle.sg_base.specs.Reading.{Cursor};

    ghost Value = { Cursor };

    ghost view = { λ r. record { bytes = r.bytes.now; at = r.at } };

    ghost invariant = { λ r. r.at ≤ length r.bytes.now };
}

impl<'a> ByteIn<'a> {
    /// The slice, with the position at its beginning.
    pub fn new(bytes: &'a [u8]) -> ByteIn<'a>
        ensures { result ≡ record { bytes = bytes.now; at = 0 } }
    {
        ByteIn { bytes, at: 0 }
    }

    /// The offset of the position.
    pub fn at(&self) -> usize
        ensures { result ≡ self.now.at }
    {
        self.at
    }

    /// A number of one byte.
    pub fn u8(&mut self) -> Result<u8, Short>
        ensures moves { Moves 1 self.old self.new result }
        ensures value { IfOk result (λ v. v ≡ from_be_bytes w8 (field self.old 1)) }
    {
        let bytes = self.bytes(1)?;
        Ok(bytes[0])
    }

    /// A number of two bytes.
    pub fn u16(&mut self) -> Result<u16, Short>
        ensures moves { Moves 2 self.old self.new result }
        ensures value { IfOk result (λ v. v ≡ from_be_bytes w16 (field self.old 2)) }
    {
        let bytes = self.bytes(2)?;
        Ok(u16::from_be_bytes([bytes[0], bytes[1]]))
    }

    /// A number of four bytes.
    pub fn u32(&mut self) -> Result<u32, Short>
        ensures moves { Moves 4 self.old self.new result }
        ensures value { IfOk result (λ v. v ≡ from_be_bytes w32 (field self.old 4)) }
    {
        let bytes = self.bytes(4)?;
        Ok(u32::from_be_bytes([bytes[0], bytes[1], bytes[2], bytes[3]]))
    }

    /// The next `n` bytes.
    pub fn bytes(&mut self, n: usize) -> Result<&'a [u8], Short>
        ensures moves { Moves n self.old self.new result }
        ensures value { IfOk result (λ v. v.now ≡ field self.old n) }
    {
        if self.bytes.len() - self.at < n {
            return Err(Short { at: self.at });
        }
        let start = self.at;
        self.at = start + n;
        Ok(&self.bytes[start..start + n])
    }
}
