//! Fields written to a growing list of bytes: numbers with the high byte first or in digits, bytes, and formatted texts.
ghost use Rattle.std.specs.Prelude.{◌≡◌, ◌++◌, [], ◌∷◌, length, take, IfOk, OnOk, OnErr};
ghost use Rattle.std.specs.Fmt.{AppendsText, decimal};
ghost use Rattle.std.specs.Int.{w16, w32, to_be_bytes};

use crate::OutOfMemory;
use itoa::Buffer;
use std::alloc::Global;
use std::fmt;
use std::marker::Model;

/// A growing list of bytes. Each writing call appends its field; if memory runs out, the list is as before.
#[derive(Drop)]
pub struct ByteOut {
    bytes: Vec<u8>,
}

impl Model for ByteOut {
    ghost use Rattle.std.specs.Prelude.{ℕ, List};

    ghost Value = { List ℕ };

    ghost view = { λ o. o.bytes.items };
}

impl ByteOut {
    /// The empty list. It takes no memory.
    pub fn new(alloc: Global) -> ByteOut
        ensures { result ≡ [] }
    {
        ByteOut {
            bytes: Vec::new(alloc),
        }
    }

    /// The empty list, with room for `count` bytes.
    pub fn with_room(alloc: Global, count: usize) -> Result<ByteOut, OutOfMemory>
        ensures { IfOk result (λ o. o ≡ []) }
    {
        Ok(ByteOut {
            bytes: Vec::with_capacity(alloc, count)?,
        })
    }

    /// Appends a number of one byte.
    pub fn u8(&mut self, value: u8) -> Result<(), OutOfMemory>
        ensures ok { OnOk result (self.new ≡ self.old ++ value ∷ []) }
        ensures err { OnErr result (self.new ≡ self.old) }
    {
        self.bytes.push(value)?;
        Ok(())
    }

    /// Appends a number of two bytes.
    pub fn u16(&mut self, value: u16) -> Result<(), OutOfMemory>
        ensures ok { OnOk result (self.new ≡ self.old ++ to_be_bytes w16 value) }
        ensures err { OnErr result (self.new ≡ self.old) }
    {
        self.bytes(value.to_be_bytes().as_slice())
    }

    /// Appends a number of four bytes.
    pub fn u32(&mut self, value: u32) -> Result<(), OutOfMemory>
        ensures ok { OnOk result (self.new ≡ self.old ++ to_be_bytes w32 value) }
        ensures err { OnErr result (self.new ≡ self.old) }
    {
        self.bytes(value.to_be_bytes().as_slice())
    }

    /// Appends bytes.
    pub fn bytes(&mut self, value: &[u8]) -> Result<(), OutOfMemory>
        ensures ok { OnOk result (self.new ≡ self.old ++ value.now) }
        ensures err { OnErr result (self.new ≡ self.old) }
    {
        self.bytes.extend_from_slice(value)
    }

    /// Appends a number in decimal digits.
    pub fn decimal(&mut self, value: u64) -> Result<(), OutOfMemory>
        ensures ok { OnOk result (self.new ≡ self.old ++ decimal value) }
        ensures err { OnErr result (self.new ≡ self.old) }
    {
        let mut digits = Buffer::new();
        self.bytes(digits.format(value).as_bytes())
    }

    /// Appends a formatted text: `write!` and `writeln!` call it.
    pub fn write_fmt<D: fmt::Display + Drop>(&mut self, text: D) -> Result<(), OutOfMemory>
        ensures ok { OnOk result (AppendsText self.old self.new (D.output text)) }
        ensures err { OnErr result (self.new ≡ self.old) }
    {
        let text = String::format(*self.bytes.allocator(), text)?;
        self.bytes(text.as_bytes())
    }

    /// How many bytes there are. It takes no memory.
    pub fn len(&self) -> usize
        ensures { result ≡ length self.now }
    {
        self.bytes.len()
    }

    /// Keeps the first `count` bytes, or all if there are fewer. It takes no memory.
    pub fn truncate(&mut self, count: usize)
        ensures { self.new ≡ take count self.old }
    {
        self.bytes.truncate(count);
    }

    /// The bytes written. It takes no memory.
    pub fn done(self) -> Vec<u8>
        ensures { result.items ≡ self }
    {
        let ByteOut { bytes } = self;
        bytes
    }
}
