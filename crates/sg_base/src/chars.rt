//! Texts of bounded length.
ghost use Rattle.std.specs.Prelude.{◌≡◌, ◌<◌, ◌↔◌, ◌≤◌, length, Err, IfOk, IfErr, IsTrue, OnOk};
ghost use Rattle.std.specs.Str.{IsUtf8};
ghost use Rattle.sg_model.specs.Limits.{most_text_bytes};

use crate::OutOfMemory;
use std::alloc::Global;
use std::marker::Model;
use std::str;
use thiserror::Error;

/// UTF-8 of at most 1,024 bytes. A clause sees it as its bytes.
#[derive(Drop)]
pub struct Chars {
    bytes: Vec<u8>,
}

impl Model for Chars {
    ghost use Rattle.std.specs.Prelude.{ℕ, List};

    ghost Value = { List ℕ };

    ghost use Rattle.sg_base.specs.Fits.{IsText};

    ghost view = { λ c. c.bytes.items };

    ghost invariant = { λ c. IsText c.bytes.items };
}

/// Why bytes are no text of bounded length, the first cause that holds.
#[derive(Debug, PartialEq, Drop, Error)]
pub enum CharsFault {
    /// There are more than 1,024 bytes: this many.
    #[error("{bytes} bytes, of at most 1024")]
    TooLong { bytes: usize },
    /// The bytes are not UTF-8.
    #[error("not UTF-8")]
    NotText,
    /// Out of memory.
    #[error("out of memory")]
    OutOfMemory,
}

impl Chars {
    /// The text of these bytes. Refused if there are more than 1,024, if they are not UTF-8, or if memory runs out.
    pub fn new(alloc: Global, bytes: &[u8]) -> Result<Chars, CharsFault>
        ensures value { IfOk result (λ c. c ≡ bytes.now) }
        ensures text { OnOk result (IsUtf8 bytes.now × (length bytes.now ≤ most_text_bytes)) }
        ensures too_long { most_text_bytes < length bytes.now → result ≡ Err (CharsFault.TooLong (length bytes.now)) }
        ensures not_text { length bytes.now ≤ most_text_bytes → ¬ IsUtf8 bytes.now → result ≡ Err CharsFault.NotText }
        ensures memory { IsUtf8 bytes.now → length bytes.now ≤ most_text_bytes → IfErr result (λ e. e ≡ CharsFault.OutOfMemory) }
    {
        if bytes.len() > 1024 {
            return Err(CharsFault::TooLong { bytes: bytes.len() });
        }
        if str::from_utf8(bytes).is_err() {
            return Err(CharsFault::NotText);
        }
        match bytes.to_vec(alloc) {
            Ok(bytes) => Ok(Chars { bytes }),
            Err(_) => Err(CharsFault::OutOfMemory),
        }
    }

    /// The bytes. It takes no memory.
    pub fn as_bytes(&self) -> &[u8]
        ensures bytes { result.now ≡ self.now }
        ensures text { IsUtf8 self.now × (length self.now ≤ most_text_bytes) }
    {
        self.bytes.as_slice()
    }

    /// An equal text.
    pub fn copy(&self, alloc: Global) -> Result<Chars, OutOfMemory>
        ensures { IfOk result (λ c. c ≡ self.now) }
    {
        let bytes = self.bytes.as_slice().to_vec(alloc)?;
        Ok(Chars { bytes })
    }
}
