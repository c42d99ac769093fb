//! A text that was hashed.
ghost use Rattle.std.specs.Prelude.{◌≡◌, length};
ghost use Rattle.sg_protocol.specs.Texts.{real};

use sha2::{Digest, Sha256};
use std::marker::Model;

/// A text beside its digest, so that no text is hashed twice. A clause sees the text.
#[derive(Drop)]
pub struct Hashed {
    text: Vec<u8>,
    digest: [u8; 32],
}

impl Model for Hashed {
    ghost use Rattle.std.specs.Prelude.{◌≡◌, ℕ, List};
    ghost use Rattle.sg_protocol.specs.Texts.{real};

    ghost Value = { List ℕ };

    ghost view = { λ h. h.text.items };

    ghost invariant = { λ h. h.digest ≡ real h.text.items };
}

impl Hashed {
    /// The text, which is hashed. It takes no memory.
    pub fn new(text: Vec<u8>) -> Hashed
        ensures { result ≡ text.items }
    {
        let digest = Sha256::digest(text.as_slice());
        Hashed { text, digest }
    }

    /// The text, whose digest is known. It takes no memory.
    pub fn with_digest(text: Vec<u8>, digest: [u8; 32]) -> Hashed
        requires { digest ≡ real text.items }
        ensures { result ≡ text.items }
    {
        Hashed { text, digest }
    }

    /// The text. It takes no memory.
    pub fn as_slice(&self) -> &[u8]
        ensures { result.now ≡ self.now }
    {
        self.text.as_slice()
    }

    /// Its SHA-256. It takes no memory.
    pub fn digest(&self) -> &[u8; 32]
        ensures { result.now ≡ real self.now }
    {
        &self.digest
    }

    /// How many bytes it has. It takes no memory.
    pub fn len(&self) -> usize
        ensures { result ≡ length self.now }
    {
        self.text.len()
    }
}
