//! Random bytes of the system.
use rand::make_rng;
use rand_chacha::ChaCha20Rng;
use rand_core::Rng;
use sg_base::Fresh;
use std::random::RandomSource;

/// Random bytes of a generator that the system seeded. They are not known: that they are random and differ is trusted.
#[derive(Drop)]
pub struct OsFresh {
    rng: ChaCha20Rng,
}

impl OsFresh {
    /// The random bytes of a generator that the system seeds, or `None` if it gives no seed.
    pub fn seeded<R: RandomSource>(rt: &R) -> Option<OsFresh> {
        match make_rng::<ChaCha20Rng, R>(rt) {
            Ok(rng) => Some(OsFresh { rng }),
            Err(_) => None,
        }
    }
}

impl Fresh for OsFresh {
    ghost use Rattle.std.specs.Prelude.{None};

    ghost random = { λ _. None };

    fn next(&mut self) -> [u8; 16] {
        let mut draw = [0u8; 16];
        self.rng.fill_bytes(&mut draw);
        draw
    }
}
