//! Nonces and confounders in memory.
ghost use Rattle.std.specs.Prelude.{◌≡◌, ◌+◌, ◌<◌, ◌^◌, drop, replicate, slice_index_or, IfOk};
ghost use Rattle.sg_base.specs.Seeded.{seeded_random, stream_draw};

use crate::{Fresh, OutOfMemory};
use rand_chacha::ChaCha20Rng;
use rand_core::SeedableRng;
use rand_core::utils::fill_bytes_via_u32;
use std::alloc::Global;
use std::collections::VecDeque;
use std::marker::Model;

/// A list of sixteen bytes each, drawn from a seed when it was made.
#[derive(Drop)]
pub struct MemFresh {
    random: VecDeque<[u8; 16]>,
}

impl Model for MemFresh {
    ghost use Rattle.std.specs.Prelude.{ℕ, List};

    ghost Value = { List (List ℕ) };

    ghost view = { λ f. f.random.items };
}

impl MemFresh {
    /// The first `count` times sixteen bytes of `ChaCha20Rng` from a seed.
    pub fn new(alloc: Global, seed: [u8; 32], count: u32) -> Result<MemFresh, OutOfMemory>
        ensures { IfOk result (λ f. f ≡ seeded_random seed count) }
    {
        let mut rng = ChaCha20Rng::from_seed(seed);
        let mut drawn = VecDeque::with_capacity(alloc, count as usize)?;
        for _ in 0..count {
            drawn.push_back(draw(&mut rng))?;
        }
        Ok(MemFresh { random: drawn })
    }
}

// The next sixteen bytes.
fn draw(rng: &mut ChaCha20Rng) -> [u8; 16]
    requires { rng.old.word_pos + 4 < 2 ^ 68 }
    ensures drawn { result ≡ stream_draw rng.old.key rng.old.stream rng.old.word_pos }
    ensures position { rng.new ≡ record rng.old { word_pos = rng.old.word_pos + 4 } }
{
    let mut bytes = [0u8; 16];
    fill_bytes_via_u32(rng, &mut bytes);
    bytes
}

impl Fresh for MemFresh {
    ghost use Rattle.std.specs.Prelude.{Some};

    ghost random = { λ f. Some f };

    fn next(&mut self) -> [u8; 16]
        ensures drawn { result ≡ slice_index_or self.old 0 (replicate 16 0) }
        ensures taken { self.new ≡ drop 1 self.old }
    {
        self.random.pop_front().unwrap_or([0; 16])
    }
}
