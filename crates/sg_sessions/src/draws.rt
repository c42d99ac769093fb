//! The numbers that a seed draws.
ghost use Rattle.std.specs.Prelude.{◌≡◌, ◌+◌, ◌<◌};
ghost use Rattle.sg_sessions.specs.Draws.{draw};

use std::marker::Model;

/// The draws of a seed. A clause sees the seed and how many numbers were drawn.
#[derive(Drop)]
pub struct Draws {
    seed: u32,
    count: u32,
}

impl Model for Draws {
    ghost use Rattle.sg_sessions.specs.Draws.{Drawing};

    ghost Value = { Drawing };

    ghost view = { λ d. record { seed = d.seed; count = d.count } };
}

impl Draws {
    /// The draws of a seed of which none was drawn yet.
    pub fn new(seed: u32) -> Draws
        ensures { result ≡ record { seed = seed; count = 0 } }
    {
        Draws { seed, count: 0 }
    }

    /// The next draw, below 65,536.
    pub fn next(&mut self) -> u32
        requires { self.old.count < 1_000_000_000 }
        ensures value { result ≡ draw self.old.seed self.old.count }
        ensures small { result < 65_536 }
        ensures next { self.new ≡ record self.old { count = self.old.count + 1 } }
    {
        let index = u64::from(self.seed) + u64::from(self.count);
        self.count += 1;
        (index * 2_654_435_761 % 4_294_967_296 / 65_536) as u32
    }
}
