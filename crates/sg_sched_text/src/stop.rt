//! Why a line isn't taken.
use sg_base::OutOfMemory;
use sg_sched::Kind;

/// Why a line isn't taken.
#[derive(Clone, Copy)]
pub(crate) enum Stop {
    /// It is wrong.
    Wrong(Kind),
    /// Out of memory.
    OutOfMemory,
}

impl From<OutOfMemory> for Stop {
    ghost use Rattle.sg_sched_text.specs.declared.stop.Stop.{Stop};
    ghost use Rattle.std.specs.Prelude.{◌≡◌};

    ghost from_gives = { λ _ stop. stop ≡ Stop.OutOfMemory };

    fn from(_: OutOfMemory) -> Stop {
        Stop::OutOfMemory
    }
}
