//! Why bytes are no frame.
ghost use Rattle.std.specs.Prelude.{◌≡◌};
ghost use Rattle.sg_frame.specs.declared.fault.FrameStop.TheVariants.{Malformed, OutOfMemory as Memory};

use sg_base::Short;
use std::alloc::{AllocError, AllocFailed};
use thiserror::Error;

/// Why bytes were not read as a frame.
#[derive(Debug, Clone, Copy, PartialEq, Eq, Error)]
pub enum DecodeFault {
    /// The first field that is not there whole, or is out of its range, begins at this offset.
    #[error("malformed at {at}")]
    Malformed { at: u32 },
    /// Out of memory.
    #[error("out of memory")]
    OutOfMemory,
}

// Why reading stopped within the bytes.
#[derive(Clone, Copy)]
pub enum FrameStop {
    Malformed { at: usize },
    OutOfMemory,
}

impl From<Short> for FrameStop {
    ghost from_gives = { λ short stop. stop ≡ Malformed short.at };

    fn from(short: Short) -> FrameStop {
        FrameStop::Malformed { at: short.at }
    }
}

impl From<AllocError> for FrameStop {
    ghost from_gives = { λ _ stop. stop ≡ Memory };

    fn from(_: AllocError) -> FrameStop {
        FrameStop::OutOfMemory
    }
}

impl<T: Drop> From<AllocFailed<T>> for FrameStop {
    ghost from_gives = { λ _ stop. stop ≡ Memory };

    fn from(_: AllocFailed<T>) -> FrameStop {
        FrameStop::OutOfMemory
    }
}
