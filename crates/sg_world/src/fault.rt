//! Why a step is not taken.
use sg_base::Name;
use thiserror::Error;

/// Why a step is not taken, the first cause that holds. The world is then as before.
#[derive(Debug, Clone, Copy, PartialEq, Eq, Error)]
pub enum StepFault {
    /// The principal whose step it is isn't honest.
    #[error("not an honest principal")]
    NotHonest {
        /// The principal.
        name: Name,
    },
    /// The record holds more than 264,241,152 bytes: each graph text once, each frame, and each text as often as it was noted.
    #[error("a record of {bytes} bytes")]
    RecordFull {
        /// The bytes that it holds.
        bytes: u128,
    },
    /// Out of memory.
    #[error("out of memory")]
    OutOfMemory,
}
