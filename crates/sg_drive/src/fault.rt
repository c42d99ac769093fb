//! Why a run isn't generated.
use thiserror::Error;

/// Why a run isn't generated, the first cause that holds.
#[derive(Debug, Clone, Copy, PartialEq, Eq, Error)]
pub enum GenerateFault {
    /// A step would begin with a record of more than 264,241,152 bytes.
    #[error("a record of {bytes} bytes")]
    RecordFull {
        /// The bytes that the record holds.
        bytes: u128,
    },
    /// Out of memory.
    #[error("out of memory")]
    OutOfMemory,
}
