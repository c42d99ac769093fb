//! Why a join isn't kept.
use thiserror::Error;

/// Why a join isn't kept.
#[derive(Debug, Clone, Copy, PartialEq, Eq, Error)]
pub enum JoinFault {
    /// The disk failed, and the join may be kept or not. The ledger is to be opened again.
    #[error("the disk failed")]
    DiskFailed,
    /// Memory ran out.
    #[error("out of memory")]
    OutOfMemory,
}
