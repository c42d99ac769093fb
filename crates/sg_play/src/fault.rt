//! Why a play ends early.
use thiserror::Error;

/// Why a play ends early.
#[derive(Debug, Clone, Copy, PartialEq, Eq, Error)]
pub enum PlayFault {
    /// The link failed. Each line that was begun is whole, and the frames that the link took are those of the lines.
    #[error("the link failed")]
    LinkFailed,
    /// A line was not written whole. The link took its frame.
    #[error("a line was not written")]
    WriteFailed,
    /// Memory ran out. Each line that was begun is whole, and the frames that the link took are those of the lines.
    #[error("out of memory")]
    OutOfMemory,
}
