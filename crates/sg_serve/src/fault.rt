//! Why a run ends early.
use thiserror::Error;

/// Why a run ends early. What was answered are whole answers to the first lines, except if a write failed.
#[derive(Debug, Clone, Copy, PartialEq, Eq, Error)]
pub enum ServeFault {
    /// The input failed. No line was begun.
    #[error("the input failed")]
    InputFailed,
    /// An answer was not written whole. Its frame went out, if it has one and the link took it.
    #[error("an answer was not written")]
    WriteFailed,
    /// The disk failed, and the join of the line that was begun may be kept or not. Nothing of it was answered. The ledger is to be opened again.
    #[error("the disk failed")]
    DiskFailed,
    /// Memory ran out. The next line was not begun, or its call was made and its join kept, and nothing of it was answered or sent.
    #[error("out of memory")]
    OutOfMemory,
}
