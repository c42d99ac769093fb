//! Why a play over a ledger ends early.
use sg_play::PlayFault;
use thiserror::Error;

/// Why a play over a ledger ends early.
#[derive(Debug, Clone, Copy, PartialEq, Eq, Error)]
pub enum KeepFault {
    /// The play ended early.
    #[error("{0}")]
    Played(PlayFault),
    /// The disk failed, and a join may be kept or not. Nothing of it was written or sent. The ledger is to be opened again.
    #[error("the disk failed")]
    DiskFailed,
}
