//! Why a call for a connection failed.

use std::io::{Error, ErrorKind};

// The system's numbers of these errors: too many files are open in the whole system, or in the process, and there is no memory for buffers.
const TOO_MANY: i32 = 23;

const TOO_MANY_HERE: i32 = 24;

const NO_BUFFERS: i32 = 105;

/// Whether a call may be made again: it was interrupted, or a peer went away before its connection was accepted.
pub(crate) fn is_passing(error: &Error) -> bool {
    matches!(
        error.kind(),
        ErrorKind::Interrupted | ErrorKind::ConnectionAborted
    )
}

/// Whether there is no room for one more connection, unless another one is closed.
pub(crate) fn has_no_room(error: &Error) -> bool {
    error.kind() == ErrorKind::OutOfMemory
        || matches!(
            error.raw_os_error(),
            Some(TOO_MANY | TOO_MANY_HERE | NO_BUFFERS)
        )
}
