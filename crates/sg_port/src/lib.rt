//! Frames over kept TCP connections.
//!
//! [`TcpPort`] is a link that can wait with a limit of time. It reads the connections that others made to it side by side, and keeps one
//! connection to each address to which it sends. A message is a frame's length in four bytes, the high byte first, and then the frame, of 1
//! to 60,000 bytes; a connection may bring one message or many.
//!
//! Rules that it keeps:
//! - no peer holds up another, or the caller past its time: a connection is read no further than a message, and then the next one has its
//!   turn; waits are for any change, and each has an end;
//! - what came is not lost: bytes are read only if there is room for them, a connection gives way only if nothing of it waits to be
//!   read, and a message for which memory is wanting stays where it is;
//! - strangers keep nobody out: if there is no room for one more connection, be it of slots or of the system's descriptors, the one that
//!   was silent longest gives way;
//! - a send that fails ends nothing: its connection is closed, and the next send makes a new one;
//! - room is bounded, whoever sends what: 256 accepted connections with at most one message each, 256 kept ones, 4,194,304 bytes of frames
//!   that are taken in while a send waits.
//!
//! The content of a link over the system is not known, so that frames come and go as they are is tested over the loopback, not proved. What is
//! proved beside the trait's clauses: that each call ends, however peers behave, that the bytes that go out are the frame's message, and which
//! connection gives way.
#![tactic(auto)]

mod accepted;
mod conns;
mod fault;
mod giving;
mod inbox;
mod intake;
mod parcel;
mod port;

pub use port::TcpPort;
