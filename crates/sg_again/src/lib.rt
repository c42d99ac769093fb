//! The frames that may be sent again: of each session the last one that it sent.
//!
//! A frame can be lost, and the principal that it was for waits for it. So the last frame of each live session is kept, and of the
//! sessions that are live no more those of the 4,096 that ended last: they take bounded room, however long a principal serves.
//! `specs/LastFrames.antt` says what is kept after each call, as a map by session.
//!
//! A session's frame is found by a hash table, and the sessions that ended stand in a queue, so each call takes a time that hardly
//! grows with the number of sessions.
#![tactic(auto)]

mod entry;
mod frame;
mod frames;
mod laws;

pub use frame::LastFrame;
pub use frames::LastFrames;
pub use laws::{keeps_few, keeps_the_last, keeps_the_live};
