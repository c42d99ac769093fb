//! What a schedule says of bytes: the frames that it crafts, the frames that it changes before they are delivered, and the sixteen bytes
//! of a confounder.
//!
//! A craft is a frame that a compromised principal makes. Its parts are those of its line; its tags are made under keys of pairs,
//! copied from recorded frames, or zero. `make_frame` makes its bytes from what a craft has to work with, its `Means`: the session
//! with its graph, the keys, and the frames recorded so far. A key is found without a scan, and a frame is read only if one of its
//! tags is copied.
//!
//! `frame_at` finds a recorded frame by its number, `first_bytes` and `flipped` change one, and `confounder` is of a variable at a step.
#![tactic(auto)]

mod bytes;
mod commitments;
mod copied;
mod frame;
mod item;
mod keys;
mod laws;
mod means;
mod source;

pub use bytes::{confounder, first_bytes, flipped, frame_at};
pub use frame::make_frame;
pub use keys::PairKeys;
pub use laws::crafts_can_be_made;
pub use means::Means;
