//! Frames over a stream of bytes.
//!
//! A stream delivers its bytes in pieces that are cut anywhere. A message is a frame's length in four bytes, the high byte first, and
//! then the frame, of 1 to 60,000 bytes. [`StreamReader`] is fed the pieces and gives the frames: the messages of those that it gave, in
//! order, and then the bytes not taken, are the pieces joined, and [`cutting_does_not_matter`] says that no other frames are. A length
//! of 0 or above 60,000 is refused, and so is every later call. Taken bytes are not moved at each frame, so that the work is in
//! proportion to the bytes.
//!
//! [`Conns`] says what is asked of connections: pieces come in, each with its connection's number, and bytes are given to connections
//! that were made for writing. [`MemConns`] has both in memory. [`StreamLink`] is a link over any connections: frames come in the order in
//! which their messages become whole, and each goes out over a connection of its own.
#![tactic(auto)]

mod arrivals;
mod calls;
mod conns;
mod counts;
mod incoming;
mod link;
mod memory;
mod reader;
mod sending;

pub use arrivals::{frames_are_framed, pieces_may_be_cut_anywhere};
pub use calls::cutting_does_not_matter;
pub use conns::{ConnFaults, Conns};
pub use counts::rises_are_of_one_call;
pub use link::StreamLink;
pub use memory::MemConns;
pub use reader::{StreamFault, StreamReader};
