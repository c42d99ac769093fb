//! The frame codec, in both versions.
//!
//! One spelling for each frame, and for any bytes at all either the frame that they spell or the offset of the first field that is
//! wrong. Numbers stand with the high byte first. Reading is one pass, takes memory in proportion to the bytes, and refuses more
//! than 60,000 bytes.
#![tactic(auto)]

mod cast;
mod fault;
mod field;
mod frame;
mod item;
mod opening;
mod read;
mod reading;
mod writing;

pub use fault::DecodeFault;
pub use frame::Frame;
pub use item::Item;
pub use read::ReadFrame;
pub use reading::decode;
pub use writing::{body_len, encode};
