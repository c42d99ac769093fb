//! The process before its work: the standard descriptors, and random bytes of the system.
//!
//! A file, socket or connection that is opened takes the lowest descriptor that is free. If a process was begun with standard output
//! closed, that is the number of standard output, and what is written there goes into the file. So before anything else is opened,
//! [`hold_standard`] opens the null device for reading at each standard descriptor that is free: a read of standard input is then at its
//! end, and a write to standard output or error fails.
#![tactic(auto)]

mod descriptors;
mod fresh;
mod memory;
mod system;

pub use descriptors::{Descriptors, hold_standard};
pub use fresh::OsFresh;
pub use memory::MemDescriptors;
pub use system::StdDescriptors;
