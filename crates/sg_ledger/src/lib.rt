//! Joins that outlive a restart: a ledger on a disk.
//!
//! A principal joins each session in each role at most once, also when it was stopped in between. So each join is added to a ledger
//! before anything of it is written or sent. The ledger is a file of 65,536 slots. A pair is written behind a closed gate and brought to the
//! disk, and then the gate is opened by a write of one byte: after a crash at any moment the file represents the joins with the new
//! one or without it, and with it once [`Ledger::add`] has answered Ok. [`Ledger::open`] writes nothing, and gives the joins that the file
//! represents.
//!
//! [`Disk`] says what is asked of a disk. [`MemDisk`] is one that crashes as a test asks; [`FileDisk`] is a file of the system.
#![tactic(auto)]

mod bound;
mod disk;
mod file;
mod ledger;
mod medium;
mod memory;
mod plan;
mod runs;
mod slots;

pub use disk::{Disk, DiskFault};
pub use file::FileDisk;
pub use ledger::{AddJoinFault, CreateFault, Ledger, OpenFault};
pub use medium::DiskCall;
pub use memory::MemDisk;
pub use runs::joined_once_over_runs;
