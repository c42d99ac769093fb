//! The outside in memory. What each object holds is known, and it fails at the calls that it is to fail at.
mod files;
mod fresh;
mod link;
mod plan;
mod sink;

pub use files::MemFiles;
pub use fresh::MemFresh;
pub use link::MemLink;
pub use plan::FaultPlan;
pub use sink::MemSink;
