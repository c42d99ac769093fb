//! What every crate names: numbers and sets of numbers, names, values, byte fields, made frames, and the outside as traits.
#![tactic(auto)]

mod address;
mod byte_in;
mod byte_out;
mod chars;
mod facts;
mod last_path;
mod memory;
mod name;
mod number;
mod outside;
mod sealed;
mod seq;
mod sets;
mod system;
mod value;
mod word;

pub use address::Addr;
pub use byte_in::{ByteIn, Short};
pub use byte_out::ByteOut;
pub use chars::{Chars, CharsFault};
pub use facts::facts_of_bytes;
pub use memory::{FaultPlan, MemFiles, MemFresh, MemLink, MemSink};
pub use name::Name;
pub use number::{Label, NodeId, Role, Sid, Tag, Time, Var};
pub use outside::{Failed, FileFault, Files, Fresh, Link, LinkFault, Sink, write_all};
pub use sealed::Sealed;
pub use seq::Seq;
pub use sets::{RoleSet, VarSet};
pub use system::{StdFiles, StdSink};
pub use value::{Opening, Value, VarType, copy_openings};
pub use word::{read_hex, read_number};

/// The answer if memory ran out.
pub type OutOfMemory = std::alloc::AllocError;
