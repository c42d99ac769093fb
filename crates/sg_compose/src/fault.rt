//! Why parts are not expanded.
use sg_base::Name;
use std::error::Error;
use std::fmt;

/// Why the parts of a text are not expanded: the first use that can't be, in the order of the text, by the names of the part that has it
/// and of the use, and the first cause that holds.
#[derive(Debug, Clone, Copy)]
pub enum ComposeFault {
    /// The part that is used can't be: an edge enters its start, or not exactly one of its nodes has no edge that leaves it, or that
    /// node is its start.
    BadPart { part: Name, use_name: Name },
    /// There are not as many roles as the part that is used has, or one of the nodes of the use has another role than the start or end
    /// that is put there.
    BadRoles { part: Name, use_name: Name },
    /// A name with the use's in front has more than 32 bytes.
    LongName { part: Name, use_name: Name },
    /// A name with the use's in front is there in its kind.
    Clash { part: Name, use_name: Name },
    /// There would be more than 256 nodes, 512 edges or 32 variables.
    TooLarge { part: Name, use_name: Name },
    /// Out of memory.
    OutOfMemory,
}

impl Error for ComposeFault {}

impl fmt::Display for ComposeFault {
    ghost use Rattle.std.specs.Prelude.{Some};
    ghost use Rattle.sg_compose.specs.FaultText.{compose_text};

    ghost output = { λ fault. Some (compose_text fault) };

    fn fmt<W: fmt::Write>(&self, f: &mut fmt::Formatter<W>) -> fmt::Result {
        match self {
            ComposeFault::BadPart { part, use_name } => write!(f, "bad part {part} {use_name}"),
            ComposeFault::BadRoles { part, use_name } => write!(f, "bad roles {part} {use_name}"),
            ComposeFault::LongName { part, use_name } => write!(f, "long name {part} {use_name}"),
            ComposeFault::Clash { part, use_name } => write!(f, "clash {part} {use_name}"),
            ComposeFault::TooLarge { part, use_name } => write!(f, "too large {part} {use_name}"),
            ComposeFault::OutOfMemory => f.write_str("out of memory"),
        }
    }
}
