//! Why a text is no graph.
ghost use Rattle.std.specs.Prelude.{◌≡◌};

use sg_graph::AddFault;
use std::error::Error;
use std::fmt;

/// Why a text was not read as a graph: the first wrong token from the left, by an offset in bytes.
#[derive(Debug, Clone, Copy, PartialEq, Eq)]
pub enum ParseFault {
    /// A byte outside comments that begins no token, such as a digit, a `_`, or a `-` before anything but `>`.
    BadByte { at: usize },
    /// A token that the grammar doesn't have at its position, or the end of the text, whose offset is the text's length.
    Unexpected { at: usize },
    /// A name that is used and isn't declared.
    UnknownName { at: usize },
    /// A name that was declared before in its kind, or that stands twice in one list.
    Twice { at: usize },
    /// The 33rd byte of a name, or the first word of a statement of which the graph has as many as it may have.
    TooMany { at: usize },
    /// Out of memory.
    OutOfMemory,
}

impl Error for ParseFault {}

impl fmt::Display for ParseFault {
    ghost use Rattle.std.specs.Prelude.{Some};
    ghost use Rattle.sg_parse.specs.FaultText.{parse_text};

    ghost output = { λ fault. Some (parse_text fault) };

    fn fmt<W: fmt::Write>(&self, f: &mut fmt::Formatter<W>) -> fmt::Result {
        match self {
            ParseFault::BadByte { at } => write!(f, "bad byte at {at}"),
            ParseFault::Unexpected { at } => write!(f, "unexpected at {at}"),
            ParseFault::UnknownName { at } => write!(f, "unknown name at {at}"),
            ParseFault::Twice { at } => write!(f, "twice at {at}"),
            ParseFault::TooMany { at } => write!(f, "too many at {at}"),
            ParseFault::OutOfMemory => f.write_str("out of memory"),
        }
    }
}

// The fault if a part isn't added because memory ran out.
pub fn want(fault: AddFault) -> ParseFault
    requires { fault ≡ AddFault.OutOfMemory }
    ensures { result ≡ ParseFault.OutOfMemory }
{
    ParseFault::OutOfMemory
}
