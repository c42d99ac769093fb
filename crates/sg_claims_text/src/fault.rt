//! Why a text has no claims of a graph.
use sg_parse::ParseFault;
use std::error::Error;
use std::fmt;

/// Why a text was not read as claims of a graph: the first wrong token from the left, by an offset in bytes.
#[derive(Debug, Clone, Copy, PartialEq, Eq)]
pub enum ClaimsFault {
    /// What may be wrong in a graph's text too. `TooMany` is also at the word `claim` of the 1,025th claim.
    Text(ParseFault),
    /// The name after `claims` isn't the graph's.
    OtherGraph { at: usize },
}

impl Error for ClaimsFault {}

impl fmt::Display for ClaimsFault {
    ghost use Rattle.std.specs.Prelude.{Some};
    ghost use Rattle.sg_claims_text.specs.FaultText.{fault_text};

    ghost output = { λ fault. Some (fault_text fault) };

    fn fmt<W: fmt::Write>(&self, f: &mut fmt::Formatter<W>) -> fmt::Result {
        match self {
            ClaimsFault::Text(fault) => write!(f, "{fault}"),
            ClaimsFault::OtherGraph { at } => write!(f, "other graph at {at}"),
        }
    }
}
