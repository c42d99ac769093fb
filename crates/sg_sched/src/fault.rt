//! What is wrong with a schedule.
use sg_parse::ParseFault;
use thiserror::Error;

/// What is wrong with a line, the first cause that holds in this order: form, too many, unknown, twice, not honest.
#[derive(Debug, Clone, Copy, PartialEq, Eq, Error)]
pub enum Kind {
    /// No form fits the line, it is out of its group or of a range, a craft's frame would be too long, or a block isn't closed.
    #[error("form")]
    Form,
    /// A name of a graph, role, label, variable, session or pair that it uses isn't declared.
    #[error("unknown")]
    Unknown,
    /// It declares what is declared already, or an act names a variable twice.
    #[error("twice")]
    Twice,
    /// It is a step of a principal that isn't honest.
    #[error("not-honest")]
    NotHonest,
    /// The block's text is refused, at its closing line.
    #[error("graph {0}")]
    Graph(ParseFault),
    /// It is step 200,001.
    #[error("too many steps")]
    TooManySteps,
    /// It is session 100,001.
    #[error("too many sessions")]
    TooManySessions,
}

/// Why bytes are no schedule.
#[derive(Debug, Clone, Copy, PartialEq, Eq, Error)]
pub enum LineFault {
    /// The first wrong line from the top and what is wrong with it.
    #[error("line {line} {kind}")]
    Line {
        /// The line's number, from 1.
        line: u32,
        /// What is wrong with it.
        kind: Kind,
    },
    /// Out of memory.
    #[error("out of memory")]
    OutOfMemory,
}
