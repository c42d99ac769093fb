//! Tables of the calls of a library: each line is a call, its arguments and the answer that must come, in words with a blank between them.
//!
//! A line that is empty, or begins with `#` and a blank, says nothing. A word is bytes, in pieces with `+` between them. A piece is
//!
//! - hexadecimal digits;
//! - a number, `*` and hexadecimal digits, which it repeats so many times;
//! - `'` and a text, in which `_` is a blank and `^` a line end;
//! - `$` and a name that a line `let NAME WORD` above gave to bytes, the last of these if there are several.
//!
//! A crate of tests says by [`Calls`] what its library answers, and [`hold`] compares. If a line makes several calls on one value, each a word, then
//! this value is a [`Target`], and [`answers`] has what it answers to all of them. [`Args`] reads arguments. So a new case is a new line, which costs no
//! proof.
//!
//! What a line means is shown by tests, some of them with lines that are wrong; the clauses here say what words are.
#![tactic(auto)]

mod args;
mod calls;
mod lines;
mod words;

pub use args::Args;
pub use calls::{Calls, Target, answers};
pub use lines::hold;
pub use words::{byte, bytes, fixed, name, name_or_none, number, parts, text, yes};
