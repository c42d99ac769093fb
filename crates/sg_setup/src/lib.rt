//! What a run of one principal is given: the keys, the programs and the script of the files that its arguments name.
//!
//! The files are read in order, the keys first, then the programs, then the script, and the first one that isn't read or is refused says how the
//! program ends. No two programs are of the same graph and role, or of two graphs with one name.
//!
//! `specs/Setup.antt` says what the files hold, and why they are refused, and `laws` that always one of the two is so.
#![tactic(auto)]

pub mod laws;
mod setup;

pub use setup::{Principal, Setup, read_principal, read_setup};
