//! What a replay goes by: the programs and equal copies of what is declared, with what is made of it once, and equal copies of the steps.
//!
//! `Setting` has the identifiers of the sessions, the texts under the digests of the graphs, and the keys by their pairs. `keyring` gives the
//! keys of the pairs that one principal is one of, and `copy_step` an equal step, for the record.
//!
//! A graph is found by its digest among the programs, by the program of its first role: the graphs of a schedule have two roles or more.
#![tactic(auto)]

mod copies;
mod pairs;
mod setting;
mod texts;

pub use copies::copy_step;
pub use pairs::keyring;
pub use setting::Setting;
