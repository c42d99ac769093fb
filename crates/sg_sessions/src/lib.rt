//! Sessions of a graph, as many as one likes, with a principal for each role, all of them honest: what they declare, and the numbers that a
//! seed draws for them.
//!
//! `setup` declares the sessions, the principals and the keys of their pairs (`specs/Setup.antt`). `Draws` gives one number after another
//! (`specs/Draws.antt`).
//!
//! In a run of honest principals alone (`specs/Own.antt`) each recorded frame is one that a principal sent. That a frame is accepted once,
//! whatever holds, is `specs/Spent.antt`, and the law stands in `laws`.
#![tactic(auto)]

mod declared;
mod draws;
pub mod laws;

pub use declared::{player, setup};
pub use draws::Draws;
