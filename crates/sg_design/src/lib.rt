//! The commands on a graph: `check`, `compile`, `compose`, and `claims` on a graph alone or with a file of claims.
//!
//! Each is what is done with the bytes of one file, whose first fault ends the work; only `claims` with a file of claims reads its two files itself, and it
//! reads and checks the graph whole, before it reads the claims. Nothing is written before all is done, so what is refused leaves standard output as it
//! was.
//!
//! Each command has a module of its name, and `claims` on a graph alone is in `suggest`. `specs/Ends.antt` says what `check`, `compile` and `compose` leave and why
//! they end so, `specs/Claimed.antt` what `claims` says, and `specs/Accepted.antt` has the text of `check`. `laws` says that an ending always applies.
#![tactic(auto)]

pub mod check;
pub mod claims;
pub mod compile;
pub mod compose;
pub mod laws;
pub mod suggest;
