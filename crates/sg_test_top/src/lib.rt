//! Tests of the whole program without its real objects. The cases are lines of tables, which `sg_table` reads: what is around the program, the
//! arguments of a command, and what must come of it. `outside` says which words a line may have.
#![tactic(auto)]

#[cfg(test)]
mod around;
#[cfg(test)]
mod files;
#[cfg(test)]
mod ledger;
#[cfg(test)]
mod loopback;
#[cfg(test)]
mod names;
#[cfg(test)]
mod outside;
#[cfg(test)]
mod play;
#[cfg(test)]
mod report;
#[cfg(test)]
mod serve;
#[cfg(test)]
mod stream;
#[cfg(test)]
mod surroundings;
