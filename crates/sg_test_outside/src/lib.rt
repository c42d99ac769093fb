//! Tests of files, outputs, inputs, links and random bytes: those in memory, those of the system, and links over the loopback. The cases are lines of
//! tables, which `sg_table` reads; `calls` says which words are calls of a link or of connections.
#![tactic(auto)]

#[cfg(test)]
mod base;
#[cfg(test)]
mod calls;
#[cfg(test)]
mod input;
#[cfg(test)]
mod link;
#[cfg(test)]
mod port;
#[cfg(test)]
mod stream;
#[cfg(test)]
mod system;
#[cfg(test)]
mod wait;
