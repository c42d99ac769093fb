//! Tests of what every crate names, of hashes, tags and frames, of keys and joins, of what a line asks for, and of the texts of a report. The
//! cases are lines of tables, which `sg_table` reads.
#![tactic(auto)]

#[cfg(test)]
mod again;
#[cfg(test)]
mod base;
#[cfg(test)]
mod cache;
#[cfg(test)]
mod certify;
#[cfg(test)]
mod craft;
#[cfg(test)]
mod crypt;
#[cfg(test)]
mod frame;
#[cfg(test)]
mod keys;
#[cfg(test)]
mod ledger;
#[cfg(test)]
mod lines;
#[cfg(test)]
mod request;
#[cfg(test)]
mod table;
