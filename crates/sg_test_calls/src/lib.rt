//! Tests of calls that no command makes, and of graphs and runs that a table of cases doesn't come to.
#![tactic(auto)]

#[cfg(test)]
mod check;
#[cfg(test)]
mod drive;
#[cfg(test)]
mod graph;
#[cfg(test)]
mod know;
#[cfg(test)]
mod reach;
#[cfg(test)]
mod report;
#[cfg(test)]
mod role;
#[cfg(test)]
mod vis;
#[cfg(test)]
mod world;
