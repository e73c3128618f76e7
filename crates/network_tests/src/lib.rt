//! Tests of networks, their files and cells, of lists by index, tables of versions and workloads, worked out by hand.
#![tactic(auto)]

#[cfg(test)]
mod cell_lists;
pub mod exercises;
#[cfg(test)]
mod orders;
pub mod stores;
