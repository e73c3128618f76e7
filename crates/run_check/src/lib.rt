//! Whether a recorded run is lawful: one walk over its rows, with the state of each server and the place of each
//! packet, up to the first row that breaks a law.
#![tactic(auto)]

pub mod broken_laws;
pub mod check_gauge;
pub mod check_report;
mod ends;
mod first;
pub mod recorded_sizes;
mod rows;
pub mod run_table;
mod site;
mod walk;
mod ways;

pub use first::{Broken, first_broken};
