//! The commands: from the bytes of the files that a call names to the report, or to the line of a refusal.
#![tactic(auto)]

pub mod analyse;
pub mod check;
pub mod curve;
pub mod edit;
pub mod edit_report;
pub mod exercise;
pub mod measure;
mod network_read;
pub mod simulate;
mod simulated;
mod tabled;
