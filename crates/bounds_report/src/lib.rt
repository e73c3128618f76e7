//! The report on the bounds of a network of ports and links: line by line, or as JSON.
#![tactic(auto)]

mod data;
mod laws;
mod lines;
mod numbers;
mod rows;

pub use data::report_json;
pub use laws::texts_are_numbers;
pub use lines::report_lines;
pub use numbers::is_met;
pub use rows::{BranchRow, QueueRow, Report};
