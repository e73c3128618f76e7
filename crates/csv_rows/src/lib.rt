//! The rows of a table of comma-separated cells, and the lines on which they begin.
#![tactic(auto)]

mod lines;
mod reading;
mod rows;

pub use reading::{TableRows, no_row, read_table, table_rows};
pub use rows::{TableRow, cell};
