//! The bytes of the report on a measured curve.

mod lines;
mod report;

pub use report::measure_text;
