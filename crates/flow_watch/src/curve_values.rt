//! The value of a curve at a time of a window, by the pieces that are kept: no period is written out.

mod values;

pub use values::{is_early, value_within};
