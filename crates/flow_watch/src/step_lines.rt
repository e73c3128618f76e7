//! How many packets come no faster than a line, in whole steps: the bits between any two of them fit in one step more than some whole
//! number that the line has reached by the time between.

mod lows;
mod places;

pub use places::{is_at_most, is_under, seen_upto, whole_of};
