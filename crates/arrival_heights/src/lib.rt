//! What parts of lines come to at a time, and how far that is above rates at most: at one time, between two times, and above
//! many rates. Whole numbers on the grid of lines: grains and grains a second; times as fractions of seconds.
#![tactic(auto)]

mod bends;
mod greatest;
mod heights;
mod peaks;
mod slow;

pub use bends::bend_of;
pub use greatest::heights_between;
pub use heights::{
    Height, Moment, at_picosecond, comes_before, greater, greatest_ahead, height_of_line,
    jump_time, sooner, times,
};
pub use peaks::{Peaks, peaks_of};
pub use slow::slow_burst;
