//! The windows between packets on a grid of times, and the steps of the most bits of a window by its length.
#![tactic(auto)]

mod steps;
mod windows;

pub use steps::{last_length, put_in_order, steps_of};
pub use windows::{Entry, Window, windows_of};
