//! Whether a recorded run is too wide to be checked: its gauge, from a network and the run.

mod named;
mod times;
mod wide;

pub use wide::is_too_wide;
