//! Whether a simulation is too wide: its simulation gauge, from a network and a trace.

mod horizons;
mod loads;
mod named;
mod spans;
mod wide;

pub use wide::is_too_wide;
