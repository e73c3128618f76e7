//! The numbers of a recorded run: where its gauge is below 2^120, they are as a check of the run needs them.

mod laws;

pub use laws::{lawful_runs_have_sizes, recorded_runs_have_delays, recorded_runs_have_numbers};
