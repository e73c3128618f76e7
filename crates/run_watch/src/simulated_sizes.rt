//! The numbers of a simulated run: where the simulation gauge is below 2^120, they are as the search for its first
//! breach needs them.

mod laws;

pub use laws::simulated_runs_have_sizes;
