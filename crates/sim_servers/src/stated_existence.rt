//! A law of stated runs: an accepted network and a trace of it have one.

mod laws;

pub use laws::stated_runs_exist;
