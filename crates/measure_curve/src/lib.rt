//! The least arrival curve of the packets of a trace, and the least bucket for a rate that the packets keep.
#![tactic(auto)]

mod burst;
mod fault;
mod laws;
mod least;
mod packets;
mod staircase;
mod ticks;

pub use burst::least_burst;
pub use fault::MeasureFault;
pub use laws::{
    kept_curves_are_above, least_arrival_is_one, least_bucket_is_kept, least_in_runs,
    packets_keep_the_curve,
};
pub use least::least_curve;
