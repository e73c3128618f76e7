//! The curves that a network's file names: a token bucket, a stair of packets, a rate after a latency, a gate, and
//! pieces that are listed one by one.
#![tactic(auto)]

mod buckets;
mod fault;
mod formed;
mod gates;
mod latencies;
mod listing;
mod shares;
mod signs;
mod stairs;
mod text_limits;
mod text_pieces;
mod texts;

pub use buckets::bucket;
pub use fault::CurveFault;
pub use gates::gate;
pub use latencies::rate_latency;
pub use listing::listed;
pub use stairs::stair;
pub use texts::{PieceText, TailText, UseAs};
pub use upp_limits::OverLimit;
