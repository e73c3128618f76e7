//! A law of stated runs: servers of kind latency or gate that have no stall keep their service curves in them.

mod laws;

pub use laws::open_servers_keep_their_curves;
