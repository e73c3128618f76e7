//! Workloads.

use net_model::{Network, Trace};

/// A network, and a trace of it.
#[derive(Drop)]
pub struct Workload {
    pub net: Network,
    pub trace: Trace,
}
