//! Workloads: for each number a network of 16 servers and 24 flows, and a trace of it.
#![tactic(auto)]

mod drawn;
mod draws;
pub mod exercise_report;
mod flows;
mod laws;
mod load;
mod making;
mod packets;
mod servers;

pub use drawn::DrawnFlow;
pub use laws::{curves_are_within_limits, traces_hold_what_is_sent, workloads_stand};
pub use load::Workload;
pub use making::workload;
