//! The simulator: the routes of packets, what is measured of a run, the run that a trace has, and that of a whole network.
#![tactic(auto)]

mod fault;
pub mod packet_sim;
pub mod run_measures;
pub mod sim_routes;

pub use fault::SimFault;
