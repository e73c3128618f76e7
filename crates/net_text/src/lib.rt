//! The reader of files of networks: from the bytes of a file to its network, or to the first fault and its place.
#![tactic(auto)]

mod arrivals;
mod closing;
mod flows;
mod laws;
mod limits;
mod reading;
mod servers;
mod services;

pub use laws::{each_file_says_one_thing, no_fault_is_want_of_memory};
pub use reading::read_network;
