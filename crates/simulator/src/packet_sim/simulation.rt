//! The state of a simulation between two steps.

use queue_sched::index_links::Links;
use run_laws::Step;
use sim_servers::Station;
use sim_servers::sim_states::Arrival;

/// The state of a simulation between two steps.
#[derive(Drop)]
pub(crate) struct Simulation {
    pub(crate) stations: Vec<Station>,
    /// For each server, the packets that left it and are on its link.
    pub(crate) links: Links,
    /// For each packet of the trace, where it goes; it counts only while the packet is on a link.
    pub(crate) arrivals: Vec<Arrival>,
    /// How many packets have entered.
    pub(crate) entered: u32,
    pub(crate) steps: Vec<Step>,
}
