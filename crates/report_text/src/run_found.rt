//! What a report on a run tells.

use fraction128::Frac;
use net_model::Breach;

/// What a simulation of a network found.
#[derive(Drop)]
pub struct RunFound {
    /// How many packets entered.
    pub packets: u32,
    /// When the run ends, in units of time.
    pub end: Frac,
    /// The worst delay of each flow from end to end, by its number, in units of time.
    pub worst: Vec<Frac>,
    /// The greatest backlog of each queue, by its server's number and its own, in bits.
    pub peaks: Vec<Vec<u64>>,
    /// What the run breaks first.
    pub breach: Option<Breach>,
}
