//! Packets on links.

use fraction128::Frac;

/// Where a packet on a link goes, and when it is there.
#[derive(Clone, Copy)]
pub struct Arrival {
    /// The number of the server that it reaches.
    pub server: u32,
    pub time: Frac,
}
