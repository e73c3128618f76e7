//! What arrives at the queues of a port as stairs.

use arrival_stairs::Bundle;

/// What arrives at a queue.
#[derive(Drop)]
pub struct StairArrivals {
    /// Its bundles; none where nothing bounds them.
    pub bundles: Option<Vec<Bundle>>,
    /// The longest frame of its links, in bits; 0 where there is none.
    pub longest: u64,
}
