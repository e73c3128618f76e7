//! What a report tells.

use table_cells::Amount;

/// A queue of a port; none where nothing is promised.
#[derive(Clone, Copy)]
pub struct QueueRow<'a> {
    /// The name of the port.
    pub name: &'a str,
    /// The number of the queue, from 0.
    pub queue: u64,
    /// The rates of its links over the rate of the port, in thousandths, rounded up.
    pub load: Option<u128>,
    /// How long a frame stays at most, in picoseconds.
    pub delay: Option<u64>,
    /// How many bits wait at most.
    pub backlog: Option<u64>,
}

/// A branch of a link; none where nothing is promised.
#[derive(Clone, Copy)]
pub struct BranchRow<'a> {
    /// The name of the link.
    pub link: &'a str,
    /// The name of the last port.
    pub port: &'a str,
    /// How long a frame takes at most to the end of the branch, in picoseconds.
    pub bound: Option<u64>,
    /// In microseconds, where it has one.
    pub deadline: Option<Amount>,
}

/// What is told of a network.
#[derive(Drop)]
pub struct Report<'a> {
    /// How many ports it has.
    pub ports: usize,
    /// How many links it has.
    pub links: usize,
    /// Its queues, by ports and queues.
    pub queues: Vec<QueueRow<'a>>,
    /// Its branches, in the order of their rows.
    pub branches: Vec<BranchRow<'a>>,
}
