//! Edits of networks, as they are asked for.

use fraction128::Frac;

/// One hop of a path: the name of a server, and a queue there, from 0.
#[derive(Drop)]
pub struct PathEntry {
    pub server: String,
    pub queue: u32,
}

/// One change of a network. Numbers stand as they were asked for, of any sign and size: which of them a network takes
/// is decided where the edit is made. Names are bytes of any length. (Own choice.)
#[derive(Drop)]
pub enum Edit {
    /// A server's rate, in bits a unit of time. The service curve of a latency or gate server follows.
    Rate(String, Frac),
    /// A server's latency, in units of time.
    Latency(String, Frac),
    /// How long a packet that leaves a server is on the way, in units of time.
    Link(String, Frac),
    /// The quantum of a server's queue: the queue's number, and bits.
    Quantum(String, i64, i64),
    /// A bucket as a flow's arrival curve: burst in bits, rate in bits a unit of time.
    Bucket(String, Frac, Frac),
    /// A stair of the flow's packet as its arrival curve: period and jitter, in units of time.
    Stair(String, Frac, Frac),
    /// A flow's longest packet, in bits. Its arrival curve stays.
    Packet(String, i64),
    /// A flow's path, hop by hop.
    Route(String, Vec<PathEntry>),
    /// One flow more, with a bucket: name, longest packet, burst, rate and path.
    Add(String, i64, Frac, Frac, Vec<PathEntry>),
    /// One flow less; its number is not given again.
    Drop(String),
    /// Back to the network before the last edit that was taken and is not undone.
    Undo,
}

/// What a taken edit did: how many cells of the analysis it touched.
#[derive(Clone, Copy)]
pub struct Done {
    pub cells: u32,
}
