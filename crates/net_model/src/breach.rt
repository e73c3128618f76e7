//! What a run breaks.

use fraction128::Frac;

/// Something that a run breaks. Packets are numbered within their flow, from 0, in the order in which they enter; flows
/// and servers are those of a network, by their numbers. (Own choice.)
#[derive(Clone, Copy)]
pub enum Breach {
    /// A packet is longer than its flow allows.
    Size { flow: u32, packet: u32 },
    /// The packets from the first to the last have more bits than the flow's arrival curve at the time between their
    /// entries.
    Arrival { flow: u32, first: u32, last: u32 },
    /// From `start` to `end` the server has work all the time, and does less than its service curve at that length.
    Service { server: u32, start: Frac, end: Frac },
}
