//! What a server's curve leaves for a queue, for each discipline, and the packetiser.
#![tactic(auto)]

pub mod calls;
pub mod drr;
pub mod fifo;
pub mod left;
pub mod packetiser;
pub mod priority;
