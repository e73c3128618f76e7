//! The limits of a file. (Own choice.)

pub(crate) const MOST_SERVERS: usize = 64;

pub(crate) const MOST_FLOWS: usize = 256;

pub(crate) const MOST_HOPS: usize = 16;

pub(crate) const MOST_QUEUES: usize = 8;

pub(crate) const MOST_PIECES: usize = 64;
/// The most bits of a packet and of a quantum.
pub(crate) const LONGEST: u32 = 1 << 24;
