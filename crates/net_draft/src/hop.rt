//! Hops of a path.

/// The number of a server and of one of its queues.
#[derive(Clone, Copy)]
pub struct Hop {
    pub server: u32,
    pub queue: u32,
}
