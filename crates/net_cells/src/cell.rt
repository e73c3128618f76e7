//! Cells and their kinds.

/// What a cell says. First those at a server, in the order in which they are taken there, then those of a whole path.
#[derive(Debug, Clone, Copy, PartialEq, Eq)]
pub enum Kind {
    /// With what curve a flow comes to a hop.
    In,
    /// The sum of the curves of the other flows of that hop's queue.
    Cross,
    /// The sum of the curves of a queue's flows.
    Total,
    /// The sum of the curves of the queues before one, at a priority server.
    Higher,
    /// The curve that serves a queue.
    QueueService,
    /// How far the other flows are from their queue's service.
    Theta,
    /// The curve that serves a flow at a hop.
    Residual,
    /// How long no packet of a queue stays longer.
    QueueDelay,
    /// Above how many bits no queue's backlog is.
    QueueBacklog,
    /// How long no packet of a flow stays longer at a hop.
    HopDelay,
    /// With what curve a flow leaves a hop, by how long it stays there.
    ShiftOut,
    /// With what curve a flow leaves a hop, by how it is served there.
    DeconvOut,
    /// With what curve a flow leaves a hop: the lesser of these.
    Out,
    /// The curve that serves a flow along its path.
    PathService,
    /// The delay along a path, hop by hop.
    Tfa,
    /// The delay along a path, by the service along it.
    Sfa,
    /// The lesser of these.
    Bound,
}

/// The kinds of the cells at a server, in the order in which they are taken there.
pub const SERVER_KINDS: [Kind; 13] = [
    Kind::In,
    Kind::Cross,
    Kind::Total,
    Kind::Higher,
    Kind::QueueService,
    Kind::Theta,
    Kind::Residual,
    Kind::QueueDelay,
    Kind::QueueBacklog,
    Kind::HopDelay,
    Kind::ShiftOut,
    Kind::DeconvOut,
    Kind::Out,
];

/// The kinds of the cells of whole paths, in the order in which they are taken.
pub const PATH_KINDS: [Kind; 4] = [Kind::PathService, Kind::Tfa, Kind::Sfa, Kind::Bound];

/// What a kind has cells for.
#[derive(Debug, Clone, Copy, PartialEq, Eq)]
pub enum Scope {
    /// Each hop of each live flow.
    EachHop,
    /// Each hop of each live flow but its last.
    EachHopButLast,
    /// Each queue of each server.
    EachQueue,
    /// Each queue of each priority server.
    EachPriorityQueue,
    /// Each live flow.
    EachPath,
}

/// A cell. `a` and `b` are, by what its kind has cells for: a flow's number and the place of a hop on its path, from 0;
/// a server's number and a queue there; a flow's number and 0.
#[derive(Debug, Clone, Copy, PartialEq, Eq)]
pub struct Cell {
    pub kind: Kind,
    pub a: u32,
    pub b: u32,
}
