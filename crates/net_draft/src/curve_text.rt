//! Curves as a file writes them.

use curve_library::{PieceText, TailText, UseAs};
use fraction128::Frac;

/// A curve as a file writes it.
#[derive(Drop)]
pub enum CurveText {
    /// A token bucket, of an arrival.
    Bucket {
        burst: Frac,
        rate: Frac,
    },
    /// A packet each period, each up to the jitter early: of an arrival. The packet has so many bits.
    Stair {
        packet: u32,
        period: Frac,
        jitter: Frac,
    },
    /// A server's rate after a latency.
    RateLatency {
        rate: Frac,
        latency: Frac,
    },
    /// A server's rate in the last slot of each cycle.
    Gate {
        rate: Frac,
        cycle: Frac,
        slot: Frac,
    },
    /// Pieces, of an arrival or of a service.
    Listed {
        pieces: Vec<PieceText>,
        tail: Option<TailText>,
        use_as: UseAs,
    },
}
