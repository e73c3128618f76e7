//! Links as stairs of frames with a gap and a jitter, and the delay and the backlog of a queue to which they come, by these
//! stairs and by their lines where these are less. Whole numbers on the grid of lines: picoseconds, grains and grains a
//! second.
#![tactic(auto)]

mod counts;
mod excess;
mod horizon;
mod jumps;
mod lows;
mod queues;
mod stairs;
mod stays;
mod turns;
mod walk;
mod walks;

pub use excess::{bundles_below_lines, excess_is_a_bound, excess_is_one};
pub use queues::{least_of_both_is_kept, stair_queue};
pub use stairs::{Bundle, Stair};
