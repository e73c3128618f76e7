//! The first packet of a flow that is too long, and the first pair of its packets between which too many bits enter.
#![tactic(auto)]

pub mod curve_values;
mod ends;
mod flows;
mod repeats;
mod sliding;
mod stairs;
pub mod step_lines;
pub mod watch_laws;

pub use ends::next_start;
pub use flows::{entries_of, first_crowded, first_too_long};
