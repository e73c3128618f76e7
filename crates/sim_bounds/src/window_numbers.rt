//! The numbers of a network's curves up to the end of a window, and whether a gauge of gathered numbers is too large.

mod curve_ends;
mod curves;
mod stepping;
mod wide;

pub use curves::{with_arrivals, with_services};
pub use stepping::{minus, over, plus};
pub use wide::is_over;
