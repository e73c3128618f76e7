//! Operators whose answer at a time is made of all times on one side of it: the running supremum and the running infimum of a
//! curve, and what first in, first out leaves of a service. The operators that look at one time are handed on.

mod behind;
mod bend;
mod between;
mod infimum;
mod infimum_curve;
mod leftover;
mod lowest;
mod moved;
mod numbers;
mod parts;
mod periods;
mod stretch;
mod supremum;
mod supremum_curve;

pub use crate::pointwise::{
    infinite_curve, left_window, max, min, pos_diff, pos_minus, scale, shift, sum,
};
pub use bend::Bend;
pub use infimum::infimum_scan;
pub use infimum_curve::{front_before, run_inf};
pub use leftover::fifo_left;
pub use periods::supremum_periods;
pub use supremum::supremum_scan;
pub use supremum_curve::run_sup;
