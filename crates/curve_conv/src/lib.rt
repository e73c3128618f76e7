//! The parts of a convolution of two curves, before and from the time on from which they repeat, and from which
//! number of periods on the convolution is that of the parts that rise the least.
//! The convolution of two curves.
#![tactic(auto)]

mod begun;
mod bounds;
mod elements;
mod extremes;
mod gaps;
mod lower;
mod made;
mod moved;
mod number;
mod operator;
mod order;
mod parts;
mod pieces;
mod rises;
mod rows;

pub use bounds::{late_bounds, periods_over};
pub use curve_call::checked_sum;
pub use extremes::value_there;
pub use operator::{convolve, convolve_frame};
pub use order::{is_slower_curve, late_periods};
