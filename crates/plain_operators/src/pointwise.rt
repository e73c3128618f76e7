//! Operators on curves whose answer at a time is made of the operands' values at one time: sum, minimum, maximum,
//! positive difference of two, also with a level, multiple and shift.

mod extremes;
mod lattice;
mod leaning;
mod levels;
mod nought;
mod scaling;
mod shifts;
mod straight;
mod sums;

pub use extremes::{max, min, pos_diff};
pub use lattice::Lattice;
pub use levels::pos_minus;
pub use nought::is_nought;
pub use scaling::scale;
pub use shifts::{infinite_curve, left_window, shift};
pub use straight::{Straight, line_curve, small_total, straight_of};
pub use sums::sum;
