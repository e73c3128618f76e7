//! Lines over fractions: their value at a time, where two of them meet, and the lower of two on an interval. Elements
//! of curves, which are points and open segments, and their convolution. How pieces are read at a time.
//! Nothing here takes memory; a step that is too wide is named.

mod convolution;
mod cut;
mod element;
pub mod element_laws;
mod line;
mod reading;
mod short_line;

pub use convolution::element_conv;
pub use cut::{Cut, element_min, is_before};
pub use element::{Element, Joined, start_of};
pub use line::{Line, Piece, cross, value};
pub use reading::{line_at, line_value, next_start, piece_at, piece_value, read};
