//! How far one curve lies above another, and how long it lies behind it: the vertical and the horizontal deviation,
//! without unrolling either curve. And whether it is nowhere above it, by the lesser of the two.
#![tactic(auto)]

mod below;
mod cells;
mod guesses;
mod horizontals;
mod known;
mod parts;
mod search;
mod verticals;
mod walks;

pub use below::is_below;
pub use horizontals::horizontal;
pub use verticals::vertical;
