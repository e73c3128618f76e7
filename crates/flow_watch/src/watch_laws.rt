//! Breaches of a run: where it breaks what it is taken to keep, the sizes and the arrival curves of its flows and the
//! service curves of its servers; and the laws by which finitely many windows of time tell it.
//!
//! A law is the contract of a function that does nothing: its body is empty, and its `ensures` is proved.

mod entering;
mod laws;
mod mark;
mod point;

pub use entering::Entering;
pub use laws::{
    breaches_tell, breaks_are_starts, first_is_one, keys_fit, marks_fit, pairs_suffice,
    reach_suffices, segments_tell, stretches_are_apart, stretches_begin, turns_are_times,
    turns_suffice, turns_suffice_within, watch_points_suffice,
};
pub use mark::{Mark, Rule};
pub use point::{Point, Segment};
