//! The normal form of any curve, its periods written out, and how it goes on from a time.
#![tactic(auto)]

mod ahead;
mod cycle;
mod given;
mod laws;
mod least_period;
mod lowest_rank;
mod merging;
mod raw_curve;
mod steadiness;
mod two_periods;
mod unrolling;

pub use ahead::{Stretch, plain_stretch, stretch_at};
pub use laws::{gauge_never_falls, normal_form_is_unique, unrolled_pieces_are_counted};
pub use merging::merged;
pub use raw_curve::{RawCurve, normalise, normalise_on};
pub use steadiness::steady_time;
pub use two_periods::count_before;
pub use unrolling::{pieces_to, unrolled};
