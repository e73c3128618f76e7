//! Curves: functions of time made of finitely many pieces and a tail, with their value at every fraction and their
//! shape.
#![tactic(auto)]

pub mod affine_segment;
mod curve;
pub mod fitting;
mod jumps;
mod kind_laws;
mod reading;
pub mod same;
mod shape;
mod worked_laws;

pub use curve::{Curve, Tail, equal};
pub use jumps::is_continuous;
pub use kind_laws::kinds_are_curves;
pub use worked_laws::{worked_kinds, worked_operators, worked_shifts, worked_stairs};
