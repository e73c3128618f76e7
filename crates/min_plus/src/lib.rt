//! Functions of time, from rationals to rationals with infinity: the words of min-plus algebra for them, and what holds
//! of every function. There is no code.
//!
//! A law is the contract of a function that does nothing: its body is empty, and its `ensures` is proved.
#![tactic(auto)]

pub mod best_splits;
pub mod closure_laws;

ghost use Rattle.min_plus.specs.BucketBounds.{BucketDeviations};
ghost use Rattle.min_plus.specs.DeviationSigns.{HorizontalsAreNonnegative, VerticalsAreNonnegative};
ghost use Rattle.min_plus.specs.Deviations.{DeviationsAreUnique};

/// Two functions have one horizontal and one vertical deviation.
pub fn deviations_are_unique()
    ensures { DeviationsAreUnique }
{}

/// A horizontal deviation of any two functions is at least 0; and so is a vertical one of a first function that at 0 is
/// at least the second.
pub fn deviations_are_nonnegative()
    ensures horizontal { HorizontalsAreNonnegative }
    ensures vertical { VerticalsAreNonnegative }
{}

/// The delay and the backlog of a token bucket at a rate after a latency, by their formulas.
pub fn bucket_deviations()
    ensures { BucketDeviations }
{}
