//! Laws of the kinds of curve. Each is the contract of a function that does nothing.

ghost use Rattle.upp_curve.specs.KindLaws.{KindsHaveTheirValues, KindsAreNormal};

/// The curve of each kind has its formula's value at every time from 0 on, and is in normal form.
pub fn kinds_are_curves()
    ensures values { KindsHaveTheirValues }
    ensures normal { KindsAreNormal }
{}
