//! Whether one curve is nowhere above another.

ghost use Rattle.std.specs.Prelude.{◌↔◌, IsTrue};
ghost use Rattle.rational.specs.Rational.{ℚ, ◌≤ℚ◌};
ghost use Rattle.rational.specs.Extended.{◌≤ₑ◌};
ghost use Rattle.min_plus.specs.Functions.{zero_q};
ghost use Rattle.min_plus.specs.Pointwise.{IsMinimum};
ghost use Rattle.upp_curve.specs.Curve.{SpecCurve, value_at};

use upp_curve::{Curve, equal};

/// Whether a curve is nowhere above another one, by the lesser of the two at each time. It compares what is stored and
/// computes nothing.
pub fn is_below(f: &Curve, lesser: &Curve) -> bool
    ensures { (g : SpecCurve)
        → ((t : ℚ) → zero_q ≤ℚ t → IsMinimum (value_at f.now) (value_at g) t (value_at lesser.now t))
        → IsTrue result ↔ ((t : ℚ) → zero_q ≤ℚ t → value_at f.now t ≤ₑ value_at g t) }
{
    equal(lesser, f)
}
