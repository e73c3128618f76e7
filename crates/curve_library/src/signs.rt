//! On which side of 0 a number lies.

ghost use Rattle.std.specs.Prelude.{◌↔◌, IsTrue};
ghost use Rattle.rational.specs.Rational.{◌<ℚ◌};
ghost use Rattle.min_plus.specs.Functions.{zero_q};

use fraction128::{Frac, is_less};

/// Whether it is below 0.
pub(crate) fn is_negative(x: Frac) -> bool
    ensures { IsTrue result ↔ (x <ℚ zero_q) }
{
    is_less(x, Frac::zero())
}

/// Whether it is above 0.
pub(crate) fn is_positive(x: Frac) -> bool
    ensures { IsTrue result ↔ (zero_q <ℚ x) }
{
    is_negative(x.negated())
}
