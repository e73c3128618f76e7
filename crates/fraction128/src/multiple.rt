//! The least common multiple of fractions.

ghost use Rattle.std.specs.Prelude.{◌≡◌, ◌<◌, ◌/◌, ◌^◌, pos, MatchOption};
ghost use Rattle.rational.specs.Gcd.{gcd};
ghost use Rattle.rational.specs.Gauge.{lcm};
ghost use Rattle.rational.specs.Rational.{over};
ghost use Rattle.rational.specs.Ratio.{IsSmall};
ghost use Rattle.fraction128.specs.Parts.{AreLowest};

use crate::division::{gcd_of, quotient};
use crate::fraction::Frac;
use crate::products::product;

/// The least number above 0 that is a whole multiple of both p / q and r / s, which are in lowest terms:
/// the least common multiple of the numerators over the greatest common divisor of the denominators.
pub(crate) fn multiple_of(p: u128, q: u128, r: u128, s: u128) -> Option<Frac>
    requires left { AreLowest (pos p) q }
    requires right { AreLowest (pos r) s }
    requires left_some { 0 < p }
    requires right_some { 0 < r }
    ensures { let exact = over (pos (lcm p r)) (gcd q s) in
        MatchOption result (¬ (IsSmall exact)) (λ f. (f ≡ exact) × IsSmall exact) }
{
    let top = product(quotient(p, gcd_of(p, r)), r)?;
    Some(Frac::from_lowest(top as i128, gcd_of(q, s)))
}
