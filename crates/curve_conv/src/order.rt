//! The number of periods of a convolution, for either order of the rates.

ghost use Rattle.std.specs.Prelude.{ℕ, ◌≡◌, ◌↔◌, IsTrue, MatchOption};
ghost use Rattle.rational.specs.Extended.{◌<ₑ◌};
ghost use Rattle.upp_curve.specs.Steady.{steady, rate};
ghost use Rattle.curve_call.specs.Times.{OneLaterFits};
ghost use Rattle.curve_conv.specs.Late.{IsSlowerAfter, IsSlowerNumber, IsPartsCall};

use crate::number::late_number;
use crate::rows::Scan;
use curve_call::{Side, begin, is_slower};
use fraction128::Frac;
use std::alloc::Global;
use upp_curve::Curve;

/// Whether f is the slower of two curves.
pub fn is_slower_curve(f: &Curve, g: &Curve) -> bool
    ensures { IsTrue result ↔ (rate f.now <ₑ rate g.now) }
{
    is_slower(&Side::of(f), &Side::of(g))
}

/// The least number k of periods after `from` after which, for a period, the convolution of two curves is the part in
/// which the slower one repeats; none where there is no such number, and 0 for curves of one rate. `from` is one
/// common period after the sum of the times from which on the curves repeat, and `end` is a period later. Both
/// curves' numbers up to `end` have the sizes of a gauge below 2^120. Where memory is refused, or the pairs of pieces
/// are many, it is found without any; it may take long then.
pub fn late_periods(
    alloc: Global,
    f: &Curve,
    g: &Curve,
    from: Frac,
    period: Frac,
    end: Frac,
) -> Option<u128>
    requires { IsPartsCall f.now g.now from period end }
    ensures { MatchOption result ((k : ℕ) → ¬ (IsSlowerAfter f.now g.now from period k))
        (IsSlowerNumber f.now g.now from period) }
{
    let first = begin(f);
    let second = begin(g);
    if is_slower_curve(f, g) {
        let s = Scan {
            first: f,
            second: g,
            end,
        };
        return late_number(alloc, &s, first, second, from, period);
    }
    if is_slower_curve(g, f) {
        let s = Scan {
            first: g,
            second: f,
            end,
        };
        return late_number(alloc, &s, second, first, from, period);
    }
    Some(0)
}
