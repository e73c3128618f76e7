//! From which number of periods on a convolution is the part in which the slower curve repeats.

ghost use Rattle.std.specs.Prelude.{ℕ, ◌≡◌, ◌≢◌, MatchOption};
ghost use Rattle.rational.specs.Rational.{ℚ, ◌-ℚ◌};
ghost use Rattle.upp_curve.specs.Steady.{steady, rise_over};
ghost use Rattle.curve_conv.specs.Late.{IsLateAfter, IsLateNumber, IsLateCall};

use crate::gaps::part_gap;
use crate::made::made_part;
use crate::rows::Scan;
use curve_call::{Gap, least_times, rise_over};
use fraction128::{Frac, difference, is_less};
use std::alloc::Global;

/// By how much the faster curve rises more than the slower over a period.
pub(crate) fn lead(s: &Scan, from: Frac, period: Frac) -> Frac
    requires { IsLateCall s.now.first.now s.now.second.now from period s.now.end }
    ensures { result ≡ rise_over s.now.second.now period -ℚ rise_over s.now.first.now period }
{
    difference(rise_over(s.second, period), rise_over(s.first, period))
}

/// The least number k of periods after `from` after which, for a period, no split of which the first side is before
/// the time `first` from which on the slower curve repeats makes less than those of which it is later; none where
/// there is no such number. `second` is the time from which on the faster curve repeats. It is 0 at once where
/// `first` is 0. Else both parts are made in memory, where there are few enough pairs of pieces; where there are
/// more, or memory is refused, they are scanned.
pub(crate) fn late_number(
    alloc: Global,
    s: &Scan,
    first: Frac,
    second: Frac,
    from: Frac,
    period: Frac,
) -> Option<u128>
    requires call { IsLateCall s.now.first.now s.now.second.now from period s.now.end }
    requires first { first ≡ steady s.now.first.now }
    requires second { second ≡ steady s.now.second.now }
    ensures { MatchOption result ((k : ℕ) → ¬ (IsLateAfter s.now.first.now s.now.second.now from period k))
        (IsLateNumber s.now.first.now s.now.second.now from period) }
{
    let zero = Frac::zero();
    if !is_less(zero, first) {
        return Some(0);
    }
    let until = Some(first);
    let made_late = made_part(alloc, s, first, &None, zero);
    let made_soon = made_part(alloc, s, zero, &until, second);
    match part_gap(s, &made_late, &made_soon, first, second, from) {
        Gap::NoTime => Some(0),
        Gap::Never => None,
        Gap::Is(gap) => Some(least_times(gap, lead(s, from, period))),
    }
}
