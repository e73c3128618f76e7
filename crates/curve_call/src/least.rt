//! From which number of periods on the slower of two curves is nowhere above the faster.

ghost use Rattle.std.specs.Prelude.{ℕ, ◌≡◌, ◌≢◌, ◌↔◌, IsTrue, pos, MatchOption};
ghost use Rattle.rational.specs.Rational.{ℚ, int, ◌+ℚ◌, ◌-ℚ◌, ◌*ℚ◌, ◌/ℚ◌, ◌≤ℚ◌, ◌<ℚ◌, neg_ℚ};
ghost use Rattle.rational.specs.Ratio.{IsSmall, SumFits};
ghost use Rattle.rational.specs.Extended.{◌<ₑ◌};
ghost use Rattle.upp_curve.specs.Curve.{value_at};
ghost use Rattle.upp_curve.specs.Steady.{rate, rise_over};
ghost use Rattle.upp_limits.specs.Periods.{periods_after};
ghost use Rattle.upp_limits.specs.Limits.{Sizes};
ghost use Rattle.upp_limits.specs.Windows.{IsBelowFor, IsLeast};
ghost use Rattle.curve_call.specs.Gaps.{InWindow, IsLargest};
ghost use Rattle.curve_call.specs.GapSteps.{IsGapValue};
ghost use Rattle.upp_normal.specs.Ahead.{AnswerValue};
ghost use Rattle.curve_call.specs.Compared.{AreCompared, IsBelowLate, IsEnough};
ghost use Rattle.curve_call.specs.Bounds.{IsFiniteLate};

use crate::gaps::{Gap, gap_until};
use crate::sides::Side;
use fraction128::{Frac, difference, is_less, product, quotient, sum};
use rational::Extended;
use upp_curve::Curve;

/// By how much a curve rises over d.
pub(crate) fn rise_of(c: &Side, d: Frac) -> Frac
    requires { IsSmall (rise_over c.now d) }
    ensures { result ≡ rise_over c.now d }
{
    match c.rate() {
        Extended::Inf => Frac::zero(),
        Extended::Fin(rate) => product(rate, d),
    }
}

/// By how much more the faster curve rises over the period: above 0.
pub(crate) fn lead_over(slow: &Side, fast: &Side, from: Frac, period: Frac) -> Frac
    requires slower { rate slow.now <ₑ rate fast.now }
    requires window { (z : Sizes) × AreCompared z from period slow.now fast.now }
    requires first { IsFiniteLate from slow.now }
    requires second { IsFiniteLate from fast.now }
    ensures value { result ≡ rise_over fast.now period -ℚ rise_over slow.now period }
    ensures some { int (pos 0) <ℚ result }
    ensures sizes { (z : Sizes) → AreCompared z from period slow.now fast.now → AnswerValue z 6 result }
{
    difference(rise_of(fast, period), rise_of(slow, period))
}

/// The least number k with gap at most k times the lead.
pub fn least_times(gap: Frac, lead: Frac) -> u128
    requires some { int (pos 0) <ℚ lead }
    requires fits { IsSmall (gap /ℚ lead) }
    ensures { IsLeast (λ k. gap ≤ℚ int (pos k) *ℚ lead) result }
{
    if !is_less(Frac::zero(), gap) {
        return 0;
    }
    quotient(gap, lead).size_up()
}

/// The least number k with gap at most k times as much as `fast` rises more than `slow` over a period.
fn least_over(slow: &Side, fast: &Side, gap: Frac, from: Frac, period: Frac) -> u128
    requires slower { rate slow.now <ₑ rate fast.now }
    requires window { (z : Sizes) × AreCompared z from period slow.now fast.now × IsGapValue z gap }
    requires gap { (end : ℚ) × IsLargest (InWindow from end) (value_at slow.now) (value_at fast.now) gap }
    ensures { IsLeast (λ k. gap ≤ℚ int (pos k) *ℚ (rise_over fast.now period -ℚ rise_over slow.now period)) result }
{
    least_times(gap, lead_over(slow, fast, from, period))
}

/// As `least_below`, where the slower curve is nowhere above the faster one from `soon` on, at the times that it looks at:
/// those from then on are left out.
pub fn least_below_until(
    slow: &Side,
    fast: &Side,
    from: Frac,
    period: Frac,
    soon: Frac,
) -> Option<u128>
    requires slower { rate slow.now <ₑ rate fast.now }
    requires window { (z : Sizes) × AreCompared z from period slow.now fast.now }
    requires below { IsBelowLate slow.now fast.now from period soon }
    ensures { MatchOption result
        ((k : ℕ) → ¬ (IsBelowFor (value_at slow.now) (value_at fast.now) (periods_after from k period) period))
        (IsLeast (λ k. IsBelowFor (value_at slow.now) (value_at fast.now) (periods_after from k period) period)) }
{
    let end = sum(from, period);
    match gap_until(slow, fast, from, end, soon) {
        Gap::NoTime => Some(0),
        Gap::Never => None,
        Gap::Is(gap) => Some(least_over(slow, fast, gap, from, period)),
    }
}

/// The least number k of periods after which, for a period, the slower curve is nowhere above the faster one; none
/// where there is no such number. Both repeat from `from` on with the period, and their numbers below from + period
/// have the sizes z of a gauge below 2^120. No memory is taken and nothing is unrolled.
pub fn least_below(slow: &Side, fast: &Side, from: Frac, period: Frac) -> Option<u128>
    requires slower { rate slow.now <ₑ rate fast.now }
    requires window { (z : Sizes) × AreCompared z from period slow.now fast.now }
    ensures { MatchOption result
        ((k : ℕ) → ¬ (IsBelowFor (value_at slow.now) (value_at fast.now) (periods_after from k period) period))
        (IsLeast (λ k. IsBelowFor (value_at slow.now) (value_at fast.now) (periods_after from k period) period)) }
{
    least_below_until(slow, fast, from, period, sum(from, period))
}

/// Whether f is the slower one: the long-run rate of f is less than that of g.
pub fn is_slower(f: &Side, g: &Side) -> bool
    ensures { IsTrue result ↔ (rate f.now <ₑ rate g.now) }
{
    match f.rate() {
        Extended::Inf => false,
        Extended::Fin(x) => match g.rate() {
            Extended::Inf => true,
            Extended::Fin(y) => is_less(x, y),
        },
    }
}

/// As `least_periods` of curves, of which either may be a level.
pub fn side_periods(f: &Side, g: &Side, from: Frac, period: Frac) -> Option<u128>
    requires { (z : Sizes) × AreCompared z from period f.now g.now }
    ensures { MatchOption result
        ((k : ℕ) → ¬ (IsEnough f.now g.now from period k)) (IsLeast (IsEnough f.now g.now from period)) }
{
    if is_slower(f, g) {
        return least_below(f, g, from, period);
    }
    if is_slower(g, f) {
        return least_below(g, f, from, period);
    }
    Some(0)
}

/// The least number k of periods after which, for a period, the slower of two curves is nowhere above the faster;
/// none where there is no such number, and 0 for curves of one rate. Where `from` is the time from which on both
/// repeat and `period` their common period, it is the number of periods that their minimum needs, and their maximum
/// and positive difference. Both repeat from `from` on with the period, and their numbers below from + period have
/// the sizes z of a gauge below 2^120. No memory is taken and nothing is unrolled.
pub fn least_periods(f: &Curve, g: &Curve, from: Frac, period: Frac) -> Option<u128>
    requires { (z : Sizes) × AreCompared z from period f.now g.now }
    ensures { MatchOption result
        ((k : ℕ) → ¬ (IsEnough f.now g.now from period k)) (IsLeast (IsEnough f.now g.now from period)) }
{
    side_periods(&Side::of(f), &Side::of(g), from, period)
}
