//! What two curves do in the first period of their own from when on they repeat, and before that. No memory is taken.

ghost use Rattle.std.specs.Prelude.{◌≡◌, pos, IfSome};
ghost use Rattle.rational.specs.Rational.{ℚ, int};
ghost use Rattle.rational.specs.declared.Extended.TheVariants.{Fin};
ghost use Rattle.upp_curve.specs.Curve.{value_at};
ghost use Rattle.upp_curve.specs.Steady.{steady};
ghost use Rattle.upp_limits.specs.Limits.{Sizes};
ghost use Rattle.upp_normal.specs.Ahead.{HasWindow, IsTimeIn};
ghost use Rattle.curve_call.specs.Levels.{level_curve};
ghost use Rattle.curve_conv.specs.Late.{IsLateCall};
ghost use Rattle.curve_conv.specs.LateBounds.{IsTop, IsDepth, AreCurveExtremes, most_gap};

use crate::rows::Scan;
use curve_call::{Gap, Side, checked_sum, period_or, rise_over, side_gap, zero_level};
use fraction128::Frac;
use rational::Extended;
use upp_curve::Curve;
use upp_normal::stretch_at;

/// What the slower and the faster of two curves do in the first period of their own, and the slower one before that.
#[derive(Clone, Copy)]
pub(crate) struct Extremes {
    /// No value of the slower one in its period is above it.
    pub(crate) slow_top: Frac,
    /// By how much 0 is above the slower one at most, up to the end of its period.
    pub(crate) slow_depth: Frac,
    /// By how much 0 is above the faster one at most, in its period.
    pub(crate) fast_depth: Frac,
    /// The value of the faster one where its period begins.
    pub(crate) fast_start: Frac,
    /// By how much the faster one rises in its period.
    pub(crate) fast_rise: Frac,
}

/// A number that a curve is nowhere above from `from` up to `end`; none where it is infinite somewhere.
pub(crate) fn top_over(c: &Curve, from: Frac, end: Frac) -> Option<Frac>
    requires { (z : Sizes) × HasWindow z end c.now × HasWindow z end (level_curve (int (pos 0))) × IsTimeIn z end from }
    ensures { IfSome result (IsTop (value_at c.now) from end) }
{
    match side_gap(&Side::of(c), &zero_level(), from, end) {
        Gap::Is(top) => Some(top),
        _ => None,
    }
}

/// A number that 0 is nowhere more than above a curve from `from` up to `end`; none where it is finite nowhere.
pub(crate) fn depth_over(c: &Curve, from: Frac, end: Frac) -> Option<Frac>
    requires { (z : Sizes) × HasWindow z end c.now × HasWindow z end (level_curve (int (pos 0))) × IsTimeIn z end from }
    ensures { IfSome result (IsDepth (value_at c.now) from end) }
{
    match side_gap(&zero_level(), &Side::of(c), from, end) {
        Gap::Is(depth) => Some(depth),
        _ => None,
    }
}

/// The value of a curve at a time, where it is a number.
pub fn value_there(c: &Curve, t: Frac) -> Option<Frac>
    requires { (z : Sizes) × (end : ℚ) × HasWindow z end c.now × IsTimeIn z end t }
    ensures { IfSome result (λ v. value_at c.now t ≡ Fin v) }
{
    match stretch_at(c, t).at {
        Extended::Inf => None,
        Extended::Fin(v) => Some(v),
    }
}

/// What both curves do, where the slower one is a number all through its period, and the faster one where its period
/// begins. They repeat from `first` and from `second` on.
pub(crate) fn extremes_of(
    s: &Scan,
    first: Frac,
    second: Frac,
    from: Frac,
    period: Frac,
) -> Option<Extremes>
    requires call { IsLateCall s.now.first.now s.now.second.now from period s.now.end }
    requires first { first ≡ steady s.now.first.now }
    requires second { second ≡ steady s.now.second.now }
    ensures { IfSome result (AreCurveExtremes s.now.first.now s.now.second.now period) }
{
    let slow_own = period_or(s.first, period);
    let fast_own = period_or(s.second, period);
    let slow_end = checked_sum(first, slow_own)?;
    let fast_end = checked_sum(second, fast_own)?;
    let zero = Frac::zero();
    let slow_top = top_over(s.first, first, slow_end)?;
    let slow_depth = depth_over(s.first, zero, slow_end)?;
    let fast_depth = depth_over(s.second, second, fast_end)?;
    let fast_start = value_there(s.second, second)?;
    let fast_rise = rise_over(s.second, fast_own);
    Some(Extremes {
        slow_top,
        slow_depth,
        fast_depth,
        fast_start,
        fast_rise,
    })
}

/// The sum of all five, where it fits.
pub(crate) fn most_gap(e: &Extremes) -> Option<Frac>
    ensures { IfSome result (λ q. q ≡ most_gap e.now) }
{
    let slow = checked_sum(e.slow_top, e.slow_depth)?;
    let deep = checked_sum(slow, e.fast_depth)?;
    let both = checked_sum(deep, e.fast_start)?;
    let all = checked_sum(both, e.fast_rise)?;
    Some(all)
}
