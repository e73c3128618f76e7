//! Between which numbers the least number of periods is, from few numbers of each curve.

ghost use Rattle.std.specs.Prelude.{ℕ, ◌≡◌, ◌≤◌, pos, IfSome};
ghost use Rattle.rational.specs.Rational.{ℚ, int, ◌+ℚ◌, ◌-ℚ◌, ◌<ℚ◌};
ghost use Rattle.rational.specs.Extended.{◌<ₑ◌};
ghost use Rattle.upp_curve.specs.Curve.{SpecCurve, value_at};
ghost use Rattle.upp_curve.specs.Steady.{rate, rise_over};
ghost use Rattle.upp_limits.specs.Periods.{periods_after};
ghost use Rattle.upp_limits.specs.Limits.{Sizes};
ghost use Rattle.upp_limits.specs.Windows.{IsBelowFor, IsSlowerBelow};
ghost use Rattle.upp_normal.specs.Ahead.{HasWindow, IsTimeIn, AnswerValue};
ghost use Rattle.curve_call.specs.Levels.{level_curve};
ghost use Rattle.curve_call.specs.Gaps.{IsLargest};
ghost use Rattle.curve_call.specs.GapSteps.{gap_of, IsGapValue, GapStands};
ghost use Rattle.curve_call.specs.Compared.{AreCompared, IsLookedAt};
ghost use Rattle.curve_call.specs.Bounds.{AreBounds, IsMost, OwnWindow, own_or};

use crate::gaps::{Gap, gap_of, side_gap};
use crate::least::{is_slower, lead_over, least_times, rise_of};
use crate::sides::Side;
use fraction128::{Frac, sum};
use upp_curve::Curve;

/// Two numbers that a third one is between, or equal to.
#[derive(Debug, Clone, Copy)]
pub struct Bounds {
    /// The lower one.
    pub low: u128,
    /// The upper one.
    pub high: u128,
}

/// The level 0.
pub fn zero_level<'a>() -> Side<'a>
    ensures { result ≡ level_curve (int (pos 0)) }
{
    Side::level(Frac::zero())
}

/// Where the period of its own ends that begins at `from`.
fn own_end(c: &Side, from: Frac, period: Frac) -> Frac
    requires { (z : Sizes) × IsLookedAt z from period c.now }
    ensures end { result ≡ from +ℚ own_or period c.now }
    ensures windows { (z : Sizes) (zero : SpecCurve) → IsLookedAt z from period c.now → zero ≡ level_curve (int (pos 0))
        → HasWindow z result c.now × HasWindow z result zero × IsTimeIn z result from }
{
    sum(from, c.own_period(period))
}

/// By how much a curve is above 0 in one period of its own; none where it is infinite in it.
fn top_over(c: &Side, from: Frac, period: Frac) -> Option<Frac>
    requires { (z : Sizes) × IsLookedAt z from period c.now }
    ensures largest { IfSome result
        (IsLargest (OwnWindow from period c.now) (value_at c.now) (value_at (level_curve (int (pos 0))))) }
    ensures sizes { IfSome result (λ q. (z : Sizes) → IsLookedAt z from period c.now → IsGapValue z q) }
{
    let end = own_end(c, from, period);
    match side_gap(c, &zero_level(), from, end) {
        Gap::Is(top) => Some(top),
        _ => None,
    }
}

/// By how much 0 is above a curve in one period of its own; none where it is finite nowhere in it.
fn depth_over(c: &Side, from: Frac, period: Frac) -> Option<Frac>
    requires { (z : Sizes) × IsLookedAt z from period c.now }
    ensures largest { IfSome result
        (IsLargest (OwnWindow from period c.now) (value_at (level_curve (int (pos 0)))) (value_at c.now)) }
    ensures sizes { IfSome result (λ q. (z : Sizes) → IsLookedAt z from period c.now → IsGapValue z q) }
{
    let end = own_end(c, from, period);
    match side_gap(&zero_level(), c, from, end) {
        Gap::Is(depth) => Some(depth),
        _ => None,
    }
}

/// A number that the slower curve is nowhere more than above the faster one; none where the slower falls in the long
/// run or is infinite in its period, or the faster is finite nowhere.
fn most_over(slow: &Side, fast: &Side, from: Frac, period: Frac) -> Option<Frac>
    requires slower { rate slow.now <ₑ rate fast.now }
    requires window { (z : Sizes) × AreCompared z from period slow.now fast.now }
    ensures { IfSome result (IsMost from period slow.now fast.now) }
{
    if is_slower(slow, &zero_level()) {
        return None;
    }
    let top = top_over(slow, from, period)?;
    let depth = depth_over(fast, from, period)?;
    let rise = rise_of(fast, fast.own_period(period));
    Some(sum(sum(top, depth), rise))
}

/// By how much f is above g at a time.
fn gap_at(f: &Side, g: &Side, t: Frac) -> Gap
    requires { (z : Sizes) × (end : ℚ) × HasWindow z end f.now × HasWindow z end g.now × IsTimeIn z end t }
    ensures gap { result ≡ gap_of (value_at f.now t) (value_at g.now t) }
    ensures sizes { (z : Sizes) (end : ℚ) → HasWindow z end f.now → HasWindow z end g.now → IsTimeIn z end t
        → GapStands z result }
{
    let left = f.stretch(t);
    let right = g.stretch(t);
    gap_of(left.at, right.at)
}

/// A number of periods below which the slower curve is above the faster one where the periods begin.
fn low_over(slow: &Side, fast: &Side, from: Frac, period: Frac, lead: Frac) -> u128
    requires window { (z : Sizes) × AreCompared z from period slow.now fast.now × AnswerValue z 6 lead }
    requires lead { lead ≡ rise_over fast.now period -ℚ rise_over slow.now period }
    requires some { int (pos 0) <ℚ lead }
    ensures { (k : ℕ) → IsBelowFor (value_at slow.now) (value_at fast.now) (periods_after from k period) period
        → result ≤ k }
{
    match gap_at(slow, fast, from) {
        Gap::Is(gap) => least_times(gap, lead),
        _ => 0,
    }
}

/// Bounds of what `least_below` looks for, from one period of each curve by itself: none where the slower falls in the
/// long run or is infinite in its period, or the faster is finite nowhere. No memory is taken and nothing is unrolled.
pub fn bounds_below(slow: &Side, fast: &Side, from: Frac, period: Frac) -> Option<Bounds>
    requires slower { rate slow.now <ₑ rate fast.now }
    requires window { (z : Sizes) × AreCompared z from period slow.now fast.now }
    ensures { IfSome result
        (AreBounds (λ k. IsBelowFor (value_at slow.now) (value_at fast.now) (periods_after from k period) period)) }
{
    let most = most_over(slow, fast, from, period)?;
    let lead = lead_over(slow, fast, from, period);
    Some(Bounds {
        low: low_over(slow, fast, from, period, lead),
        high: least_times(most, lead),
    })
}

/// Bounds of what `side_periods` looks for, as `bounds_below`; 0 and 0 for curves of one rate.
pub fn side_bounds(f: &Side, g: &Side, from: Frac, period: Frac) -> Option<Bounds>
    requires { (z : Sizes) × AreCompared z from period f.now g.now }
    ensures { IfSome result
        (AreBounds (λ k. IsSlowerBelow (value_at f.now) (value_at g.now) (rate f.now) (rate g.now)
        (periods_after from k period) period)) }
{
    if is_slower(f, g) {
        return bounds_below(f, g, from, period);
    }
    if is_slower(g, f) {
        return bounds_below(g, f, from, period);
    }
    Some(Bounds { low: 0, high: 0 })
}

/// Bounds of what `least_periods` looks for, as `side_bounds`.
pub fn period_bounds(f: &Curve, g: &Curve, from: Frac, period: Frac) -> Option<Bounds>
    requires { (z : Sizes) × AreCompared z from period f.now g.now }
    ensures { IfSome result
        (AreBounds (λ k. IsSlowerBelow (value_at f.now) (value_at g.now) (rate f.now) (rate g.now)
        (periods_after from k period) period)) }
{
    side_bounds(&Side::of(f), &Side::of(g), from, period)
}
