//! Between which numbers of periods the least one of a convolution in the fold of a closure is. Its curves are 0 at 0, or
//! infinite up to when they repeat, and may be infinite again and again.

ghost use Rattle.std.specs.Prelude.{◌≡◌, ◌⊎◌, ◌+◌, pos, None, IfSome, IsTrue};
ghost use Rattle.rational.specs.Rational.{ℚ, int, ◌+ℚ◌, ◌-ℚ◌, ◌*ℚ◌, ◌≤ℚ◌, ◌<ℚ◌};
ghost use Rattle.upp_curve.specs.Steady.{rise_over};
ghost use Rattle.rational.specs.declared.Extended.TheVariants.{Fin, Inf};
ghost use Rattle.upp_curve.specs.Curve.{value_at};
ghost use Rattle.min_plus.specs.Convolution.{IsSubadditive};
ghost use Rattle.min_plus.specs.Functions.{zero_q};
ghost use Rattle.upp_limits.specs.Limits.{Sizes};
ghost use Rattle.upp_normal.specs.Ahead.{HasWindow, IsTimeIn};
ghost use Rattle.curve_call.specs.Gaps.{InWindow, IsLargest};
ghost use Rattle.curve_call.specs.Levels.{level_curve};
ghost use Rattle.curve_conv.specs.Late.{IsLateCall, IsPartsCall};
ghost use Rattle.curve_conv.specs.LateBounds.{IsLateBounds, IsSlowerBounds};
ghost use Rattle.subadd_closure.specs.QuickBounds.{BeginsLate, IsFloor, IsLevel};
ghost use Rattle.subadd_closure.specs.Thinned.{MayThin};

use crate::ordered::order_bounds;
use curve_call::{Bounds, Gap, Side, begin, is_slower, period_or, rise_over, side_gap, zero_level};
use curve_conv::{checked_sum, is_slower_curve, periods_over, value_there};
use fraction128::{Frac, difference, is_less};
use rational::Extended;
use upp_curve::affine_segment::Piece;
use upp_curve::{Curve, Tail};

// ---- few numbers of a curve
// The least number that a curve is nowhere above from `from` up to `end`; none where it is infinite somewhere.
fn top_over(c: &Curve, from: Frac, end: Frac) -> Option<Frac>
    requires { (z : Sizes) × HasWindow z end c.now × HasWindow z end (level_curve (int (pos 0))) × IsTimeIn z end from }
    ensures { IfSome result
        (λ q. IsLargest (InWindow from end) (value_at c.now) (value_at (level_curve (int (pos 0)))) q) }
{
    match side_gap(&Side::of(c), &zero_level(), from, end) {
        Gap::Is(top) => Some(top),
        _ => None,
    }
}

// The least number that 0 is nowhere more than above a curve from `from` up to `end`; none where it is finite nowhere.
fn depth_over(c: &Curve, from: Frac, end: Frac) -> Option<Frac>
    requires { (z : Sizes) × HasWindow z end c.now × HasWindow z end (level_curve (int (pos 0))) × IsTimeIn z end from }
    ensures { IfSome result
        (λ q. IsLargest (InWindow from end) (value_at (level_curve (int (pos 0)))) (value_at c.now) q) }
{
    match side_gap(&zero_level(), &Side::of(c), from, end) {
        Gap::Is(depth) => Some(depth),
        _ => None,
    }
}

// By how much a line rises up to t, of which the rise over a period is given.
fn line_rise(rise: Frac, period: Frac, t: Frac) -> Option<Frac>
    requires { int (pos 0) <ℚ period }
    ensures { IfSome result (λ q. (r : ℚ) → r *ℚ period ≡ rise → q ≡ r *ℚ t) }
{
    let Ok(rate) = Frac::div(rise, period) else {
        return None;
    };
    match Frac::mul(rate, t) {
        Ok(gain) => Some(gain),
        Err(_) => None,
    }
}

// Whether a piece has no value.
fn is_nothing(p: &Piece) -> bool
    ensures { IsTrue result → (p.now.at ≡ Inf) × (p.now.line ≡ None) }
{
    match p.at {
        Extended::Fin(_) => false,
        Extended::Inf => p.line.is_none(),
    }
}

// Whether a curve is infinite up to when it repeats: its first piece has no value, and no other starts before the rank
// of a periodic tail.
fn begins_late(c: &Curve) -> bool
    ensures { IsTrue result → BeginsLate c.now }
{
    let pieces = c.pieces();
    if pieces.len() < 2 {
        return false;
    }
    match c.tail() {
        Tail::Periodic {
            rank,
            period: _,
            rise: _,
        } => is_nothing(&pieces[0]) && !is_less(pieces[1].x, *rank),
        _ => false,
    }
}

// ---- how far up, and how far down
// By the value of the faster one at 0, where the slower one is a number all through its period.
fn level_from_zero(slow: &Curve, fast: &Curve, from: Frac, period: Frac, end: Frac) -> Option<Frac>
    requires { IsLateCall slow.now fast.now from period end }
    ensures { IfSome result (IsLevel slow.now fast.now period) }
{
    let first = begin(slow);
    let second = begin(fast);
    let own = period_or(slow, period);
    let last = checked_sum(first, own)?;
    let top = top_over(slow, first, last)?;
    let start = value_there(fast, Frac::zero())?;
    let gain = line_rise(rise_over(slow, own), own, second)?;
    let both = checked_sum(top, start)?;
    let level = checked_sum(both, gain)?;
    Some(level)
}

// By the value of the slower one where it begins to repeat, where the faster one is a number all through its period.
fn level_from_start(slow: &Curve, fast: &Curve, from: Frac, period: Frac, end: Frac) -> Option<Frac>
    requires { IsLateCall slow.now fast.now from period end }
    ensures { IfSome result (IsLevel slow.now fast.now period) }
{
    let first = begin(slow);
    let second = begin(fast);
    let own = period_or(fast, period);
    let last = checked_sum(second, own)?;
    let start = value_there(slow, first)?;
    let top = top_over(fast, second, last)?;
    let gain = line_rise(rise_over(fast, own), own, period_or(slow, period))?;
    let both = checked_sum(start, top)?;
    let level = checked_sum(both, gain)?;
    Some(level)
}

// Either, the first where it is there.
fn level_of(slow: &Curve, fast: &Curve, from: Frac, period: Frac, end: Frac) -> Option<Frac>
    requires { IsLateCall slow.now fast.now from period end }
    ensures { IfSome result (IsLevel slow.now fast.now period) }
{
    match level_from_zero(slow, fast, from, period, end) {
        Some(level) => Some(level),
        None => level_from_start(slow, fast, from, period, end),
    }
}

fn floor_of(slow: &Curve, fast: &Curve, from: Frac, period: Frac, end: Frac) -> Option<Frac>
    requires { IsLateCall slow.now fast.now from period end }
    ensures { IfSome result (IsFloor slow.now fast.now period) }
{
    let first = begin(slow);
    let second = begin(fast);
    let slow_own = period_or(slow, period);
    let fast_own = period_or(fast, period);
    let slow_end = checked_sum(first, slow_own)?;
    let fast_end = checked_sum(second, fast_own)?;
    let slow_depth = depth_over(slow, Frac::zero(), slow_end)?;
    let fast_depth = depth_over(fast, second, fast_end)?;
    let both = checked_sum(slow_depth, fast_depth)?;
    let floor = checked_sum(both, rise_over(fast, fast_own))?;
    Some(floor)
}

// By how much the faster curve rises more than the slower over a period.
fn lead(slow: &Curve, fast: &Curve, from: Frac, period: Frac, end: Frac) -> Frac
    requires { IsLateCall slow.now fast.now from period end }
    ensures { result ≡ rise_over fast.now period -ℚ rise_over slow.now period }
{
    difference(rise_over(fast, period), rise_over(slow, period))
}

// ---- the bounds
// From both, of two curves of which the first is the slower; none where it falls in the long run.
fn by_level(slow: &Curve, fast: &Curve, from: Frac, period: Frac, end: Frac) -> Option<Bounds>
    requires { IsLateCall slow.now fast.now from period end }
    ensures { IfSome result (IsLateBounds slow.now fast.now from period) }
{
    if is_slower(&Side::of(slow), &zero_level()) {
        return None;
    }
    let lead = lead(slow, fast, from, period, end);
    if !is_less(Frac::zero(), lead) {
        return None;
    }
    let level = level_of(slow, fast, from, period, end)?;
    let floor = floor_of(slow, fast, from, period, end)?;
    let gap = checked_sum(level, floor)?;
    let high = periods_over(gap, lead)?;
    Some(Bounds { low: 0, high })
}

// Of two curves of which the first is the slower.
fn bounds_of(slow: &Curve, fast: &Curve, from: Frac, period: Frac, end: Frac) -> Option<Bounds>
    requires { IsLateCall slow.now fast.now from period end }
    ensures { IfSome result (IsLateBounds slow.now fast.now from period) }
{
    if begins_late(slow) {
        return Some(Bounds { low: 0, high: 0 });
    }
    by_level(slow, fast, from, period, end)
}

// Of two bounds the one that is not above the other; either may be missing.
fn less_of(first: Option<Bounds>, second: Option<Bounds>) -> Option<Bounds>
    ensures { (result ≡ first) ⊎ (result ≡ second) }
{
    let Some(a) = first else {
        return second;
    };
    let Some(b) = second else {
        return first;
    };
    if a.high <= b.high {
        return first;
    }
    second
}

// Whether bounds are there, and say that no period is needed.
fn are_none(bounds: &Option<Bounds>) -> bool {
    match bounds {
        Some(b) => b.high == 0,
        None => false,
    }
}

// Of two curves of which the first is the slower, and subadditive.
fn thin_bounds(slow: &Curve, fast: &Curve, from: Frac, period: Frac, end: Frac) -> Option<Bounds>
    requires call { IsLateCall slow.now fast.now from period end }
    requires subadditive { IsSubadditive (value_at slow.now) }
    ensures { IfSome result (IsLateBounds slow.now fast.now from period) }
{
    let level = bounds_of(slow, fast, from, period, end);
    if are_none(&level) {
        return level;
    }
    let order = order_bounds(slow, fast, from, period, end);
    less_of(level, order)
}

// The same; `thin` where the first is known to be subadditive.
fn ordered_bounds(
    slow: &Curve,
    fast: &Curve,
    from: Frac,
    period: Frac,
    end: Frac,
    thin: bool,
) -> Option<Bounds>
    requires call { IsLateCall slow.now fast.now from period end }
    requires thin { IsTrue thin → IsSubadditive (value_at slow.now) }
    ensures { IfSome result (IsLateBounds slow.now fast.now from period) }
{
    if thin {
        return thin_bounds(slow, fast, from, period, end);
    }
    bounds_of(slow, fast, from, period, end)
}

/// Bounds of the least number of periods after which the convolution is the part in which the slower curve repeats, as
/// `late_bounds` of `curve_conv`; none where they are not found from few numbers. The slower one may be infinite again
/// and again where the faster one is a number all through its period, or where it is infinite up to when it repeats. No
/// memory is taken, and nothing is unrolled. Where `thin` is set, both curves are subadditive, and that is looked at too.
pub(crate) fn quick_bounds(
    f: &Curve,
    g: &Curve,
    from: Frac,
    period: Frac,
    end: Frac,
    thin: bool,
) -> Option<Bounds>
    requires parts { IsPartsCall f.now g.now from period end }
    requires thin { MayThin thin f.now g.now }
    ensures { IfSome result (IsSlowerBounds f.now g.now from period) }
{
    if is_slower_curve(f, g) {
        return ordered_bounds(f, g, from, period, end, thin);
    }
    if is_slower_curve(g, f) {
        return ordered_bounds(g, f, from, period, end, thin);
    }
    Some(Bounds { low: 0, high: 0 })
}
