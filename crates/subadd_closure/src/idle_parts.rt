//! Parts of a curve whose stars leave the zero curve as it is. Few numbers tell that the calls on such a star are within
//! their limits, so that it need not be made.

ghost use Rattle.std.specs.Prelude.{◌≡◌, ◌+◌, ◌*◌, ◌<◌, ◌≤◌, ◌^◌, pos, suc, IsTrue, None};
ghost use Rattle.rational.specs.Rational.{int, ◌≤ℚ◌};
ghost use Rattle.rational.specs.declared.Extended.TheVariants.{Fin};
ghost use Rattle.upp_curve.specs.declared.affine_segment.element.Element.TheVariants.{Open};
ghost use Rattle.upp_curve.specs.affine_segment.Values.{line_at};
ghost use Rattle.upp_curve.specs.Curve.{value_at};
ghost use Rattle.min_plus.specs.Functions.{IsFinite, IsNonnegative, zero_q};
ghost use Rattle.min_plus.specs.closure_laws.Star.{nat_times};
ghost use Rattle.upp_limits.specs.Limits.{own_gauge};
ghost use Rattle.curve_call.specs.Levels.{level_curve};
ghost use Rattle.subadd_closure.specs.CurveParts.{part_of};
ghost use Rattle.subadd_closure.specs.Folds.{LeavesAsIs};
ghost use Rattle.subadd_closure.specs.FoldWork.{part_work};
ghost use Rattle.subadd_closure.specs.IdleParts.{IsIdleSegment};
ghost use Rattle.subadd_closure.specs.PartStars.{turn_of};
ghost use Rattle.subadd_closure.specs.SegmentLimits.{IsElementOf, IsOwnGauge};

use crate::multiples::{value_on, whole_times};
use crate::overlaps::overlap;
use crate::part_stars::turn_of;
use fraction128::{Ext, Frac, is_less};
use plain_operators::pointwise::is_nought;
use rational::Extended;
use upp_curve::Curve;
use upp_curve::affine_segment::{Element, Line};

// Whether the numbers of the calls on the star of a segment are known to be small, by the gauge of its curve and by how many
// stretches of its sums end before the next begins.
fn has_room(own: u128, m: u64) -> bool
    ensures few { IsTrue result → m ≤ 2 ^ 17 }
    ensures small { IsTrue result → 3 * (5 * suc m) * (own * own) < 2 ^ 120 }
{
    if m > 1 << 17 {
        return false;
    }
    if own >= 1 << 49 {
        return false;
    }
    true
}

// Whether the star of a segment from a on begins to repeat at 1 or later.
fn is_late(a: Frac, m: u64) -> bool
    requires { m ≤ 2 ^ 17 }
    ensures { IsTrue result → int (pos 1) ≤ℚ nat_times (suc m) a }
{
    match whole_times(m + 1, a) {
        None => false,
        Some(rank) => !is_less(rank, Frac::one()),
    }
}

// Whether a line is known to be not below 0 at x.
fn is_up(line: &Line, x: Frac) -> bool
    ensures { IsTrue result → zero_q ≤ℚ line_at line.now x }
{
    match value_on(line, x) {
        None => false,
        Some(v) => !is_less(v, Frac::zero()),
    }
}

// Whether the star of a segment of f is known to leave the zero curve as it is.
fn is_idle_segment(f: &Curve, own: u128, a: Frac, b: Ext, line: &Line) -> bool
    requires part { IsElementOf f.now (Open a b line.now) }
    requires finite { IsFinite (value_at f.now) }
    requires nonneg { IsNonnegative (value_at f.now) }
    requires gauge { (own ≡ own_gauge f.now) × (own_gauge f.now < 2 ^ 120) }
    ensures { IsTrue result → IsIdleSegment f.now a b line.now }
{
    // Its type keeps that f is a curve.
    f.keeps();
    let Extended::Fin(end) = b else {
        return false;
    };
    if !is_less(Frac::zero(), a) {
        return false;
    }
    let Ok(m) = overlap(f, Some(own), a, b, line) else {
        return false;
    };
    if !has_room(own, m) {
        return false;
    }
    if !is_late(a, m) {
        return false;
    }
    if !is_up(line, a) {
        return false;
    }
    is_up(line, end)
}

// Whether an element of f with no copies leaves `sofar`, the zero curve, as it is.
fn is_idle(f: &Curve, own: u128, sofar: &Curve, e: &Element) -> bool
    requires part { IsElementOf f.now e.now }
    requires finite { IsFinite (value_at f.now) }
    requires nonneg { IsNonnegative (value_at f.now) }
    requires gauge { (own ≡ own_gauge f.now) × (own_gauge f.now < 2 ^ 120) }
    requires alone { turn_of (part_of f.now.tail e.now).copies ≡ None }
    requires zero { sofar.now ≡ level_curve zero_q }
    ensures { IsTrue result → LeavesAsIs f.now sofar.now (part_of f.now.tail e.now) }
{
    match e {
        Element::Point { x: _, v: _ } => false,
        Element::Open { from, to, line } => is_idle_segment(f, own, *from, *to, line),
    }
}

/// Whether the parts before an element of f make the zero curve, and the star of the element is known to leave that as it
/// is: of a segment with no copies, where its numbers are small. `gauge` is that of f by itself.
pub(crate) fn leaves_as_is(f: &Curve, gauge: Option<u128>, sofar: &Curve, e: &Element) -> bool
    requires part { IsElementOf f.now e.now }
    requires finite { IsFinite (value_at f.now) }
    requires nonneg { IsNonnegative (value_at f.now) }
    requires gauge { IsOwnGauge f.now gauge }
    ensures leaves { IsTrue result → LeavesAsIs f.now sofar.now (part_of f.now.tail e.now) }
    ensures work { IsTrue result → part_work (part_of f.now.tail e.now) ≡ 1 }
{
    if !is_nought(sofar) {
        return false;
    }
    let Some(own) = gauge else {
        return false;
    };
    match turn_of(f.tail(), e) {
        Some(_) => false,
        None => is_idle(f, own, sofar, e),
    }
}
