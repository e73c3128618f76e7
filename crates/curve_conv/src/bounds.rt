//! Between which numbers of periods the least one of a convolution is, from few numbers of each curve.

ghost use Rattle.std.specs.Prelude.{◌≡◌, ◌+◌, pos, IfSome};
ghost use Rattle.rational.specs.Rational.{int, ◌-ℚ◌, ◌*ℚ◌, ◌≤ℚ◌, ◌<ℚ◌};
ghost use Rattle.upp_curve.specs.Steady.{steady, rise_over};
ghost use Rattle.curve_conv.specs.Late.{IsLateAfter, IsLateCall, IsPartsCall};
ghost use Rattle.curve_conv.specs.LateBounds.{IsLateBounds, IsSlowerBounds};

use crate::begun::begun_suffices;
use crate::extremes::{extremes_of, most_gap};
use crate::moved::own_periods_suffice;
use crate::number::lead;
use crate::order::is_slower_curve;
use crate::rises::rise_between;
use crate::rows::Scan;
use curve_call::{Bounds, Side, begin, checked_difference, is_slower, rise_over, zero_level};
use fraction128::{Frac, is_less};
use upp_curve::Curve;

/// So many pieces of the slower curve are looked at over a common period; of one that has more, nothing is told.
const MOST_PIECES: u32 = 262144;

/// A number n of periods with the gap at most n + 1 times the lead; none where the gap over the lead does not fit.
pub fn periods_over(gap: Frac, lead: Frac) -> Option<u128>
    requires { int (pos 0) <ℚ lead }
    ensures { IfSome result (λ n. gap ≤ℚ int (pos (n + 1)) *ℚ lead) }
{
    if !is_less(lead, gap) {
        return Some(0);
    }
    match Frac::div(gap, lead) {
        Ok(number) => Some(number.size_up().saturating_sub(1)),
        Err(_) => None,
    }
}

// A number of periods that is enough, by the most that the slower curve is a period later above itself before `first`,
// from which on it repeats: 0 where the faster one rises as much in a period. None where it rises less, and the slower
// one repeats later than a period; or where the slower one has very many pieces there.
fn soon_number(s: &Scan, first: Frac, lead: Frac, from: Frac, period: Frac) -> Option<u128>
    requires call { IsLateCall s.now.first.now s.now.second.now from period s.now.end }
    requires first { first ≡ steady s.now.first.now }
    requires lead { lead ≡ rise_over s.now.second.now period -ℚ rise_over s.now.first.now period }
    requires some { int (pos 0) <ℚ lead }
    ensures { IfSome result (IsLateAfter s.now.first.now s.now.second.now from period) }
{
    let rise = rise_over(s.first, period);
    let most = rise_between(s.first, Frac::zero(), first, period, rise, MOST_PIECES)?;
    if !is_less(rise_over(s.second, period), most) {
        return Some(0);
    }
    if is_less(period, first) {
        return None;
    }
    let gained = checked_difference(most, rise)?;
    periods_over(gained, lead)
}

// By what both curves do in a period of their own: none where the slower one falls in the long run.
fn far_number(s: &Scan, first: Frac, lead: Frac, from: Frac, period: Frac) -> Option<u128>
    requires call { IsLateCall s.now.first.now s.now.second.now from period s.now.end }
    requires first { first ≡ steady s.now.first.now }
    requires lead { lead ≡ rise_over s.now.second.now period -ℚ rise_over s.now.first.now period }
    requires some { int (pos 0) <ℚ lead }
    ensures { IfSome result (IsLateAfter s.now.first.now s.now.second.now from period) }
{
    if is_slower(&Side::of(s.first), &zero_level()) {
        return None;
    }
    let e = extremes_of(s, first, begin(s.second), from, period)?;
    let gap = most_gap(&e)?;
    periods_over(gap, lead)
}

// Whether a number is there, and is 0.
fn is_zero(number: &Option<u128>) -> bool {
    match number {
        Some(n) => *n == 0,
        None => false,
    }
}

// A number of periods that is enough: 0 where a move by a common period tells it, or one by some periods of the faster
// curve's own, or both moves of a slower curve that is infinite after 0; else the first of both that is found.
fn enough_number(s: &Scan, first: Frac, lead: Frac, from: Frac, period: Frac) -> Option<u128>
    requires call { IsLateCall s.now.first.now s.now.second.now from period s.now.end }
    requires first { first ≡ steady s.now.first.now }
    requires lead { lead ≡ rise_over s.now.second.now period -ℚ rise_over s.now.first.now period }
    requires some { int (pos 0) <ℚ lead }
    ensures { IfSome result (IsLateAfter s.now.first.now s.now.second.now from period) }
{
    let soon = soon_number(s, first, lead, from, period);
    if is_zero(&soon) {
        return soon;
    }
    if own_periods_suffice(s, first, from, period) {
        return Some(0);
    }
    if begun_suffices(s, first, from, period) {
        return Some(0);
    }
    match soon {
        Some(number) => Some(number),
        None => far_number(s, first, lead, from, period),
    }
}

// Of two curves of which the first is the slower.
fn bounds_of(s: &Scan, from: Frac, period: Frac) -> Option<Bounds>
    requires { IsLateCall s.now.first.now s.now.second.now from period s.now.end }
    ensures { IfSome result (IsLateBounds s.now.first.now s.now.second.now from period) }
{
    let zero = Frac::zero();
    let first = begin(s.first);
    if !is_less(zero, first) {
        return Some(Bounds { low: 0, high: 0 });
    }
    let lead = lead(s, from, period);
    if !is_less(zero, lead) {
        return None;
    }
    let high = enough_number(s, first, lead, from, period)?;
    Some(Bounds { low: 0, high })
}

/// Bounds of what `late_periods` looks for; 0 and 0 for curves of one rate, and for a slower one that repeats from 0 on.
/// As many periods as the upper one are enough too. It is found from how much more the slower curve is a period later
/// than before it repeats, where the faster one rises as much in a period, or in some of its own, or by a late time where
/// the slower one is infinite after 0, or that repeats within a period; not where it has very many pieces there. Else one
/// period of each curve and what the slower one is before tell it; then there may be none where the slower one falls in
/// the long run or is infinite in its period, or the faster one is infinite where its period begins. No memory is taken.
pub fn late_bounds(f: &Curve, g: &Curve, from: Frac, period: Frac, end: Frac) -> Option<Bounds>
    requires { IsPartsCall f.now g.now from period end }
    ensures { IfSome result (IsSlowerBounds f.now g.now from period) }
{
    if is_slower_curve(f, g) {
        let s = Scan {
            first: f,
            second: g,
            end,
        };
        return bounds_of(&s, from, period);
    }
    if is_slower_curve(g, f) {
        let s = Scan {
            first: g,
            second: f,
            end,
        };
        return bounds_of(&s, from, period);
    }
    Some(Bounds { low: 0, high: 0 })
}
