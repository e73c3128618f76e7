//! Lines of a curve's own rate that it lies under, or over, and how many periods are enough by them. No memory is taken.

ghost use Rattle.std.specs.Prelude.{ℕ, ◌≡◌, ◌↔◌, pos, IfSome, IsTrue, MatchOption};
ghost use Rattle.rational.specs.Rational.{ℚ, int, ◌+ℚ◌, ◌-ℚ◌, ◌*ℚ◌, ◌≤ℚ◌, ◌<ℚ◌};
ghost use Rattle.rational.specs.Extended.{◌≤ₑ◌, ◌<ₑ◌};
ghost use Rattle.rational.specs.declared.Extended.TheVariants.{Fin};
ghost use Rattle.upp_curve.specs.Curve.{value_at};
ghost use Rattle.upp_curve.specs.Steady.{rate};
ghost use Rattle.upp_curve.specs.affine_segment.Values.{line_at, line_value};
ghost use Rattle.upp_limits.specs.Limits.{Sizes};
ghost use Rattle.upp_limits.specs.Periods.{periods_after};
ghost use Rattle.upp_limits.specs.Windows.{IsBelowFor, IsLeast, IsSlowerBelow};
ghost use Rattle.curve_call.specs.Bounds.{AreBounds, own_or};
ghost use Rattle.curve_call.specs.Compared.{AreCompared, IsBelowLate, IsEnough};
ghost use Rattle.plain_operators.specs.pointwise.Leaning.{IsUnder, IsOver, IsSpan, IsUnderUntil, IsOverUntil, AreOwnLines};

use curve_call::{
    Bounds, Side, checked_difference, checked_product, checked_quotient, checked_sum, earlier,
    least_below, least_below_until, line_there, period_or,
};
use fraction128::{Ext, Frac, greater, is_less, lesser};
use rational::Extended;
use upp_curve::Curve;
use upp_curve::affine_segment::Line;
use upp_normal::stretch_at;

/// So many steps are looked at; of a curve that has more, nothing is told.
const MOST_STEPS: u32 = 262144;

/// How far a curve was looked at.
#[derive(Clone, Copy)]
pub(crate) struct Reached {
    /// The time before which it was.
    pub(crate) until: Frac,
    /// The value at time 0 of a line of its rate that it is on one side of up to then.
    pub(crate) icept: Frac,
}

/// Lines of the own rates of two curves.
#[derive(Clone, Copy)]
pub(crate) struct Lines {
    /// One that the slower lies under.
    pub(crate) low: Line,
    /// One that the faster lies over.
    pub(crate) high: Line,
}

// The value at time 0 of the line of a rate through v at t, where it fits.
fn icept_of(v: Frac, t: Frac, rate: Frac) -> Option<Frac>
    ensures { IfSome result (λ k. v ≡ k +ℚ rate *ℚ t) }
{
    let risen = checked_product(rate, t)?;
    checked_difference(v, risen)
}

// The larger of an intercept and that of the line through v at t, where it fits.
fn number_higher(v: Frac, t: Frac, rate: Frac, icept: Frac) -> Option<Frac>
    ensures { IfSome result (λ k. (icept ≤ℚ k) × (v ≤ℚ k +ℚ rate *ℚ t)) }
{
    let through = icept_of(v, t, rate)?;
    Some(greater(icept, through))
}

// The lesser of the two.
fn number_lower(v: Frac, t: Frac, rate: Frac, icept: Frac) -> Option<Frac>
    ensures { IfSome result (λ k. (k ≤ℚ icept) × (k +ℚ rate *ℚ t ≤ℚ v)) }
{
    let through = icept_of(v, t, rate)?;
    Some(lesser(icept, through))
}

// As `number_higher`; none where v is infinite.
fn higher(v: Ext, t: Frac, rate: Frac, icept: Frac) -> Option<Frac>
    ensures { IfSome result (λ k. (icept ≤ℚ k) × (v ≤ₑ Fin (k +ℚ rate *ℚ t))) }
{
    match v {
        Extended::Inf => None,
        Extended::Fin(x) => number_higher(x, t, rate, icept),
    }
}

// As `number_lower`.
fn lower(v: Ext, t: Frac, rate: Frac, icept: Frac) -> Option<Frac>
    ensures { IfSome result (λ k. (k ≤ℚ icept) × (Fin (k +ℚ rate *ℚ t) ≤ₑ v)) }
{
    match v {
        Extended::Inf => Some(icept),
        Extended::Fin(x) => number_lower(x, t, rate, icept),
    }
}

// As `higher` of a line.
fn line_higher(line: &Option<Line>, t: Frac, rate: Frac, icept: Frac) -> Option<Frac>
    ensures { IfSome result (λ k. (icept ≤ℚ k) × (line_value line.now t ≤ₑ Fin (k +ℚ rate *ℚ t))) }
{
    let v = line_there(line, t)?;
    higher(v, t, rate, icept)
}

// As `lower` of a line.
fn line_lower(line: &Option<Line>, t: Frac, rate: Frac, icept: Frac) -> Option<Frac>
    ensures { IfSome result (λ k. (k ≤ℚ icept) × (Fin (k +ℚ rate *ℚ t) ≤ₑ line_value line.now t)) }
{
    let v = line_there(line, t)?;
    lower(v, t, rate, icept)
}

// One step on under a line.
fn higher_step(c: &Curve, reached: Reached, rate: Frac, from: Frac, end: Frac) -> Option<Reached>
    requires span { IsSpan c.now from end }
    requires reached { IsUnderUntil c.now from end rate reached }
    requires before { reached.until <ℚ end }
    ensures { IfSome result (IsUnderUntil c.now from end rate) }
{
    let here = stretch_at(c, reached.until);
    let until = earlier(end, &here.next);
    let first = higher(here.at, reached.until, rate, reached.icept)?;
    let second = line_higher(&here.line, reached.until, rate, first)?;
    let icept = line_higher(&here.line, until, rate, second)?;
    Some(Reached { until, icept })
}

// One step on over a line.
fn lower_step(c: &Curve, reached: Reached, rate: Frac, from: Frac, end: Frac) -> Option<Reached>
    requires span { IsSpan c.now from end }
    requires reached { IsOverUntil c.now from end rate reached }
    requires before { reached.until <ℚ end }
    ensures { IfSome result (IsOverUntil c.now from end rate) }
{
    let here = stretch_at(c, reached.until);
    let until = earlier(end, &here.next);
    let first = lower(here.at, reached.until, rate, reached.icept)?;
    let second = line_lower(&here.line, reached.until, rate, first)?;
    let icept = line_lower(&here.line, until, rate, second)?;
    Some(Reached { until, icept })
}

// The value at time 0 of the line of a rate through the curve at a time, where that is a number.
fn start_icept(c: &Curve, from: Frac, end: Frac, rate: Frac) -> Option<Frac>
    requires { IsSpan c.now from end }
{
    match stretch_at(c, from).at {
        Extended::Inf => None,
        Extended::Fin(v) => icept_of(v, from, rate),
    }
}

// The value at time 0 of the least line of a rate that a curve lies under from `from` up to `end`.
fn under(c: &Curve, rate: Frac, from: Frac, end: Frac) -> Option<Frac>
    requires { IsSpan c.now from end }
    ensures { IfSome result (IsUnder (value_at c.now) from end rate) }
{
    let icept = start_icept(c, from, end, rate)?;
    let mut reached = Reached { until: from, icept };
    for _step in 0..MOST_STEPS {
        if !is_less(reached.until, end) {
            return Some(reached.icept);
        }
        reached = higher_step(c, reached, rate, from, end)?;
    }
    None
}

// The value at time 0 of the greatest line of a rate that a curve lies over from `from` up to `end`.
fn over(c: &Curve, rate: Frac, from: Frac, end: Frac) -> Option<Frac>
    requires { IsSpan c.now from end }
    ensures { IfSome result (IsOver (value_at c.now) from end rate) }
{
    let icept = start_icept(c, from, end, rate)?;
    let mut reached = Reached { until: from, icept };
    for _step in 0..MOST_STEPS {
        if !is_less(reached.until, end) {
            return Some(reached.icept);
        }
        reached = lower_step(c, reached, rate, from, end)?;
    }
    None
}

// A number k with gap at most k times the lead, where it fits: the least. None where the lead is not above 0.
fn times_over(gap: Frac, lead: Frac) -> Option<u128>
    ensures { IfSome result (λ k. gap ≤ℚ int (pos k) *ℚ lead) }
{
    let zero = Frac::zero();
    if !is_less(zero, lead) {
        return None;
    }
    if !is_less(zero, gap) {
        return Some(0);
    }
    match Frac::div(gap, lead) {
        Ok(number) => Some(number.size_up()),
        Err(_) => None,
    }
}

// The long-run rate of a curve.
fn own_rate(c: &Curve) -> Ext
    ensures { result ≡ rate c.now }
{
    c.rate().unwrap()
}

// The long-run rate of a curve, where it is a number.
fn rate_of(c: &Curve) -> Option<Frac>
    ensures { IfSome result (λ r. rate c.now ≡ Fin r) }
{
    match own_rate(c) {
        Extended::Inf => None,
        Extended::Fin(r) => Some(r),
    }
}

/// Whether f is the slower one.
pub(crate) fn is_slower(f: &Curve, g: &Curve) -> bool
    ensures { IsTrue result ↔ (rate f.now <ₑ rate g.now) }
{
    curve_call::is_slower(&Side::of(f), &Side::of(g))
}

// The value at time 0 of the least line of a rate that a curve lies under from `from` on for a period of its own, or for
// the other one where it has none.
fn own_under(c: &Curve, rate: Frac, from: Frac, period: Frac) -> Option<Frac>
    requires { IsSpan c.now from (from +ℚ own_or period c.now) }
    ensures { IfSome result (IsUnder (value_at c.now) from (from +ℚ own_or period c.now) rate) }
{
    let end = checked_sum(from, period_or(c, period))?;
    under(c, rate, from, end)
}

// The same of the greatest line of a rate that a curve lies over.
fn own_over(c: &Curve, rate: Frac, from: Frac, period: Frac) -> Option<Frac>
    requires { IsSpan c.now from (from +ℚ own_or period c.now) }
    ensures { IfSome result (IsOver (value_at c.now) from (from +ℚ own_or period c.now) rate) }
{
    let end = checked_sum(from, period_or(c, period))?;
    over(c, rate, from, end)
}

// How far a line is at a time above another that rises faster, by so much.
fn gap_at(low: &Line, high: &Line, faster: Frac, t: Frac) -> Option<Frac>
    ensures { IfSome result (λ g. g ≡ low.now.icept -ℚ high.now.icept -ℚ faster *ℚ t) }
{
    let both = checked_difference(low.icept, high.icept)?;
    let gained = checked_product(faster, t)?;
    checked_difference(both, gained)
}

// After how many periods from a time on a line is above another, where the steps fit.
fn number_between(low: &Line, high: &Line, from: Frac, period: Frac) -> Option<u128>
    ensures { let faster = high.now.slope -ℚ low.now.slope in
        IfSome result (λ k. low.now.icept -ℚ high.now.icept -ℚ faster *ℚ from ≤ℚ int (pos k) *ℚ (faster *ℚ period)) }
{
    let faster = checked_difference(high.slope, low.slope)?;
    let gap = gap_at(low, high, faster, from)?;
    let lead = checked_product(faster, period)?;
    times_over(gap, lead)
}

// The lines that two curves lie under, or over, from `from` on for a period of their own.
fn own_lines(slow: &Curve, fast: &Curve, from: Frac, period: Frac) -> Option<Lines>
    requires { (z : Sizes) × AreCompared z from period slow.now fast.now }
    ensures { IfSome result (AreOwnLines slow.now fast.now from period) }
{
    let slope = rate_of(slow)?;
    let steeper = rate_of(fast)?;
    let top = own_under(slow, slope, from, period)?;
    let bottom = own_over(fast, steeper, from, period)?;
    Some(Lines {
        low: Line { icept: top, slope },
        high: Line {
            icept: bottom,
            slope: steeper,
        },
    })
}

// A number of periods that is enough by these lines.
fn number_by_lines(slow: &Curve, fast: &Curve, from: Frac, period: Frac) -> Option<u128>
    requires slower { rate slow.now <ₑ rate fast.now }
    requires window { (z : Sizes) × AreCompared z from period slow.now fast.now }
    ensures { IfSome result
        (λ k. IsBelowFor (value_at slow.now) (value_at fast.now) (periods_after from k period) period) }
{
    let lines = own_lines(slow, fast, from, period)?;
    number_between(&lines.low, &lines.high, from, period)
}

// The bounds by that number.
fn high_by_lines(slow: &Curve, fast: &Curve, from: Frac, period: Frac) -> Option<Bounds>
    requires slower { rate slow.now <ₑ rate fast.now }
    requires window { (z : Sizes) × AreCompared z from period slow.now fast.now }
    ensures { IfSome result
        (AreBounds (λ k. IsBelowFor (value_at slow.now) (value_at fast.now) (periods_after from k period) period)) }
{
    let high = number_by_lines(slow, fast, from, period)?;
    Some(Bounds { low: 0, high })
}

/// Bounds of what `least_periods` looks for, from one period of each curve by itself: 0, and a number by the lines of its own
/// rate that each lies under or over. None where the slower curve is infinite in its period, or the faster at `from`,
/// where there are very many pieces in a period, or where a number on the way does not fit.
pub(crate) fn bounds_by_lines(f: &Curve, g: &Curve, from: Frac, period: Frac) -> Option<Bounds>
    requires { (z : Sizes) × AreCompared z from period f.now g.now }
    ensures { IfSome result
        (AreBounds (λ k. IsSlowerBelow (value_at f.now) (value_at g.now) (rate f.now) (rate g.now)
        (periods_after from k period) period)) }
{
    if is_slower(f, g) {
        return high_by_lines(f, g, from, period);
    }
    if is_slower(g, f) {
        return high_by_lines(g, f, from, period);
    }
    Some(Bounds { low: 0, high: 0 })
}

// The time from which on the one line is below the other, where it fits.
fn crossing(lines: &Lines) -> Option<Frac>
    ensures { IfSome result (λ s. (t : ℚ) → s ≤ℚ t → line_at lines.now.low t ≤ℚ line_at lines.now.high t) }
{
    let faster = checked_difference(lines.high.slope, lines.low.slope)?;
    let gap = checked_difference(lines.low.icept, lines.high.icept)?;
    if !is_less(Frac::zero(), faster) {
        return None;
    }
    checked_quotient(gap, faster)
}

// A time from which on the slower curve is nowhere above the faster one, by the lines.
fn soon_by_lines(slow: &Curve, fast: &Curve, from: Frac, period: Frac) -> Option<Frac>
    requires { (z : Sizes) × AreCompared z from period slow.now fast.now }
    ensures { IfSome result (IsBelowLate slow.now fast.now from period) }
{
    let lines = own_lines(slow, fast, from, period)?;
    crossing(&lines)
}

// As `least_periods`, of which the first is the slower.
fn least_soon(slow: &Curve, fast: &Curve, from: Frac, period: Frac) -> Option<u128>
    requires slower { rate slow.now <ₑ rate fast.now }
    requires window { (z : Sizes) × AreCompared z from period slow.now fast.now }
    ensures { MatchOption result
        ((k : ℕ) → ¬ (IsBelowFor (value_at slow.now) (value_at fast.now) (periods_after from k period) period))
        (IsLeast (λ k. IsBelowFor (value_at slow.now) (value_at fast.now) (periods_after from k period) period)) }
{
    match soon_by_lines(slow, fast, from, period) {
        None => least_below(&Side::of(slow), &Side::of(fast), from, period),
        Some(soon) => least_below_until(&Side::of(slow), &Side::of(fast), from, period, soon),
    }
}

/// The number that `least_periods` finds, for curves of which one period of their own is much shorter than a common one:
/// both are walked over only as far as the lines of their own rates do not tell that the slower is nowhere above.
pub(crate) fn least_by_lines(f: &Curve, g: &Curve, from: Frac, period: Frac) -> Option<u128>
    requires { (z : Sizes) × AreCompared z from period f.now g.now }
    ensures { MatchOption result
        ((k : ℕ) → ¬ (IsEnough f.now g.now from period k)) (IsLeast (IsEnough f.now g.now from period)) }
{
    if is_slower(f, g) {
        return least_soon(f, g, from, period);
    }
    if is_slower(g, f) {
        return least_soon(g, f, from, period);
    }
    Some(0)
}
