//! Times of a call: common periods, the later of two, and whole periods after a time.

ghost use Rattle.std.specs.Prelude.{◌≡◌, ◌<◌, ◌^◌, pos, IfSome, IsSome};
ghost use Rattle.rational.specs.Rational.{int, ◌+ℚ◌, ◌<ℚ◌};
ghost use Rattle.rational.specs.MinMax.{max_q};
ghost use Rattle.rational.specs.Ratio.{IsSmall, SumFits};
ghost use Rattle.fraction128.specs.Multiple.{common_multiple};
ghost use Rattle.upp_curve.specs.Curves.{IsCurve};
ghost use Rattle.upp_curve.specs.Steady.{steady};
ghost use Rattle.upp_limits.specs.Periods.{common_period, own_period, both_steady, moved_steady, periods_after, period_of, period_or};
ghost use Rattle.curve_call.specs.Times.{OneLaterFits, BothSteadyFit, MovedFits, PeriodsFit, AheadFits};

use fraction128::Frac;
use std::cmp::Ordering;
use upp_curve::{Curve, Tail};
use upp_normal::steady_time;

/// The period of a curve; none where it has every period.
fn period_of(c: &Curve) -> Option<Frac>
    ensures value { result ≡ period_of c.now.tail }
    ensures above { IfSome result (λ d. int (pos 0) <ℚ d) }
    ensures kept { IsCurve c.now }
{
    match c.tail() {
        Tail::Periodic { period, .. } => Some(*period),
        Tail::Affine { .. } => None,
        Tail::Infinite { .. } => None,
    }
}

/// The period of a curve, and 1 where it has every period.
pub fn own_period(c: &Curve) -> Frac
    ensures value { result ≡ own_period c.now }
    ensures kept { IsCurve c.now }
{
    match period_of(c) {
        Some(period) => period,
        None => Frac::one(),
    }
}

/// From when on a curve repeats, where 1 later than its rank fits.
pub fn begin(c: &Curve) -> Frac
    requires { OneLaterFits c.now }
    ensures { result ≡ steady c.now }
{
    steady_time(c).unwrap()
}

/// The least number that is a whole multiple of both.
fn least_multiple(a: Frac, b: Frac) -> Option<Frac>
    requires left { int (pos 0) <ℚ a }
    requires right { int (pos 0) <ℚ b }
    ensures value { IfSome result (λ d. d ≡ common_multiple a b) }
    ensures fits { IsSmall (common_multiple a b) → IsSome result }
{
    Frac::lcm_of(a, b).ok()
}

/// The least common multiple of two periods; the other's where one curve has every period, and 1 where both have. None
/// exactly where it is no `Frac`.
pub fn common_period(f: &Curve, g: &Curve) -> Option<Frac>
    ensures value { IfSome result (λ d. d ≡ common_period f.now g.now) }
    ensures fits { IsSmall (common_period f.now g.now) → IsSome result }
    ensures kept { IsCurve f.now × IsCurve g.now }
{
    match period_of(f) {
        None => Some(own_period(g)),
        Some(first) => match period_of(g) {
            None => Some(first),
            Some(second) => least_multiple(first, second),
        },
    }
}

/// The later of two times.
fn later_of(a: Frac, b: Frac) -> Frac
    ensures { result ≡ max_q a b }
{
    match a.cmp(&b) {
        Ordering::Greater => a,
        Ordering::Equal => b,
        Ordering::Less => b,
    }
}

/// a + b.
fn sum(a: Frac, b: Frac) -> Option<Frac>
    ensures value { IfSome result (λ t. t ≡ a +ℚ b) }
    ensures fits { SumFits a b → IsSome result }
{
    Frac::add(a, b).ok()
}

/// From when on both curves repeat.
pub(crate) fn both_steady(f: &Curve, g: &Curve) -> Option<Frac>
    ensures value { IfSome result (λ t. t ≡ both_steady f.now g.now) }
    ensures fits { BothSteadyFit f.now g.now → IsSome result }
{
    let first = steady_time(f)?;
    let second = steady_time(g)?;
    Some(later_of(first, second))
}

/// From when on a curve repeats, and `by` later.
pub(crate) fn steady_by(c: &Curve, by: Frac) -> Option<Frac>
    ensures value { IfSome result (λ t. t ≡ steady c.now +ℚ by) }
    ensures fits { OneLaterFits c.now → SumFits (steady c.now) by → IsSome result }
{
    let from = steady_time(c)?;
    sum(from, by)
}

/// From when on f, and g moved right by theta, both repeat.
pub(crate) fn moved_steady(f: &Curve, g: &Curve, theta: Frac) -> Option<Frac>
    ensures value { IfSome result (λ t. t ≡ moved_steady f.now g.now theta) }
    ensures fits { MovedFits f.now g.now theta → IsSome result }
{
    let first = steady_time(f)?;
    let second = steady_by(g, theta)?;
    Some(later_of(first, second))
}

/// The sum of the times from when on the two repeat.
pub(crate) fn steady_sum(f: &Curve, g: &Curve) -> Option<Frac>
    ensures value { IfSome result (λ t. t ≡ steady f.now +ℚ steady g.now) }
    ensures fits { BothSteadyFit f.now g.now → SumFits (steady f.now) (steady g.now) → IsSome result }
{
    let first = steady_time(f)?;
    steady_by_first(first, g)
}

/// `first` and the time from when on a curve repeats.
fn steady_by_first(first: Frac, c: &Curve) -> Option<Frac>
    ensures value { IfSome result (λ t. t ≡ first +ℚ steady c.now) }
    ensures fits { OneLaterFits c.now → SumFits first (steady c.now) → IsSome result }
{
    let second = steady_time(c)?;
    sum(first, second)
}

/// The period of f, and `other` where it has every period.
fn period_or(f: &Curve, other: Frac) -> Frac
    ensures { result ≡ period_or other (period_of f.now.tail) }
{
    match period_of(f) {
        Some(period) => period,
        None => other,
    }
}

/// One period of f after it repeats, and then the time from when on both repeat.
pub(crate) fn ahead(f: &Curve, g: &Curve) -> Option<Frac>
    ensures value { IfSome result
        (λ t. t ≡ steady f.now +ℚ period_or (common_period f.now g.now) (period_of f.now.tail)
        +ℚ both_steady f.now g.now) }
    ensures fits { AheadFits f.now g.now → IsSome result }
{
    let common = common_period(f, g)?;
    let first = steady_by(f, period_or(f, common))?;
    let both = both_steady(f, g)?;
    sum(first, both)
}

/// n times d after t. None for 2^126 periods and more.
pub(crate) fn periods_after(t: Frac, n: u128, d: Frac) -> Option<Frac>
    ensures few { IsSome result → n < 2 ^ 126 }
    ensures value { IfSome result (λ e. e ≡ periods_after t n d) }
    ensures fits { PeriodsFit t n d → IsSome result }
{
    if n >= 1 << 126 {
        return None;
    }
    let run = Frac::mul(Frac::from_whole(n as i128), d).ok()?;
    sum(t, run)
}
