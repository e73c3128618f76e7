//! Turns that are whole periods of a curve apart: of those only the first need be moved on, and the last back.

ghost use Rattle.std.specs.List.Sorted.{IsPermutation};
ghost use Rattle.std.specs.Prelude.{◌≡◌, pos, IfOk, IfSome, OnOk, IsTrue};
ghost use Rattle.rational.specs.Rational.{int, ◌<ℚ◌};
ghost use Rattle.run_watch.specs.Classes.{moved, IsPeriodsAfter, Leads, IsLed, AddsLed, AreLeads, AreLeadsBy, IsCycle};
ghost use Rattle.run_watch.specs.WatchTimes.{AroundFits, HaveSameTimes};

use fraction128::{Frac, difference, is_less, sum};
use std::alloc::{AllocError, Global};
use upp_curve::{Curve, Tail};

/// Which way turns are moved.
#[derive(Clone, Copy)]
pub enum Side {
    Later,
    Earlier,
}

/// A time moved so.
pub(crate) fn moved(side: Side, p: Frac, x: Frac) -> Frac
    requires { AroundFits p x }
    ensures { result ≡ moved side p x }
{
    match side {
        Side::Later => sum(p, x),
        Side::Earlier => difference(p, x),
    }
}

/// The period of a curve that repeats from 0 on.
pub(crate) fn cycle_of(curve: &Curve) -> Option<Frac>
    ensures { IfSome result (IsCycle curve.now) }
{
    let Tail::Periodic {
        rank,
        period,
        rise: _,
    } = *curve.tail()
    else {
        return None;
    };
    if is_less(Frac::zero(), rank) {
        return None;
    }
    Some(period)
}

/// Whether t is seen to be whole periods after u.
fn is_periods_after(u: Frac, t: Frac, period: Frac) -> bool
    requires { int (pos 0) <ℚ period }
    ensures { IsTrue result → IsPeriodsAfter period u t }
{
    let Ok(gap) = Frac::sub(t, u) else {
        return false;
    };
    let Ok(count) = Frac::div(gap, period) else {
        return false;
    };
    count.whole_part() == count
}

/// Whether l is seen to lead t to later times.
fn leads_on(period: Frac, l: Frac, t: Frac) -> bool
    requires { int (pos 0) <ℚ period }
    ensures { IsTrue result → IsPeriodsAfter period l t × (int (pos 0) <ℚ l) }
{
    if !is_less(Frac::zero(), l) {
        return false;
    }
    is_periods_after(l, t, period)
}

/// Whether it is seen to lead t to earlier times.
fn leads_back(end: Frac, period: Frac, l: Frac, t: Frac) -> bool
    requires { int (pos 0) <ℚ period }
    ensures { IsTrue result → IsPeriodsAfter period t l × (l <ℚ end) }
{
    if !is_less(l, end) {
        return false;
    }
    is_periods_after(t, l, period)
}

/// Whether it is seen to lead t.
fn leads(side: Side, end: Frac, period: Frac, l: Frac, t: Frac) -> bool
    requires { int (pos 0) <ℚ period }
    ensures { IsTrue result → Leads side end period l t }
{
    match side {
        Side::Later => leads_on(period, l, t),
        Side::Earlier => leads_back(end, period, l, t),
    }
}

/// How far t is past a whole number of periods, as far as that can be told: by it the times of one class stand together.
fn past_whole(t: Frac, period: Frac) -> Frac {
    if !is_less(Frac::zero(), period) {
        return t;
    }
    let Ok(count) = Frac::div(t, period) else {
        return t;
    };
    let Ok(whole) = Frac::mul(count.whole_part(), period) else {
        return t;
    };
    let Ok(rest) = Frac::sub(t, whole) else {
        return t;
    };
    rest
}

/// Turns some times round, where the last are to come first.
fn begin_at(times: &mut Vec<Frac>, side: Side)
    ensures { IsPermutation times.old.items times.new.items }
{
    match side {
        Side::Later => {}
        Side::Earlier => times.reverse(),
    }
}

/// Some times, those of one class together: the first of them first, or the last.
fn by_class(
    alloc: Global,
    turns: &[Frac],
    side: Side,
    period: Frac,
) -> Result<Vec<Frac>, AllocError>
    ensures { IfOk result (λ v. HaveSameTimes turns.now v.items) }
{
    let mut times = Vec::from_slice(alloc, turns)?;
    times.sort()?;
    times.sort_by_cached_key(|t| past_whole(*t, period))?;
    begin_at(&mut times, side);
    Ok(times)
}

/// Whether the last of some times is seen to lead t.
fn last_leads(found: &[Frac], side: Side, end: Frac, period: Frac, t: Frac) -> bool
    requires { int (pos 0) <ℚ period }
    ensures { IsTrue result → IsLed side end period found.now t }
{
    let count = found.len();
    if count == 0 {
        return false;
    }
    leads(side, end, period, found[count - 1], t)
}

/// One time more, where the last of them is not seen to lead it.
fn push_not_led(
    found: &mut Vec<Frac>,
    side: Side,
    end: Frac,
    period: Frac,
    t: Frac,
) -> Result<(), AllocError>
    requires { int (pos 0) <ℚ period }
    ensures { OnOk result (AddsLed side end period found.old.items t found.new.items) }
{
    if !last_leads(found, side, end, period, t) {
        found.push(t)?;
    }
    Ok(())
}

/// Of some times those that the one before them that is told does not lead.
fn not_led(
    alloc: Global,
    times: &[Frac],
    side: Side,
    end: Frac,
    period: Frac,
) -> Result<Vec<Frac>, AllocError>
    requires { int (pos 0) <ℚ period }
    ensures { IfOk result (λ v. AreLeads side end period times.now v.items) }
{
    let mut found = Vec::new(alloc);
    for t in times {
        push_not_led(&mut found, side, end, period, *t)?;
    }
    Ok(found)
}

/// The turns that the others are moved with: of those that are whole periods apart the first, or the last; all of them,
/// where there is no period.
pub(crate) fn leads_of(
    alloc: Global,
    turns: &[Frac],
    side: Side,
    end: Frac,
    cycle: &Option<Frac>,
) -> Result<Vec<Frac>, AllocError>
    requires { IfSome cycle.now (λ period. int (pos 0) <ℚ period) }
    ensures { IfOk result (λ v. AreLeadsBy side end cycle.now turns.now v.items) }
{
    match cycle {
        None => Vec::from_slice(alloc, turns),
        Some(period) => {
            let times = by_class(alloc, turns, side, *period)?;
            not_led(alloc, &times, side, end, *period)
        }
    }
}
