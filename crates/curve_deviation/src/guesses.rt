//! The numbers of periods of a horizontal deviation, by a division each and one more where the second curve repeats late:
//! what they are is only held to be likely here, and looked at afterwards.

ghost use Rattle.std.specs.Prelude.{IfSome};
ghost use Rattle.rational.specs.Rational.{ℚ, int};
ghost use Rattle.curve_call.specs.CallWindows.{IsWindow};

use curve_call::{CallWindow, call_window};
use fraction128::{Frac, is_less};
use rational::Extended;
use upp_curve::Curve;
use upp_limits::curve_numbers::whole;
use upp_limits::{OpKind, is_level};
use upp_normal::steady_time;

/// After how many periods the first curve has settled, and after how many more the second has reached it.
#[derive(Clone, Copy)]
pub(crate) struct Guess {
    pub(crate) first: u128,
    pub(crate) second: u128,
    /// The window with no period more.
    pub(crate) window: CallWindow,
}

/// The value of a curve at a time, where it is a number and the steps to it fit.
fn value_if(c: &Curve, t: Frac) -> Option<Frac> {
    if is_less(t, Frac::zero()) {
        return None;
    }
    match c.value_at(t) {
        Ok(Extended::Fin(value)) => Some(value),
        _ => None,
    }
}

/// How many parts of one size make a gap. None where that size is not above 0.
fn parts_in(gap: Frac, part: Frac) -> Option<Frac> {
    if !is_less(Frac::zero(), part) {
        return None;
    }
    Frac::div(gap, part).ok()
}

/// How much a curve rises over a period from when it repeats on.
fn rise_later(c: &Curve, period: Frac) -> Option<Frac> {
    match c.rate() {
        Ok(Extended::Fin(rate)) => Frac::mul(rate, period).ok(),
        _ => None,
    }
}

/// How often a curve that repeats has to rise as much as over a period to get from a value to a level.
fn times_risen(c: &Curve, period: Frac, value: Frac, level: Frac) -> Option<Frac> {
    let Ok(gap) = Frac::sub(level, value) else {
        return None;
    };
    let rise = rise_later(c, period)?;
    parts_in(gap, rise)
}

/// The value of a curve at the time from when on it repeats.
fn steady_value(c: &Curve) -> Option<Frac> {
    let t = steady_time(c)?;
    value_if(c, t)
}

/// After how many periods f is above the level at which g begins to repeat.
fn first_guess(f: &Curve, g: &Curve, window: &CallWindow) -> Option<u128> {
    if is_level(f) {
        return Some(0);
    }
    let level = steady_value(g)?;
    let value = value_if(f, window.start)?;
    if is_less(level, value) {
        return Some(0);
    }
    let times = times_risen(f, window.period, value, level)?;
    times.whole_part().size_up().checked_add(1)
}

/// The time so many periods after the start of a window.
fn time_after(window: &CallWindow, periods: u128) -> Option<Frac> {
    let count = whole(periods)?;
    let Ok(wait) = Frac::mul(count, window.period) else {
        return None;
    };
    Frac::add(window.start, wait).ok()
}

/// After how many periods more than until a time a curve repeats.
fn late_periods(c: &Curve, t: Frac, period: Frac) -> Option<u128> {
    let steady = steady_time(c)?;
    if !is_less(t, steady) {
        return Some(0);
    }
    let Ok(wait) = Frac::sub(steady, t) else {
        return None;
    };
    let parts = parts_in(wait, period)?;
    Some(parts.size_up())
}

/// After how many periods more than until f has settled g has a level: so many, `late` of them before a time at which g
/// repeats and has the value, and those that it rises from then on.
fn late_guess(g: &Curve, level: Frac, late: u128, value: Frac, period: Frac) -> Option<u128> {
    if !is_less(value, level) {
        return Some(late);
    }
    let times = times_risen(g, period, value, level)?;
    late.checked_add(times.size_up())
}

/// After how many periods more than until f has settled, as many after the window's start, g is no lower than f is then:
/// counted from the first of these times at which g repeats, since before it a rise tells nothing of the next.
fn second_guess(f: &Curve, g: &Curve, settled: u128, window: &CallWindow) -> Option<u128> {
    let turn = time_after(window, settled)?;
    let level = value_if(f, turn)?;
    let early = value_if(g, turn)?;
    if !is_less(early, level) {
        return Some(0);
    }
    let late = late_periods(g, turn, window.period)?;
    if late == 0 {
        return late_guess(g, level, 0, early, window.period);
    }
    let from = time_after(window, settled.checked_add(late)?)?;
    let value = value_if(g, from)?;
    late_guess(g, level, late, value, window.period)
}

/// Both numbers, where the steps to them fit: right where g reaches f only from when it repeats on, or in the period
/// before that.
pub(crate) fn likely_numbers(f: &Curve, g: &Curve) -> Option<Guess>
    ensures { IfSome result (λ n. IsWindow OpKind.Horizontal f.now g.now 0 0 n.window) }
{
    let window = call_window(&OpKind::Horizontal, f, g, 0, 0)?;
    let first = first_guess(f, g, &window)?;
    let second = second_guess(f, g, first.checked_add(1)?, &window)?;
    Some(Guess {
        first,
        second,
        window,
    })
}
