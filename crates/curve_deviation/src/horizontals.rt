//! The horizontal deviation of two curves.

ghost use Rattle.std.specs.Prelude.{ℕ, ◌≡◌, ◌+◌, ◌<◌, ◌≤◌, ◌^◌, IfOk, IfErr, IfSome, IsSome, IsTrue, MatchOption};
ghost use Rattle.rational.specs.Rational.{ℚ, ◌<ℚ◌};
ghost use Rattle.upp_curve.specs.Curve.{value_at};
ghost use Rattle.min_plus.specs.Functions.{IsFinite, IsRising};
ghost use Rattle.upp_curve.specs.Steady.{steady};
ghost use Rattle.upp_limits.specs.Limits.{Sizes};
ghost use Rattle.upp_limits.specs.Gauges.{IsKnownAtOnce, gauge_at};
ghost use Rattle.min_plus.specs.Deviations.{IsHorizontalDeviation};
ghost use Rattle.upp_limits.specs.Outcome.{KeepsLimits};
ghost use Rattle.curve_call.specs.CallWindows.{IsWindow};
ghost use Rattle.curve_call.specs.Frames.{IsFrame};
ghost use Rattle.curve_deviation.specs.Parts.{IsFiniteInSizes};
ghost use Rattle.curve_deviation.specs.Stages.{AreFinite, IsNarrowWindow, IsWideCall, IsFirst, IsSettledAt, AreFound, HasLeft, HasReached, settled, IsFoundCall, IsEnough};

use crate::guesses::{Guess, likely_numbers};
use crate::known::is_known;
use crate::search::{Stage, has_left, is_below, known_window, least_past, narrow_window, value_in};
use crate::walks::longest_lag;
use curve_call::{CallWindow, Frame, within_both};
use fraction128::{Ext, Frac, difference};
use outcomes::Steps;
use rational::Extended;
use std::sync::ledger::Ledger;
use upp_curve::Curve;
use upp_limits::{OpFault, OpKind, is_level};
use upp_normal::steady_time;

/// A time and the first curve's value there.
#[derive(Clone, Copy)]
struct Turn {
    time: Frac,
    level: Frac,
}

/// The numbers of periods of a call, and the time from which on no lag is longer.
#[derive(Clone, Copy)]
struct Periods {
    first: u128,
    second: u128,
    until: Frac,
}

/// A call within both limits, with its numbers of periods.
#[derive(Clone, Copy)]
struct FoundCall {
    periods: Periods,
    frame: Frame,
}

/// The value of a finite curve when it begins to repeat. None only where a step to it does not fit.
fn value_then(c: &Curve, time: Frac) -> Option<Frac>
    requires finite { IsFinite (value_at c.now) }
    requires time { time ≡ steady c.now }
    ensures value { IfSome result (λ v. value_at c.now time ≡ Extended.Fin v) }
    ensures fits { (z : Sizes) (end : ℚ) → IsFiniteInSizes z end c.now → steady c.now <ℚ end → IsSome result }
{
    c.keeps();
    match c.value_at(time) {
        Err(_) => None,
        Ok(value) => match value {
            Extended::Inf => None,
            Extended::Fin(level) => Some(level),
        },
    }
}

/// The value of a finite curve when it begins to repeat. None only where a step to it does not fit.
fn late_level(c: &Curve) -> Option<Frac>
    requires { IsFinite (value_at c.now) }
    ensures value { IfSome result (λ v. value_at c.now (steady c.now) ≡ Extended.Fin v) }
    ensures fits { (z : Sizes) (end : ℚ) → IsFiniteInSizes z end c.now → steady c.now <ℚ end → IsSome result }
{
    match steady_time(c) {
        None => None,
        Some(time) => value_then(c, time),
    }
}

/// After how many periods f has left the level at which g begins to repeat; 0 where f is constant from when it repeats.
/// None only where the call is too wide.
fn first_number(f: &Curve, g: &Curve) -> Option<u128>
    requires { AreFinite f.now g.now }
    ensures { MatchOption result (IsWideCall f.now g.now) (IsFirst f.now g.now) }
{
    f.keeps();
    g.keeps();
    if is_level(f) {
        return Some(0);
    }
    match late_level(g) {
        None => None,
        Some(level) => Some(least_past(f, g, &Stage::First { level })),
    }
}

/// The time when f has settled, a period before the end of a window without more periods, and the value of f there.
fn turn_in(f: &Curve, g: &Curve, window: &CallWindow) -> Turn
    requires both { AreFinite f.now g.now }
    requires window { (first : ℕ) × IsNarrowWindow f.now g.now first 0 window.now }
    ensures { (first : ℕ) → IsNarrowWindow f.now g.now first 0 window.now → IsSettledAt f.now g.now first result }
{
    f.keeps();
    g.keeps();
    let time = difference(window.end, window.period);
    let level = value_in(f, time, window.end);
    Turn { time, level }
}

/// The time a period after that, and the value of f there. None only where the call is too wide.
fn turn_after(f: &Curve, g: &Curve, first: u128) -> Option<Turn>
    requires { AreFinite f.now g.now }
    ensures turn { MatchOption result (2 ^ 120 ≤ gauge_at OpKind.Horizontal f.now g.now first 0)
        (IsSettledAt f.now g.now first) }
{
    match narrow_window(f, g, first, 0) {
        None => None,
        Some(window) => Some(turn_in(f, g, &window)),
    }
}

/// Both numbers of periods. None only where the call is too wide.
fn periods_of(f: &Curve, g: &Curve) -> Option<Periods>
    requires { AreFinite f.now g.now }
    ensures { MatchOption result (IsWideCall f.now g.now) (AreFound f.now g.now) }
{
    f.keeps();
    g.keeps();
    match first_number(f, g) {
        None => None,
        Some(first) => match turn_after(f, g, first) {
            None => None,
            Some(turn) => {
                let level = turn.level;
                let second = least_past(f, g, &Stage::Second { first, level });
                Some(Periods {
                    first,
                    second,
                    until: turn.time,
                })
            }
        },
    }
}

/// Whether g is at the level or above it when f has settled after k periods.
fn is_reached(f: &Curve, g: &Curve, level: Frac, k: u128) -> bool
    requires both { AreFinite f.now g.now }
    requires narrow { gauge_at OpKind.Horizontal f.now g.now k 0 < 2 ^ 120 }
    ensures { IsTrue result → HasReached k level f.now g.now 0 }
{
    let window = known_window(f, g, k, 0);
    if is_below(f, g, level, &window) {
        false
    } else {
        true
    }
}

/// So few periods, that g is at the level or above it when f has settled after them: by halving, while it is; `first`
/// where half of that are too few.
fn fewer_periods(f: &Curve, g: &Curve, level: Frac, first: u128) -> u128
    requires both { AreFinite f.now g.now }
    requires narrow { gauge_at OpKind.Horizontal f.now g.now first 0 < 2 ^ 120 }
    ensures few { result ≤ first }
    ensures reached { result < first → HasReached result level f.now g.now 0 }
{
    f.keeps();
    g.keeps();
    let mut k = first;
    while k > 0 {
        let half = k / 2;
        if !is_reached(f, g, level, half) {
            return k;
        }
        k = half;
    }
    k
}

/// A time up to which the walk is enough: from then on g is no lower than f is anywhere before it has settled, so that
/// it does not lie behind.
fn last_time(f: &Curve, g: &Curve, periods: &Periods) -> Frac
    requires both { AreFinite f.now g.now }
    requires narrow { gauge_at OpKind.Horizontal f.now g.now periods.now.first 0 < 2 ^ 120 }
    requires until { periods.now.until ≡ settled f.now g.now periods.now.first }
    ensures { IsEnough f.now g.now periods.now.first result }
{
    f.keeps();
    g.keeps();
    if periods.first == 0 {
        return periods.until;
    }
    let window = known_window(f, g, periods.first, 0);
    let turn = turn_in(f, g, &window);
    let k = fewer_periods(f, g, turn.level, periods.first);
    let early = known_window(f, g, k, 0);
    let sooner = turn_in(f, g, &early);
    sooner.time
}

/// The horizontal deviation of a call within both limits.
fn deviation_in(f: &Curve, g: &Curve, periods: &Periods, frame: &Frame) -> Ext
    requires both { AreFinite f.now g.now }
    requires known { ¬ (IsKnownAtOnce OpKind.Horizontal f.now g.now) }
    requires found { AreFound f.now g.now periods.now }
    requires frame { IsFrame OpKind.Horizontal f.now g.now periods.now.first periods.now.second frame.now }
    ensures { IsHorizontalDeviation (value_at f.now) (value_at g.now) result }
{
    f.keeps();
    g.keeps();
    let end = last_time(f, g, periods);
    Extended::Fin(longest_lag(f, g, end, frame.end))
}

/// Whether f has left the level after `first` periods, with which the window is, and not after fewer, in a call that is
/// not too wide.
fn leaves_at(f: &Curve, g: &Curve, level: Frac, numbers: &Guess, window: &CallWindow) -> bool
    requires both { AreFinite f.now g.now }
    requires narrow { gauge_at OpKind.Horizontal f.now g.now numbers.now.first numbers.now.second < 2 ^ 120 }
    requires window { IsNarrowWindow f.now g.now numbers.now.first 0 window.now }
    ensures below { IsTrue result → (i : ℕ) → i < numbers.now.first → ¬ (HasLeft level f.now g.now i) }
    ensures left { IsTrue result → HasLeft level f.now g.now numbers.now.first }
{
    f.keeps();
    g.keeps();
    let first = numbers.first;
    if !has_left(f, g, level, window) {
        return false;
    }
    if first == 0 {
        return true;
    }
    let before = known_window(f, g, first - 1, 0);
    if has_left(f, g, level, &before) {
        false
    } else {
        true
    }
}

/// Whether the first number is right, with which the window is.
fn is_first(f: &Curve, g: &Curve, numbers: &Guess, window: &CallWindow) -> bool
    requires both { AreFinite f.now g.now }
    requires narrow { gauge_at OpKind.Horizontal f.now g.now numbers.now.first numbers.now.second < 2 ^ 120 }
    requires window { IsNarrowWindow f.now g.now numbers.now.first 0 window.now }
    ensures { IsTrue result → IsFirst f.now g.now numbers.now.first }
{
    f.keeps();
    g.keeps();
    if is_level(f) {
        return numbers.first == 0;
    }
    match late_level(g) {
        None => false,
        Some(level) => leaves_at(f, g, level, numbers, window),
    }
}

/// Whether g has reached the level after `second` periods more, with which the window is, and not after fewer.
fn reaches_at(f: &Curve, g: &Curve, level: Frac, numbers: &Guess, window: &CallWindow) -> bool
    requires both { AreFinite f.now g.now }
    requires narrow { gauge_at OpKind.Horizontal f.now g.now numbers.now.first numbers.now.second < 2 ^ 120 }
    requires window { IsNarrowWindow f.now g.now numbers.now.first numbers.now.second window.now }
    ensures below { IsTrue result → (i : ℕ) → i < numbers.now.second
        → ¬ (HasReached numbers.now.first level f.now g.now i) }
    ensures reached { IsTrue result → HasReached numbers.now.first level f.now g.now numbers.now.second }
{
    f.keeps();
    g.keeps();
    let second = numbers.second;
    if is_below(f, g, level, window) {
        return false;
    }
    if second == 0 {
        return true;
    }
    let before = known_window(f, g, numbers.first, second - 1);
    if is_below(f, g, level, &before) {
        true
    } else {
        false
    }
}

/// The window with the first number of periods, which is known where that is none.
fn settled_window(f: &Curve, g: &Curve, numbers: &Guess) -> CallWindow
    requires narrow { gauge_at OpKind.Horizontal f.now g.now numbers.now.first 0 < 2 ^ 120 }
    requires window { IsWindow OpKind.Horizontal f.now g.now 0 0 numbers.now.window }
    ensures { IsNarrowWindow f.now g.now numbers.now.first 0 result }
{
    let first = numbers.first;
    if first == 0 {
        return numbers.window;
    }
    known_window(f, g, first, 0)
}

/// A call within both limits whose numbers of periods are as guessed; None where they are not, or the call is over a
/// limit with them.
fn guessed_call(f: &Curve, g: &Curve) -> Option<FoundCall>
    requires { AreFinite f.now g.now }
    ensures { IfSome result (IsFoundCall f.now g.now) }
{
    f.keeps();
    g.keeps();
    let numbers = likely_numbers(f, g)?;
    let Ok(frame) = within_both(&OpKind::Horizontal, f, g, numbers.first, numbers.second) else {
        return None;
    };
    let settled = settled_window(f, g, &numbers);
    if !is_first(f, g, &numbers, &settled) {
        return None;
    }
    let turn = turn_in(f, g, &settled);
    let whole = CallWindow {
        start: frame.start,
        period: frame.period,
        end: frame.end,
    };
    if !reaches_at(f, g, turn.level, &numbers, &whole) {
        return None;
    }
    let periods = Periods {
        first: numbers.first,
        second: numbers.second,
        until: turn.time,
    };
    Some(FoundCall { periods, frame })
}

/// The call with its numbers of periods: of most calls they are guessed right, and one look at the sizes is enough; else
/// they are looked for.
fn found_call(f: &Curve, g: &Curve) -> Result<FoundCall, OpFault>
    requires both { AreFinite f.now g.now }
    requires known { ¬ (IsKnownAtOnce OpKind.Horizontal f.now g.now) }
    ensures found { IfOk result (IsFoundCall f.now g.now) }
    ensures limits { KeepsLimits OpKind.Horizontal f.now g.now result }
    ensures memory { IfErr result (λ e. ¬ (e ≡ OpFault.NoMemory)) }
{
    f.keeps();
    g.keeps();
    if let Some(call) = guessed_call(f, g) {
        return Ok(call);
    }
    let Some(periods) = periods_of(f, g) else {
        return Err(OpFault::TooWide);
    };
    let frame = within_both(&OpKind::Horizontal, f, g, periods.first, periods.second)?;
    Ok(FoundCall { periods, frame })
}

/// The horizontal deviation that has to be looked for.
fn looked_for(f: &Curve, g: &Curve) -> Result<Ext, OpFault>
    requires both { AreFinite f.now g.now }
    requires known { ¬ (IsKnownAtOnce OpKind.Horizontal f.now g.now) }
    ensures value { IfOk result (IsHorizontalDeviation (value_at f.now) (value_at g.now)) }
    ensures limits { KeepsLimits OpKind.Horizontal f.now g.now result }
    ensures memory { IfErr result (λ e. ¬ (e ≡ OpFault.NoMemory)) }
{
    let call = found_call(f, g)?;
    Ok(deviation_in(f, g, &call.periods, &call.frame))
}

/// The horizontal deviation of two curves that rise, the second finite: the supremum, over all times t from 0 on, of
/// the infimum of the waits after which g is at least f(t); infinity where f is infinite somewhere, or the faster
/// one, or of rate 0 as g and above it in the end (Le Boudec and Thiran, chapter 3: the delay of an arrival curve at
/// a service curve). One step is counted. Refused with TooWide or TooMany exactly where the call's gauge or tally is
/// over that limit, and never for want of memory, since none is taken. The walk passes each stretch of the two in the
/// window once.
pub fn horizontal<L: Ledger>(f: &Curve, g: &Curve, steps: &mut Steps<L>) -> Result<Ext, OpFault>
    requires finite { IsFinite (value_at g.now) }
    requires rising { IsRising (value_at f.now) × IsRising (value_at g.now) }
    ensures count { steps.new ≡ steps.old + 1 }
    ensures value { IfOk result (IsHorizontalDeviation (value_at f.now) (value_at g.now)) }
    ensures limits { KeepsLimits OpKind.Horizontal f.now g.now result }
    ensures memory { IfErr result (λ e. ¬ (e ≡ OpFault.NoMemory)) }
{
    steps.tick();
    if is_known(f, g) {
        Ok(Extended::Inf)
    } else {
        looked_for(f, g)
    }
}
