//! The numbers of periods of a horizontal deviation: after how many the first curve has left the level at which the
//! second begins to repeat, and after how many more the second has reached the first.

ghost use Rattle.std.specs.Prelude.{ℕ, ◌≡◌, ◌-◌, ◌<◌, ◌≤◌, ◌^◌, IsTrue, MatchOption};
ghost use Rattle.rational.specs.Rational.{◌-ℚ◌, neg_ℚ};
ghost use Rattle.rational.specs.Ratio.{SumFits};
ghost use Rattle.upp_curve.specs.Curve.{value_at};
ghost use Rattle.upp_curve.specs.Curves.{IsCurve};
ghost use Rattle.upp_limits.specs.Limits.{Sizes};
ghost use Rattle.upp_normal.specs.Ahead.{IsTimeIn};
ghost use Rattle.upp_limits.specs.Gauges.{gauge_at};
ghost use Rattle.curve_deviation.specs.Parts.{IsFiniteInSizes};
ghost use Rattle.curve_deviation.specs.Stages.{IsNarrowWindow, AreFinite, HasLeft, HasReached, Meets, stage_gauge, IsBefore, IsPast};

use crate::parts::part_at;
use curve_call::{CallWindow, call_window};
use fraction128::{Frac, difference, is_less};
use rational::Extended;
use upp_curve::Curve;
use upp_limits::{OpKind, narrow_grids};

/// What is looked for.
#[derive(Clone, Copy)]
pub(crate) enum Stage {
    /// After how many periods the first curve is above the level.
    First { level: Frac },
    /// After how many periods more than `first` the second is at the level or above it.
    Second { first: u128, level: Frac },
}

/// The window with k and m periods, where its gauge is below 2^120.
pub(crate) fn narrow_window(f: &Curve, g: &Curve, k: u128, m: u128) -> Option<CallWindow>
    ensures window { MatchOption result (2 ^ 120 ≤ gauge_at OpKind.Horizontal f.now g.now k m)
        (IsNarrowWindow f.now g.now k m) }
    ensures kept { IsCurve f.now × IsCurve g.now }
{
    let op = OpKind::Horizontal;
    let window = call_window(&op, f, g, k, m)?;
    narrow_grids(&op, f, g, window.end)?;
    Some(window)
}

/// The window with k and m periods, of which the gauge is known to be below 2^120.
pub(crate) fn known_window(f: &Curve, g: &Curve, k: u128, m: u128) -> CallWindow
    requires { gauge_at OpKind.Horizontal f.now g.now k m < 2 ^ 120 }
    ensures window { IsNarrowWindow f.now g.now k m result }
    ensures kept { IsCurve f.now × IsCurve g.now }
{
    f.keeps();
    g.keeps();
    match call_window(&OpKind::Horizontal, f, g, k, m) {
        Some(window) => window,
        None => CallWindow {
            start: Frac::zero(),
            period: Frac::zero(),
            end: Frac::zero(),
        },
    }
}

/// The value of a finite curve at a time of a window.
pub(crate) fn value_in(c: &Curve, t: Frac, end: Frac) -> Frac
    requires { (z : Sizes) × IsFiniteInSizes z end c.now × IsTimeIn z end t }
    ensures { value_at c.now t ≡ Extended.Fin result }
{
    match part_at(c, t, end).at {
        Extended::Fin(value) => value,
        Extended::Inf => Frac::zero(),
    }
}

/// Whether after some periods the first curve is above the level, by its value a period after the start of the window
/// with so many.
pub(crate) fn has_left(f: &Curve, g: &Curve, level: Frac, window: &CallWindow) -> bool
    requires both { AreFinite f.now g.now }
    requires window { (k : ℕ) × IsNarrowWindow f.now g.now k 0 window.now }
    ensures left { (k : ℕ) → IsNarrowWindow f.now g.now k 0 window.now → IsTrue result → HasLeft level f.now g.now k }
    ensures before { (k : ℕ) → IsNarrowWindow f.now g.now k 0 window.now → ¬ (IsTrue result)
        → ¬ (HasLeft level f.now g.now k) }
{
    f.keeps();
    g.keeps();
    let time = difference(difference(window.end, window.period), window.period);
    let value = value_in(f, time, window.end);
    is_less(level, value)
}

/// Whether the second curve is still below the level, a period before the window's end.
pub(crate) fn is_below(f: &Curve, g: &Curve, level: Frac, window: &CallWindow) -> bool
    requires both { AreFinite f.now g.now }
    requires window { (first : ℕ) × (k : ℕ) × IsNarrowWindow f.now g.now first k window.now }
    ensures below { (first k : ℕ) → IsNarrowWindow f.now g.now first k window.now → IsTrue result
        → ¬ (HasReached first level f.now g.now k) }
    ensures reached { (first k : ℕ) → IsNarrowWindow f.now g.now first k window.now → ¬ (IsTrue result)
        → HasReached first level f.now g.now k }
{
    f.keeps();
    g.keeps();
    let time = difference(window.end, window.period);
    let value = value_in(g, time, window.end);
    is_less(value, level)
}

/// Whether after k periods the first curve is not above the level yet, and the gauge so far is below 2^120.
fn is_first_before(f: &Curve, g: &Curve, level: Frac, k: u128) -> bool
    requires { AreFinite f.now g.now }
    ensures before { IsTrue result
        → IsBefore (HasLeft level f.now g.now k) (gauge_at OpKind.Horizontal f.now g.now k 0) }
    ensures past { ¬ (IsTrue result)
        → IsPast (HasLeft level f.now g.now k) (gauge_at OpKind.Horizontal f.now g.now k 0) }
{
    match narrow_window(f, g, k, 0) {
        None => false,
        Some(window) => {
            if has_left(f, g, level, &window) {
                false
            } else {
                true
            }
        }
    }
}

/// Whether after k more periods the second curve is still below the level, and the gauge so far is below 2^120.
fn is_second_before(f: &Curve, g: &Curve, first: u128, level: Frac, k: u128) -> bool
    requires { AreFinite f.now g.now }
    ensures before { IsTrue result
        → IsBefore (HasReached first level f.now g.now k) (gauge_at OpKind.Horizontal f.now g.now first k) }
    ensures past { ¬ (IsTrue result)
        → IsPast (HasReached first level f.now g.now k) (gauge_at OpKind.Horizontal f.now g.now first k) }
{
    match narrow_window(f, g, first, k) {
        None => false,
        Some(window) => {
            if is_below(f, g, level, &window) {
                true
            } else {
                false
            }
        }
    }
}

/// Whether k periods are not enough, and the gauge so far is below 2^120.
fn is_before(f: &Curve, g: &Curve, stage: &Stage, k: u128) -> bool
    requires { AreFinite f.now g.now }
    ensures before { IsTrue result → IsBefore (Meets stage.now f.now g.now k) (stage_gauge stage.now f.now g.now k) }
    ensures past { ¬ (IsTrue result) → IsPast (Meets stage.now f.now g.now k) (stage_gauge stage.now f.now g.now k) }
    ensures kept { IsCurve f.now × IsCurve g.now }
{
    f.keeps();
    g.keeps();
    match *stage {
        Stage::First { level } => is_first_before(f, g, level, k),
        Stage::Second { first, level } => is_second_before(f, g, first, level, k),
    }
}

/// A power of 2, past which the number that is looked for is not: by doubling.
fn width_of(f: &Curve, g: &Curve, stage: &Stage) -> u128
    requires { AreFinite f.now g.now }
    ensures some { 1 ≤ result }
    ensures few { result ≤ 2 ^ 116 }
    ensures past { IsPast (Meets stage.now f.now g.now (result - 1)) (stage_gauge stage.now f.now g.now (result - 1)) }
{
    let mut width: u128 = 1;
    while is_before(f, g, stage, width - 1) {
        width = width * 2;
    }
    width
}

/// The least number of periods with which the stage is met or its gauge is 2^120 or more: by doubling and halving,
/// since what is met stays met, and the gauge does not fall.
pub(crate) fn least_past(f: &Curve, g: &Curve, stage: &Stage) -> u128
    requires { AreFinite f.now g.now }
    ensures below { (i : ℕ) → i < result → ¬ (Meets stage.now f.now g.now i) }
    ensures past { IsPast (Meets stage.now f.now g.now result) (stage_gauge stage.now f.now g.now result) }
{
    let mut low: u128 = 0;
    let mut width = width_of(f, g, stage);
    while width > 1 {
        let half = width / 2;
        if is_before(f, g, stage, low + half - 1) {
            low = low + half;
            width = width - half;
        } else {
            width = half;
        }
    }
    low
}
