//! By how much one curve is above another over a window.

ghost use Rattle.std.specs.Prelude.{◌≡◌, ◌↔◌, IsTrue, pos};
ghost use Rattle.rational.specs.Rational.{ℚ, int, ◌+ℚ◌, ◌-ℚ◌, ◌≤ℚ◌, ◌<ℚ◌, neg_ℚ};
ghost use Rattle.rational.specs.Ratio.{SumFits};
ghost use Rattle.rational.specs.MinMax.{max_q, min_q};
ghost use Rattle.rational.specs.Extended.{Ext};
ghost use Rattle.upp_curve.specs.affine_segment.Values.{line_value};
ghost use Rattle.upp_curve.specs.Curve.{value_at};
ghost use Rattle.upp_curve.specs.affine_segment.Fits.{LineFitsAt};
ghost use Rattle.upp_limits.specs.Limits.{Sizes};
ghost use Rattle.upp_normal.specs.Ahead.{GoesOn, HasWindow, IsTimeIn};
ghost use Rattle.curve_call.specs.Gaps.{InWindow, IsGap, IsGapUntil};
ghost use Rattle.curve_call.specs.GapSteps.{
  gap_of,
  larger,
  gap_along,
  DifferenceFits,
  GapFits,
  IsUntil,
  GapStands,
  earlier_of,
};

use crate::sides::Side;
use fraction128::{Ext, Frac, difference, greater, is_less, lesser};
use rational::Extended;
use upp_curve::Curve;
use upp_curve::affine_segment::line_value;
use upp_normal::Stretch;

/// By how much one function is above another over some times, where the other is finite.
#[derive(Debug, Clone, Copy)]
pub enum Gap {
    /// The other is finite at none of the times.
    NoTime,
    /// At some time the one is infinite and the other is not.
    Never,
    /// The least number that the one is nowhere more than above the other.
    Is(Frac),
}

/// By how much a is above b.
pub fn gap_of(a: Ext, b: Ext) -> Gap
    requires { DifferenceFits a b }
    ensures { result ≡ gap_of a b }
{
    match b {
        Extended::Inf => Gap::NoTime,
        Extended::Fin(y) => match a {
            Extended::Inf => Gap::Never,
            Extended::Fin(x) => Gap::Is(difference(x, y)),
        },
    }
}

/// The larger of two gaps.
pub fn larger(a: Gap, b: Gap) -> Gap
    ensures { result ≡ larger a b }
{
    match a {
        Gap::NoTime => b,
        Gap::Never => Gap::Never,
        Gap::Is(x) => match b {
            Gap::NoTime => Gap::Is(x),
            Gap::Never => Gap::Never,
            Gap::Is(y) => Gap::Is(greater(x, y)),
        },
    }
}

/// The gap from t up to `end`, where neither goes on otherwise before that.
pub fn stretch_gap(f: &Stretch, g: &Stretch, t: Frac, end: Frac) -> Gap
    requires fits { GapFits f.now g.now t end }
    requires some { t <ℚ end }
    ensures value { result ≡ gap_along f.now g.now t end }
    ensures gap { (slow fast : ℚ → Ext) → GoesOn slow t f.now → GoesOn fast t g.now → IsUntil end f.now.next
        → IsUntil end g.now.next
        → IsGap (InWindow t end) slow fast result }
{
    let start = gap_of(f.at, g.at);
    let after = gap_of(line_value(f.line, t), line_value(g.line, t));
    let before = gap_of(line_value(f.line, end), line_value(g.line, end));
    larger(start, larger(after, before))
}

/// The earlier of a time and another that may be missing.
pub fn earlier(t: Frac, next: &Option<Frac>) -> Frac
    ensures { result ≡ earlier_of t next.now }
{
    match next {
        None => t,
        Some(e) => { if is_less(*e, t) { *e } else { t } }
    }
}

/// By how much f is above g over [from, end), where g is finite, as `side_gap`; the times from `soon` on are left out, but
/// for what is left of a stretch of both that begins before.
pub fn gap_until(f: &Side, g: &Side, from: Frac, end: Frac, soon: Frac) -> Gap
    requires { (z : Sizes) × HasWindow z end f.now × HasWindow z end g.now × IsTimeIn z end from }
    ensures gap { IsGapUntil from end soon (value_at f.now) (value_at g.now) result }
    ensures sizes { (z : Sizes) → HasWindow z end f.now → HasWindow z end g.now → IsTimeIn z end from
        → GapStands z result }
{
    let last = lesser(end, soon);
    let mut gap = Gap::NoTime;
    let mut t = from;
    while is_less(t, last) {
        let slow = f.stretch(t);
        let fast = g.stretch(t);
        let next = earlier(earlier(end, &slow.next), &fast.next);
        gap = larger(gap, stretch_gap(&slow, &fast, t, next));
        t = next;
    }
    gap
}

/// By how much f is above g over [from, end), where g is finite, as `window_gap` of curves.
pub fn side_gap(f: &Side, g: &Side, from: Frac, end: Frac) -> Gap
    requires { (z : Sizes) × HasWindow z end f.now × HasWindow z end g.now × IsTimeIn z end from }
    ensures gap { IsGap (InWindow from end) (value_at f.now) (value_at g.now) result }
    ensures sizes { (z : Sizes) → HasWindow z end f.now → HasWindow z end g.now → IsTimeIn z end from
        → GapStands z result }
{
    gap_until(f, g, from, end, end)
}

/// By how much f is above g over [from, end), where g is finite: nothing is unrolled and no memory is taken. The
/// window's sizes z are those of a gauge below 2^120 over both curves' numbers; `from` stands on its grid, from 0 on
/// and before `end`.
pub fn window_gap(f: &Curve, g: &Curve, from: Frac, end: Frac) -> Gap
    requires { (z : Sizes) × HasWindow z end f.now × HasWindow z end g.now × IsTimeIn z end from }
    ensures gap { IsGap (InWindow from end) (value_at f.now) (value_at g.now) result }
    ensures sizes { (z : Sizes) → HasWindow z end f.now → HasWindow z end g.now → IsTimeIn z end from
        → GapStands z result }
{
    side_gap(&Side::of(f), &Side::of(g), from, end)
}
