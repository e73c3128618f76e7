//! The vertical deviation of two curves.

ghost use Rattle.std.specs.Prelude.{◌≡◌, ◌↔◌, ◌+◌, IfOk, IfErr, IsTrue};
ghost use Rattle.rational.specs.Rational.{◌+ℚ◌};
ghost use Rattle.rational.specs.Ratio.{SumFits};
ghost use Rattle.rational.specs.Extended.{◌<ₑ◌};
ghost use Rattle.upp_curve.specs.Curve.{value_at};
ghost use Rattle.min_plus.specs.Functions.{IsFinite};
ghost use Rattle.upp_curve.specs.Steady.{rate};
ghost use Rattle.upp_limits.specs.Limits.{Sizes};
ghost use Rattle.min_plus.specs.Deviations.{IsVerticalDeviation};
ghost use Rattle.upp_curve.specs.Curves.{IsCurve};
ghost use Rattle.upp_limits.specs.Outcome.{KeepsLimits};
ghost use Rattle.curve_call.specs.Frames.{IsFrame};
ghost use Rattle.curve_call.specs.Compared.{AreCompared};

use curve_call::{Frame, Gap, Side, is_slower, window_gap, within};
use fraction128::{Ext, Frac, sum};
use outcomes::Steps;
use rational::Extended;
use std::sync::ledger::Ledger;
use upp_curve::Curve;
use upp_limits::{OpFault, OpKind};

/// The vertical deviation of two finite curves, the first no faster than the second: the supremum of their difference
/// over all times from 0 on, read off the times below from + period alone. Both repeat from `from` on with the period,
/// and their numbers below from + period have the sizes z of a gauge below 2^120. No memory is taken and nothing is
/// unrolled.
fn vertical_within(f: &Curve, g: &Curve, from: Frac, period: Frac) -> Ext
    requires window { (z : Sizes) × AreCompared z from period f.now g.now }
    requires first { IsFinite (value_at f.now) }
    requires second { IsFinite (value_at g.now) }
    requires slow { ¬ (rate g.now <ₑ rate f.now) }
    ensures { IsVerticalDeviation (value_at f.now) (value_at g.now) result }
{
    let end = sum(from, period);
    match window_gap(f, g, Frac::zero(), end) {
        Gap::Is(gap) => Extended::Fin(gap),
        Gap::NoTime => Extended::Inf,
        Gap::Never => Extended::Inf,
    }
}

/// The vertical deviation of a call within both limits.
fn vertical_in(f: &Curve, g: &Curve, frame: &Frame) -> Ext
    requires frame { IsFrame OpKind.Vertical f.now g.now 0 0 frame.now }
    requires first { IsFinite (value_at f.now) }
    requires second { IsFinite (value_at g.now) }
    requires slow { ¬ (rate g.now <ₑ rate f.now) }
    ensures { IsVerticalDeviation (value_at f.now) (value_at g.now) result }
{
    vertical_within(f, g, frame.start, frame.period)
}

/// Whether the curve is a number at each time.
pub(crate) fn is_number(f: &Curve) -> bool
    ensures finite { IsTrue result ↔ IsFinite (value_at f.now) }
    ensures kept { IsCurve f.now }
{
    f.keeps();
    f.is_finite()
}

/// Whether the first curve is the faster one.
pub(crate) fn is_faster(f: &Curve, g: &Curve) -> bool
    ensures faster { IsTrue result ↔ (rate g.now <ₑ rate f.now) }
    ensures kept { IsCurve g.now }
{
    g.keeps();
    is_slower(&Side::of(g), &Side::of(f))
}

/// The vertical deviation of two curves, the second finite: the supremum of f less g over all times from 0 on; infinity
/// where f is infinite somewhere or the faster one (Le Boudec and Thiran, chapter 3). It is not cut at 0. One step is
/// counted. Refused with TooWide or TooMany exactly where the call's gauge or tally is over that limit, and never for
/// want of memory, since none is taken.
pub fn vertical<L: Ledger>(f: &Curve, g: &Curve, steps: &mut Steps<L>) -> Result<Ext, OpFault>
    requires { IsFinite (value_at g.now) }
    ensures count { steps.new ≡ steps.old + 1 }
    ensures value { IfOk result (IsVerticalDeviation (value_at f.now) (value_at g.now)) }
    ensures limits { KeepsLimits OpKind.Vertical f.now g.now result }
    ensures memory { IfErr result (λ e. ¬ (e ≡ OpFault.NoMemory)) }
{
    steps.tick();
    if !is_number(f) {
        return Ok(Extended::Inf);
    }
    if is_faster(f, g) {
        return Ok(Extended::Inf);
    }
    let frame = within(&OpKind::Vertical, f, g, 0)?;
    Ok(vertical_in(f, g, &frame))
}
