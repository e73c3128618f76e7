//! The deconvolution of two curves.

ghost use Rattle.std.specs.Prelude.{◌≡◌, ◌↔◌, ◌+◌, pos, IfOk, IsTrue};
ghost use Rattle.rational.specs.Rational.{ℚ, int, ◌≤ℚ◌};
ghost use Rattle.rational.specs.Extended.{◌<ₑ◌};
ghost use Rattle.upp_curve.specs.Curve.{value_at};
ghost use Rattle.upp_curve.specs.Curves.{IsCurve};
ghost use Rattle.min_plus.specs.Convolution.{IsDeconvolution};
ghost use Rattle.min_plus.specs.Functions.{IsFinite};
ghost use Rattle.upp_curve.specs.Steady.{rate, steady};
ghost use Rattle.upp_limits.specs.Outcome.{KeepsLimits};
ghost use Rattle.upp_limits.specs.declared.op_kind.OpKind.TheVariants.{Deconvolve};
ghost use Rattle.curve_call.specs.Frames.{IsFrame};
ghost use Rattle.curve_call.specs.Times.{OneLaterFits};

use crate::window::window_deconvolution;
use curve_call::{Frame, Side, answer, begin, is_slower, period_or, rise_over, within};
use fraction128::difference;
use outcomes::Steps;
use plain_operators::pointwise::infinite_curve;
use std::alloc::{AllocError, Global};
use std::sync::ledger::Ledger;
use upp_curve::Curve;
use upp_limits::{OpFault, OpKind};
use upp_normal::unrolled;

// The deconvolution of two curves in a call within both limits, where the first is not the faster.
fn deconvolved_within(
    alloc: Global,
    f: &Curve,
    g: &Curve,
    frame: &Frame,
) -> Result<Curve, AllocError>
    requires frame { IsFrame Deconvolve f.now g.now 0 0 frame.now }
    requires finite { IsFinite (value_at g.now) }
    requires slow { ¬ (rate g.now <ₑ rate f.now) }
    ensures value { IfOk result
        (λ c. (t : ℚ) → int (pos 0) ≤ℚ t → IsDeconvolution (value_at f.now) (value_at g.now) t (value_at c t)) }
    ensures finite { IsFinite (value_at f.now) → IfOk result (λ c. IsFinite (value_at c)) }
{
    let left = unrolled(f, frame.end)?;
    let right = unrolled(g, frame.end)?;
    let from = begin(f);
    let period = period_or(f, frame.period);
    let past = difference(frame.end, from);
    let reach = difference(past, period);
    let pieces = window_deconvolution(alloc, &left, &right, reach, frame.end)?;
    let rise = rise_over(f, period);
    answer(alloc, pieces, from, period, rise, frame.times, frame.values)
}

// Whether the first curve is the faster one.
fn is_faster(f: &Curve, g: &Curve) -> bool
    ensures faster { IsTrue result ↔ (rate g.now <ₑ rate f.now) }
    ensures kept { IsCurve f.now × IsCurve g.now }
{
    f.keeps();
    g.keeps();
    is_slower(&Side::of(g), &Side::of(f))
}

// The deconvolution where the first is the faster: infinity, whatever the sizes are.
fn faster_answer(alloc: Global, f: &Curve, g: &Curve) -> Result<Curve, OpFault>
    requires curves { IsCurve f.now × IsCurve g.now }
    requires finite { IsFinite (value_at g.now) }
    requires faster { rate g.now <ₑ rate f.now }
    ensures value { IfOk result
        (λ c. (t : ℚ) → int (pos 0) ≤ℚ t → IsDeconvolution (value_at f.now) (value_at g.now) t (value_at c t)) }
    ensures limits { KeepsLimits Deconvolve f.now g.now result }
{
    Ok(infinite_curve(alloc)?)
}

// The deconvolution where the first is not the faster.
fn slower_answer(alloc: Global, f: &Curve, g: &Curve) -> Result<Curve, OpFault>
    requires finite { IsFinite (value_at g.now) }
    requires slow { ¬ (rate g.now <ₑ rate f.now) }
    ensures value { IfOk result
        (λ c. (t : ℚ) → int (pos 0) ≤ℚ t → IsDeconvolution (value_at f.now) (value_at g.now) t (value_at c t)) }
    ensures finite { IsFinite (value_at f.now) → IfOk result (λ c. IsFinite (value_at c)) }
    ensures limits { KeepsLimits Deconvolve f.now g.now result }
{
    let frame = within(&OpKind::Deconvolve, f, g, 0)?;
    Ok(deconvolved_within(alloc, f, g, &frame)?)
}

/// At each time t from 0 on the supremum of f(t + u) - g(u) over all u from 0 on (Le Boudec and Thiran, chapter 3); a
/// limit that no time takes counts. g is finite. Negative values stay negative; the answer is infinite everywhere
/// where f is the faster, and else exactly where f is infinite at t or later. So it is finite where f is finite and
/// not the faster. One step is counted. Refused with TooWide or TooMany exactly where the call's gauge or tally is
/// over that limit, never where f is the faster; else only for want of memory.
pub fn deconvolve<L: Ledger>(
    alloc: Global,
    f: &Curve,
    g: &Curve,
    steps: &mut Steps<L>,
) -> Result<Curve, OpFault>
    requires { IsFinite (value_at g.now) }
    ensures count { steps.new ≡ steps.old + 1 }
    ensures value { IfOk result
        (λ c. (t : ℚ) → int (pos 0) ≤ℚ t → IsDeconvolution (value_at f.now) (value_at g.now) t (value_at c t)) }
    ensures finite { IsFinite (value_at f.now) → ¬ (rate g.now <ₑ rate f.now)
        → IfOk result (λ c. IsFinite (value_at c)) }
    ensures limits { KeepsLimits Deconvolve f.now g.now result }
{
    steps.tick();
    if is_faster(f, g) {
        return faster_answer(alloc, f, g);
    }
    slower_answer(alloc, f, g)
}
