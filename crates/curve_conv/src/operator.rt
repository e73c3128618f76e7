//! The convolution of two curves.

ghost use Rattle.std.specs.Prelude.{◌≡◌, ◌+◌, pos, IfOk, IfErr, IfSome};
ghost use Rattle.rational.specs.Rational.{ℚ, int, ◌-ℚ◌, ◌≤ℚ◌, neg_ℚ};
ghost use Rattle.rational.specs.Ratio.{SumFits};
ghost use Rattle.rational.specs.Extended.{◌<ₑ◌};
ghost use Rattle.upp_curve.specs.Curve.{value_at};
ghost use Rattle.min_plus.specs.Convolution.{IsConvolution};
ghost use Rattle.upp_curve.specs.Steady.{rate, rise_over};
ghost use Rattle.upp_curve.specs.Unrolled.{unroll};
ghost use Rattle.upp_curve.specs.Curves.{IsCurve};
ghost use Rattle.upp_limits.specs.Outcome.{IsWithin, IsCauseOf, KeepsLimits};
ghost use Rattle.upp_limits.specs.declared.op_kind.OpKind.TheVariants.{Convolve};
ghost use Rattle.curve_call.specs.FirstWindows.{IsFirstWindow};
ghost use Rattle.curve_call.specs.Rises.{CurveRiseFits};
ghost use Rattle.plain_operators.specs.pointwise.Lattice.{RisesBy};
ghost use Rattle.element_envelope.specs.ConvolutionWindows.{IsConvolutionWindow};
ghost use Rattle.curve_conv.specs.ConvolveCall.{IsConvolveFrame};

use crate::{is_slower_curve, late_bounds, late_periods};
use curve_call::{
    CallWindow, Frame, first_window, framed_answer, refuse_between, rise_over, within,
};
use element_envelope::window_convolution;
use fraction128::{Frac, difference};
use outcomes::Steps;
use std::alloc::{AllocError, Global};
use std::sync::ledger::Ledger;
use upp_curve::Curve;
use upp_curve::affine_segment::Piece;
use upp_limits::{OpFault, OpKind, tally_over};
use upp_normal::unrolled;

// By how much the slower of two curves rises over a period.
fn slower_rise(f: &Curve, g: &Curve, period: Frac) -> Frac
    requires first { CurveRiseFits f.now period }
    requires second { CurveRiseFits g.now period }
    ensures { RisesBy (rate g.now <ₑ rate f.now) (rise_over g.now period) (rise_over f.now period) result }
{
    if is_slower_curve(g, f) {
        return rise_over(g, period);
    }
    rise_over(f, period)
}

// From when on the convolution repeats, and by how much it rises in each period from then on.
fn repetition(f: &Curve, g: &Curve, frame: &Frame) -> (Frac, Frac)
    requires first { CurveRiseFits f.now frame.now.period }
    requires second { CurveRiseFits g.now frame.now.period }
    requires fits { SumFits frame.now.end (neg_ℚ frame.now.period) }
    ensures from { result.0 ≡ frame.now.end -ℚ frame.now.period }
    ensures rise { RisesBy (rate g.now <ₑ rate f.now) (rise_over g.now frame.now.period)
        (rise_over f.now frame.now.period) result.1 }
{
    (
        difference(frame.end, frame.period),
        slower_rise(f, g, frame.period),
    )
}

// The pieces of the convolution in the window of a call within both limits. What is written out of the operands is let go
// here, before the answer is made.
fn convolved_pieces(
    alloc: Global,
    f: &Curve,
    g: &Curve,
    frame: &Frame,
) -> Result<Vec<Piece>, AllocError>
    requires { IsConvolveFrame f.now g.now frame.now }
    ensures { IfOk result (λ v. IsConvolutionWindow (unroll f.now frame.now.end) (unroll g.now frame.now.end) frame.now.end v.items) }
{
    let left = unrolled(f, frame.end)?;
    let right = unrolled(g, frame.end)?;
    window_convolution(alloc, &left, &right, frame.end)
}

// The convolution of two curves in a call within both limits, where the number of periods is enough.
fn convolved_within(alloc: Global, f: &Curve, g: &Curve, frame: &Frame) -> Result<Curve, AllocError>
    requires { IsConvolveFrame f.now g.now frame.now }
    ensures { IfOk result (λ c. (t : ℚ) → int (pos 0) ≤ℚ t
        → IsConvolution (value_at f.now) (value_at g.now) t (value_at c t)) }
{
    let pieces = convolved_pieces(alloc, f, g, frame)?;
    let repeats = repetition(f, g, frame);
    framed_answer(alloc, pieces, repeats.0, repeats.1, frame)
}

// The frame with the least number of periods.
fn least_frame(
    alloc: Global,
    f: &Curve,
    g: &Curve,
    first: &CallWindow,
    from: Frac,
) -> Result<Frame, OpFault>
    requires curves { IsCurve f.now × IsCurve g.now }
    requires window { IsFirstWindow Convolve f.now g.now first.now }
    requires from { from ≡ first.now.end -ℚ first.now.period }
    ensures frame { IfOk result (IsConvolveFrame f.now g.now) }
    ensures limits { KeepsLimits Convolve f.now g.now result }
{
    let Some(periods) = late_periods(alloc, f, g, from, first.period, first.end) else {
        return Err(OpFault::TooWide);
    };
    within(&OpKind::Convolve, f, g, periods)
}

// The frame with the upper bound of the number of periods, where the call is within both limits with it, and not much
// larger than with none; else none, as where there are no bounds. Refused where both bounds tell it.
fn frame_between(
    f: &Curve,
    g: &Curve,
    first: &CallWindow,
    from: Frac,
) -> Result<Option<Frame>, OpFault>
    requires curves { IsCurve f.now × IsCurve g.now }
    requires window { IsFirstWindow Convolve f.now g.now first.now }
    requires from { from ≡ first.now.end -ℚ first.now.period }
    ensures frame { IfOk result (λ o. IfSome o (λ r. IsConvolveFrame f.now g.now r × IsWithin Convolve f.now g.now)) }
    ensures refused { IfErr result (IsCauseOf Convolve f.now g.now) }
{
    let kind = OpKind::Convolve;
    let Some(bounds) = late_bounds(f, g, from, first.period, first.end) else {
        return Ok(None);
    };
    match within(&kind, f, g, bounds.high) {
        Ok(frame) => {
            // To look for the least number costs a few times the pairs of the first window.
            if tally_over(&kind, f, g, frame.end) / 32 > tally_over(&kind, f, g, first.end) {
                return Ok(None);
            }
            Ok(Some(frame))
        }
        Err(_) => {
            refuse_between(&kind, f, g, bounds.low, bounds.high)?;
            Ok(None)
        }
    }
}

// The frame with no period, where the call is within both limits with it and bounds tell that none is enough; mostly it is.
fn frame_at_once(f: &Curve, g: &Curve) -> Option<Frame>
    ensures { IfSome result (λ r. IsConvolveFrame f.now g.now r × IsWithin Convolve f.now g.now) }
{
    let Ok(frame) = within(&OpKind::Convolve, f, g, 0) else {
        return None;
    };
    let late = difference(frame.end, frame.period);
    let Some(bounds) = late_bounds(f, g, late, frame.period, frame.end) else {
        return None;
    };
    if bounds.high > 0 {
        return None;
    }
    Some(frame)
}

// The frame where no period may not be enough: with the upper bound, or with the least number.
fn searched_frame(alloc: Global, f: &Curve, g: &Curve) -> Result<Frame, OpFault>
    ensures frame { IfOk result (IsConvolveFrame f.now g.now) }
    ensures limits { KeepsLimits Convolve f.now g.now result }
{
    let first = first_window(&OpKind::Convolve, f, g)?;
    let from = difference(first.end, first.period);
    match frame_between(f, g, &first, from)? {
        Some(frame) => Ok(frame),
        None => least_frame(alloc, f, g, &first, from),
    }
}

/// The frame of the call, with a number of periods that is enough for the slower curve's part to have the least sums.
/// Refused with TooWide or TooMany exactly where the call is over that limit. The least number is looked for only where
/// bounds of it tell too little.
pub fn convolve_frame(alloc: Global, f: &Curve, g: &Curve) -> Result<Frame, OpFault>
    ensures frame { IfOk result (IsConvolveFrame f.now g.now) }
    ensures limits { KeepsLimits Convolve f.now g.now result }
{
    match frame_at_once(f, g) {
        Some(frame) => Ok(frame),
        None => searched_frame(alloc, f, g),
    }
}

/// At each time t from 0 on the infimum of f(s) + g(u) over all s and u from 0 on whose sum is t (Le Boudec and
/// Thiran, chapter 3). The curves may be infinite anywhere. One step is counted. Refused with TooWide or TooMany
/// exactly where the call's gauge or tally is over that limit, or no number of periods is enough for the slower
/// curve's part to have the least sums (TooWide); else only for want of memory.
pub fn convolve<L: Ledger>(
    alloc: Global,
    f: &Curve,
    g: &Curve,
    steps: &mut Steps<L>,
) -> Result<Curve, OpFault>
    ensures count { steps.new ≡ steps.old + 1 }
    ensures value { IfOk result (λ c. (t : ℚ) → int (pos 0) ≤ℚ t
        → IsConvolution (value_at f.now) (value_at g.now) t (value_at c t)) }
    ensures limits { KeepsLimits Convolve f.now g.now result }
{
    steps.tick();
    let frame = convolve_frame(alloc, f, g)?;
    match convolved_within(alloc, f, g, &frame) {
        Ok(c) => Ok(c),
        Err(_) => Err(OpFault::NoMemory),
    }
}
