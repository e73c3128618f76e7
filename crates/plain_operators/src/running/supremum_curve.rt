//! The running supremum of a curve.

ghost use Rattle.std.specs.Prelude.{◌≡◌, ◌+◌, ◌≤◌, ◌^◌, IfOk, MatchOption};
ghost use Rattle.rational.specs.Rational.{◌-ℚ◌, neg_ℚ};
ghost use Rattle.rational.specs.Ratio.{SumFits};
ghost use Rattle.upp_limits.specs.declared.op_kind.OpKind.TheVariants.{RunSup};
ghost use Rattle.upp_curve.specs.Curve.{value_at};
ghost use Rattle.upp_curve.specs.Curves.{IsCurve};
ghost use Rattle.min_plus.specs.Functions.{IsFinite, IsNonnegative};
ghost use Rattle.upp_limits.specs.Gauges.{gauge_at};
ghost use Rattle.upp_limits.specs.Outcome.{KeepsLimits};
ghost use Rattle.curve_call.specs.Frames.{IsFrame};
ghost use Rattle.plain_operators.specs.running.Runs.{RunsUpTo, IsNumberOf};

use crate::running::periods::supremum_periods;
use crate::running::supremum::supremum_scan;
use curve_call::{Frame, first_window, framed_answer, rise_over, within};
use fraction128::{Frac, difference};
use outcomes::Steps;
use std::alloc::{AllocError, Global};
use std::sync::ledger::Ledger;
use upp_curve::Curve;
use upp_limits::{OpFault, OpKind};
use upp_normal::unrolled;

// The least number of periods of the call; none where already the window without any period is too wide.
fn least_number(f: &Curve) -> Option<u128>
    requires finite { IsFinite (value_at f.now) }
    requires nonneg { IsNonnegative (value_at f.now) }
    ensures number { MatchOption result (2 ^ 120 ≤ gauge_at RunSup f.now f.now 0 0) (IsNumberOf f.now) }
    ensures kept { IsCurve f.now }
{
    match first_window(&OpKind::RunSup, f, f) {
        Err(_) => None,
        Ok(window) => {
            let rise = rise_over(f, window.period);
            Some(supremum_periods(f, window.start, window.period, rise))
        }
    }
}

// The running supremum of a curve whose call is within both limits.
fn supremum_within(alloc: Global, f: &Curve, k: u128, frame: &Frame) -> Result<Curve, AllocError>
    requires finite { IsFinite (value_at f.now) }
    requires nonneg { IsNonnegative (value_at f.now) }
    requires number { IsNumberOf f.now k }
    requires frame { IsFrame RunSup f.now f.now k 0 frame.now }
    ensures value { IfOk result (RunsUpTo f.now) }
    ensures finite { IfOk result (λ c. IsFinite (value_at c)) }
{
    let pieces = unrolled(f, frame.end)?;
    let scanned = supremum_scan(alloc, &pieces, frame.end)?;
    let rise = rise_over(f, frame.period);
    let from = difference(frame.end, frame.period);
    framed_answer(alloc, scanned, from, rise, frame)
}

// The running supremum of a curve, with its least number of periods.
fn supremum_after(alloc: Global, f: &Curve, k: u128) -> Result<Curve, OpFault>
    requires finite { IsFinite (value_at f.now) }
    requires nonneg { IsNonnegative (value_at f.now) }
    requires number { IsNumberOf f.now k }
    ensures value { IfOk result (RunsUpTo f.now) }
    ensures finite { IfOk result (λ c. IsFinite (value_at c)) }
    ensures limits { KeepsLimits RunSup f.now f.now result }
{
    let frame = within(&OpKind::RunSup, f, f, k)?;
    Ok(supremum_within(alloc, f, k, &frame)?)
}

/// The supremum of a curve over the times from 0 to each time, for a curve that is finite and nowhere below 0 (Le
/// Boudec and Thiran, chapter 3). A limit that the curve does not take counts. The answer is finite. One step is
/// counted. Refused with TooWide or TooMany exactly where the call's gauge or tally is over that limit, else only for
/// want of memory.
pub fn run_sup<L: Ledger>(alloc: Global, f: &Curve, steps: &mut Steps<L>) -> Result<Curve, OpFault>
    requires finite { IsFinite (value_at f.now) }
    requires nonneg { IsNonnegative (value_at f.now) }
    ensures count { steps.new ≡ steps.old + 1 }
    ensures value { IfOk result (RunsUpTo f.now) }
    ensures finite { IfOk result (λ c. IsFinite (value_at c)) }
    ensures limits { KeepsLimits RunSup f.now f.now result }
{
    steps.tick();
    match least_number(f) {
        None => Err(OpFault::TooWide),
        Some(k) => supremum_after(alloc, f, k),
    }
}
