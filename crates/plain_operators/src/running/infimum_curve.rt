//! The running infimum of a curve.

ghost use Rattle.std.specs.Prelude.{◌≡◌, ◌+◌, IfOk};
ghost use Rattle.upp_limits.specs.declared.op_kind.OpKind.TheVariants.{RunInf};
ghost use Rattle.upp_curve.specs.Curve.{value_at};
ghost use Rattle.min_plus.specs.Functions.{IsFinite, IsNonnegative};
ghost use Rattle.upp_limits.specs.Outcome.{KeepsLimits};
ghost use Rattle.curve_call.specs.Frames.{IsFrame};
ghost use Rattle.plain_operators.specs.running.Runs.{RunsFrom, IsFrontBefore};

use crate::running::infimum::infimum_scan;
use curve_call::{Frame, framed_answer, rise_over, within};
use fraction128::{Frac, sum};
use outcomes::Steps;
use std::alloc::{AllocError, Global};
use std::cmp::Ordering;
use std::sync::ledger::Ledger;
use upp_curve::Curve;
use upp_curve::affine_segment::Piece;
use upp_limits::{OpFault, OpKind};
use upp_normal::unrolled;

/// The pieces up to the first that starts at `end` or later.
pub fn front_before(alloc: Global, pieces: &[Piece], end: Frac) -> Result<Vec<Piece>, AllocError>
    ensures { IfOk result (λ v. IsFrontBefore pieces.now end v.items) }
{
    let mut front = Vec::new(alloc);
    for p in pieces {
        match p.x.cmp(&end) {
            Ordering::Less => front.push(*p)?,
            _ => return Ok(front),
        }
    }
    Ok(front)
}

// The running infimum of a curve whose call is within both limits.
fn infimum_within(alloc: Global, f: &Curve, frame: &Frame) -> Result<Curve, AllocError>
    requires finite { IsFinite (value_at f.now) }
    requires nonneg { IsNonnegative (value_at f.now) }
    requires frame { IsFrame RunInf f.now f.now 0 0 frame.now }
    ensures { IfOk result (RunsFrom f.now) }
{
    let pieces = unrolled(f, frame.end)?;
    let scanned = infimum_scan(alloc, &pieces, frame.end)?;
    let front = front_before(alloc, &scanned, sum(frame.start, frame.period))?;
    let rise = rise_over(f, frame.period);
    framed_answer(alloc, front, frame.start, rise, frame)
}

// The running infimum of a curve.
fn infimum_of(alloc: Global, f: &Curve) -> Result<Curve, OpFault>
    requires finite { IsFinite (value_at f.now) }
    requires nonneg { IsNonnegative (value_at f.now) }
    ensures value { IfOk result (RunsFrom f.now) }
    ensures finite { IfOk result (λ c. IsFinite (value_at c)) }
    ensures limits { KeepsLimits RunInf f.now f.now result }
{
    let frame = within(&OpKind::RunInf, f, f, 0)?;
    Ok(infimum_within(alloc, f, &frame)?)
}

/// The infimum of a curve over all times from each time on, for a curve that is finite and nowhere below 0 (Le
/// Boudec and Thiran, chapter 3). A limit that the curve does not take counts. The answer is finite. One step is
/// counted. Refused with TooWide or TooMany exactly where the call's gauge or tally is over that limit, else only for
/// want of memory.
pub fn run_inf<L: Ledger>(alloc: Global, f: &Curve, steps: &mut Steps<L>) -> Result<Curve, OpFault>
    requires finite { IsFinite (value_at f.now) }
    requires nonneg { IsNonnegative (value_at f.now) }
    ensures count { steps.new ≡ steps.old + 1 }
    ensures value { IfOk result (RunsFrom f.now) }
    ensures finite { IfOk result (λ c. IsFinite (value_at c)) }
    ensures limits { KeepsLimits RunInf f.now f.now result }
{
    steps.tick();
    infimum_of(alloc, f)
}
