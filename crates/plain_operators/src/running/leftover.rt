//! What first in, first out leaves of a service.

ghost use Rattle.std.specs.Prelude.{◌≡◌, ◌+◌, pos, IfOk, IfErr};
ghost use Rattle.rational.specs.Rational.{ℚ, int, ◌≤ℚ◌};
ghost use Rattle.rational.specs.Extended.{Ext};
ghost use Rattle.rational.specs.declared.Extended.TheVariants.{Fin, Inf};
ghost use Rattle.upp_limits.specs.declared.op_kind.OpKind.TheVariants.{FifoLeft};
ghost use Rattle.upp_curve.specs.affine_segment.Pieces.{Each};
ghost use Rattle.upp_curve.specs.Curve.{value_at};
ghost use Rattle.upp_curve.specs.Unrolled.{unroll};
ghost use Rattle.upp_normal.specs.Unrolling.{IsOperandTo};
ghost use Rattle.min_plus.specs.Deviations.{IsHorizontalDeviation};
ghost use Rattle.min_plus.specs.Functions.{IsFinite, IsRising, IsNonnegative};
ghost use Rattle.upp_limits.specs.Outcome.{KeepsLimits, IsCauseOf, IsWithin};
ghost use Rattle.plain_operators.specs.running.Behind.{IsServed};
ghost use Rattle.plain_operators.specs.running.Moved.{moved_right, PieceMoves};
ghost use Rattle.plain_operators.specs.running.LeftCall.{IsLeftBeside, IsLeftFrame, IsLeftGate, IsLeftWindow};

use crate::running::behind::{behind_bounds, enough_periods, rises_apart};
use crate::running::lowest::lowest_pieces;
use crate::running::moved::moved_right;
use crate::running::parts::left_pieces;
use curve_call::{
    FirstLook, Frame, first_look, framed_answer, overlay, refuse_between, within_after,
};
use fraction128::{Ext, Frac, difference, sum};
use outcomes::Steps;
use rational::Extended;
use std::alloc::{AllocError, Global};
use std::sync::ledger::Ledger;
use upp_curve::affine_segment::{Line, Piece};
use upp_curve::{Curve, Tail};
use upp_limits::{OpFault, OpKind};
use upp_normal::unrolled;

// The pieces of the cross traffic below `end`, theta later.
fn moved_cross(
    alloc: Global,
    cross: &Curve,
    theta: Frac,
    end: Frac,
) -> Result<Vec<Piece>, AllocError>
    requires operand { IsOperandTo end cross.now }
    requires moves { Each (PieceMoves theta) (unroll cross.now end) }
    ensures { IfOk result (λ v. v.items ≡ moved_right theta end (unroll cross.now end)) }
{
    let right = unrolled(cross, end)?;
    moved_right(alloc, &right, theta, end)
}

// The pieces of what is left in a call's window.
fn left_window(
    alloc: Global,
    beta: &Curve,
    cross: &Curve,
    theta: Frac,
    frame: &Frame,
) -> Result<Vec<Piece>, AllocError>
    requires { IsLeftFrame beta.now cross.now theta frame.now }
    ensures { IfOk result (λ v. IsLeftWindow beta.now cross.now theta frame.now.end v.items) }
{
    let left = unrolled(beta, frame.end)?;
    let moved = moved_cross(alloc, cross, theta, frame.end)?;
    let stretches = overlay(alloc, &left, &moved)?;
    left_pieces(alloc, &stretches)
}

// What is left, in a call within both limits.
fn left_within(
    alloc: Global,
    beta: &Curve,
    cross: &Curve,
    theta: Frac,
    frame: &Frame,
) -> Result<Curve, AllocError>
    requires call { IsLeftFrame beta.now cross.now theta frame.now }
    requires served { IsServed (value_at beta.now) (value_at cross.now) theta }
    ensures { IfOk result (IsLeftBeside beta.now cross.now (Fin theta)) }
{
    let pieces = left_window(alloc, beta, cross, theta, frame)?;
    let rise = rises_apart(beta, cross, frame.period);
    let from = difference(frame.end, frame.period);
    let far = sum(frame.end, frame.period);
    let lowest = lowest_pieces(alloc, pieces, from, frame.end, far, rise)?;
    framed_answer(alloc, lowest, from, rise, frame)
}

// Refuses a call where bounds of the number of its periods tell that it is over a limit; not where the pieces are few
// with no period, so that a walk over them is short.
fn refuse_behind(beta: &Curve, cross: &Curve, theta: Frac, look: &FirstLook) -> Result<(), OpFault>
    requires { IsLeftGate beta.now cross.now theta look.now.window }
    ensures { IfErr result (IsCauseOf (FifoLeft (Fin theta)) beta.now cross.now) }
{
    if look.frame.is_some() {
        return Ok(());
    }
    let kind = OpKind::FifoLeft(Extended::Fin(theta));
    let bounds = behind_bounds(beta, cross, theta, &look.window);
    refuse_between(&kind, beta, cross, bounds.low, bounds.high)
}

// The frame of a call within both limits, with the least number of periods that is enough.
fn least_frame(beta: &Curve, cross: &Curve, theta: Frac) -> Result<Frame, OpFault>
    requires { IsServed (value_at beta.now) (value_at cross.now) theta }
    ensures frame { IfOk result (IsLeftFrame beta.now cross.now theta) }
    ensures within { IfOk result (λ r. IsWithin (FifoLeft (Fin theta)) beta.now cross.now) }
    ensures refused { IfErr result (IsCauseOf (FifoLeft (Fin theta)) beta.now cross.now) }
{
    let kind = OpKind::FifoLeft(Extended::Fin(theta));
    let look = first_look(&kind, beta, cross)?;
    refuse_behind(beta, cross, theta, &look)?;
    let periods = enough_periods(beta, cross, theta, &look.window);
    within_after(&look, &kind, beta, cross, periods)
}

// What is left after a finite wait.
fn left_after(alloc: Global, beta: &Curve, cross: &Curve, theta: Frac) -> Result<Curve, OpFault>
    requires { IsServed (value_at beta.now) (value_at cross.now) theta }
    ensures value { IfOk result (IsLeftBeside beta.now cross.now (Fin theta)) }
    ensures limits { KeepsLimits (FifoLeft (Fin theta)) beta.now cross.now result }
{
    let frame = least_frame(beta, cross, theta)?;
    match left_within(alloc, beta, cross, theta, &frame) {
        Ok(c) => Ok(c),
        Err(_) => Err(OpFault::NoMemory),
    }
}

// Nothing at every time.
fn nothing(alloc: Global) -> Result<Curve, AllocError>
    ensures { IfOk result (λ c. (t : ℚ) → int (pos 0) ≤ℚ t → value_at c t ≡ Fin (int (pos 0))) }
{
    let zero = Piece {
        x: Frac::zero(),
        at: Extended::Fin(Frac::zero()),
        line: Some(Line {
            icept: Frac::zero(),
            slope: Frac::zero(),
        }),
    };
    let mut pieces = Vec::new(alloc);
    pieces.push(zero)?;
    Ok(Curve::from_normal(pieces, Tail::Affine { rank: Frac::zero() }))
}

/// What first in, first out leaves of the service beta beside the cross traffic `cross`, at each time from 0 on: the
/// infimum, over the times from then on, of 0 up to theta, and past theta of what beta has above cross as it was theta
/// earlier, or of 0 where it has nothing; 0 everywhere where theta is infinite (Le Boudec and Thiran, chapter 6). beta
/// is finite, never falls and is nowhere below 0, and theta is the horizontal deviation of cross and beta. One step is
/// counted. Refused with TooWide or TooMany exactly where the call's gauge or tally is over that limit, else only for
/// want of memory; after an infinite theta there is no limit.
pub fn fifo_left<L: Ledger>(
    alloc: Global,
    beta: &Curve,
    cross: &Curve,
    theta: Ext,
    steps: &mut Steps<L>,
) -> Result<Curve, OpFault>
    requires finite { IsFinite (value_at beta.now) }
    requires rising { IsRising (value_at beta.now) }
    requires nonneg { IsNonnegative (value_at beta.now) }
    requires deviation { IsHorizontalDeviation (value_at cross.now) (value_at beta.now) theta }
    ensures count { steps.new ≡ steps.old + 1 }
    ensures value { IfOk result (IsLeftBeside beta.now cross.now theta) }
    ensures limits { KeepsLimits (FifoLeft theta) beta.now cross.now result }
{
    steps.tick();
    match theta {
        Extended::Inf => match nothing(alloc) {
            Ok(c) => Ok(c),
            Err(_) => Err(OpFault::NoMemory),
        },
        Extended::Fin(wait) => left_after(alloc, beta, cross, wait),
    }
}
