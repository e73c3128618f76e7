//! What a curve has above a level.

ghost use Rattle.std.specs.Prelude.{◌≡◌, ◌+◌, ◌↔◌, pos, IsTrue, IfOk, IfErr};
ghost use Rattle.rational.specs.Rational.{ℚ, int, ◌≤ℚ◌};
ghost use Rattle.rational.specs.declared.Extended.TheVariants.{Fin};
ghost use Rattle.rational.specs.Extended.{◌<ₑ◌};
ghost use Rattle.upp_curve.specs.Curve.{value_at};
ghost use Rattle.min_plus.specs.Functions.{IsFinite};
ghost use Rattle.upp_curve.specs.Steady.{rate, rise_over};
ghost use Rattle.upp_curve.specs.Unrolled.{unroll};
ghost use Rattle.curve_call.specs.Operands.{IsMadeOf};
ghost use Rattle.min_plus.specs.Pointwise.{IsPositiveMinus};
ghost use Rattle.upp_limits.specs.Outcome.{KeepsLimits, IsCauseOf, IsWithin};
ghost use Rattle.upp_limits.specs.declared.op_kind.OpKind.TheVariants.{PosMinus};
ghost use Rattle.curve_call.specs.Rises.{CurveRiseFits};
ghost use Rattle.curve_call.specs.Levels.{level_curve};
ghost use Rattle.plain_operators.specs.declared.pointwise.lattice.Lattice.TheVariants.{Excess};
ghost use Rattle.plain_operators.specs.pointwise.Lattice.{RisesBy, made_of, rises_of};
ghost use Rattle.plain_operators.specs.pointwise.LatticeCall.{IsLatticeFrame};

use curve_call::{
    Frame, Side, first_look, framed_answer, is_slower, rise_over, side_periods, window_excess,
    within_after,
};
use fraction128::{Frac, difference};
use outcomes::Steps;
use rational::Extended;
use std::alloc::{AllocError, Global};
use std::sync::ledger::Ledger;
use upp_curve::Curve;
use upp_curve::affine_segment::{Line, Piece};
use upp_limits::{OpFault, OpKind};
use upp_normal::unrolled;

// The piece of a level.
fn level_pieces(alloc: Global, l: Frac) -> Result<Vec<Piece>, AllocError>
    ensures { IfOk result (λ v. v.items ≡ (level_curve l).pieces) }
{
    let mut pieces = Vec::new(alloc);
    pieces.push(Piece {
        x: Frac::zero(),
        at: Extended::Fin(l),
        line: Some(Line {
            icept: l,
            slope: Frac::zero(),
        }),
    })?;
    Ok(pieces)
}

// Whether a curve gains in the long run.
fn is_gaining(f: &Curve) -> bool
    ensures { IsTrue result ↔ (Fin (int (pos 0)) <ₑ rate f.now) }
{
    is_slower(&Side::level(Frac::zero()), &Side::of(f))
}

// By how much a curve rises over a period, where it gains.
fn gain(gaining: bool, f: &Curve, period: Frac) -> Frac
    requires { CurveRiseFits f.now period }
    ensures { RisesBy (IsTrue gaining) (rise_over f.now period) (int (pos 0)) result }
{
    if gaining {
        return rise_over(f, period);
    }
    Frac::zero()
}

// The pieces of what a curve has above a level, below the end of the call's window. Those of the curve are let go here,
// before the normal form takes memory.
fn pieces_above(alloc: Global, f: &Curve, l: Frac, frame: &Frame) -> Result<Vec<Piece>, AllocError>
    requires { IsLatticeFrame f.now (level_curve l) frame.now }
    ensures { let end = frame.now.end in IfOk result
        (λ v. IsMadeOf (made_of Excess) (rises_of Excess) (unroll f.now end) (unroll (level_curve l) end) end v.items) }
{
    let left = unrolled(f, frame.end)?;
    let right = level_pieces(alloc, l)?;
    window_excess(alloc, &left, &right, frame.end)
}

// What a curve has above a level, in a call within both limits, where the number of periods is enough.
fn minus_within(alloc: Global, f: &Curve, l: Frac, frame: &Frame) -> Result<Curve, AllocError>
    requires call { IsLatticeFrame f.now (level_curve l) frame.now }
    requires finite { IsFinite (value_at f.now) }
    ensures { IfOk result (λ c. (t : ℚ) → int (pos 0) ≤ℚ t → IsPositiveMinus (value_at f.now) l t (value_at c t)) }
{
    let pieces = pieces_above(alloc, f, l, frame)?;
    let rise = gain(is_gaining(f), f, frame.period);
    let from = difference(frame.end, frame.period);
    framed_answer(alloc, pieces, from, rise, frame)
}

// The frame of a call within both limits, with the least number of periods that is enough.
fn least_frame(f: &Curve, l: Frac) -> Result<Frame, OpFault>
    ensures frame { IfOk result (IsLatticeFrame f.now (level_curve l)) }
    ensures within { IfOk result (λ r. IsWithin (PosMinus l) f.now f.now) }
    ensures refused { IfErr result (IsCauseOf (PosMinus l) f.now f.now) }
{
    let kind = OpKind::PosMinus(l);
    let look = first_look(&kind, f, f)?;
    let window = &look.window;
    match side_periods(&Side::of(f), &Side::level(l), window.start, window.period) {
        None => Err(OpFault::TooWide),
        Some(periods) => within_after(&look, &kind, f, f, periods),
    }
}

// What a curve has above a level, without counting.
fn above_level(alloc: Global, f: &Curve, l: Frac) -> Result<Curve, OpFault>
    requires { IsFinite (value_at f.now) }
    ensures value { IfOk result
        (λ c. (t : ℚ) → int (pos 0) ≤ℚ t → IsPositiveMinus (value_at f.now) l t (value_at c t)) }
    ensures limits { KeepsLimits (PosMinus l) f.now f.now result }
{
    let frame = least_frame(f, l)?;
    Ok(minus_within(alloc, f, l, &frame)?)
}

/// The greater of 0 and f - l at each time from 0 on; f is finite. One step is counted. Refused with TooWide or
/// TooMany exactly where the call's gauge or tally is over that limit, or no number of periods orders f and the level
/// by their rates (TooWide); else only for want of memory.
pub fn pos_minus<L: Ledger>(
    alloc: Global,
    f: &Curve,
    l: Frac,
    steps: &mut Steps<L>,
) -> Result<Curve, OpFault>
    requires { IsFinite (value_at f.now) }
    ensures count { steps.new ≡ steps.old + 1 }
    ensures value { IfOk result
        (λ c. (t : ℚ) → int (pos 0) ≤ℚ t → IsPositiveMinus (value_at f.now) l t (value_at c t)) }
    ensures limits { KeepsLimits (PosMinus l) f.now f.now result }
{
    steps.tick();
    above_level(alloc, f, l)
}
