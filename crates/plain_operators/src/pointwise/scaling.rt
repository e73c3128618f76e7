//! A curve times a number.

ghost use Rattle.std.specs.Prelude.{◌≡◌, ◌+◌, pos, map, IfOk};
ghost use Rattle.rational.specs.Rational.{ℚ, int, ◌≤ℚ◌};
ghost use Rattle.upp_curve.specs.Curve.{value_at};
ghost use Rattle.upp_curve.specs.affine_segment.Pieces.{Each};
ghost use Rattle.min_plus.specs.Pointwise.{IsScaled};
ghost use Rattle.upp_limits.specs.Gauges.{scaled_piece, scaled_tail};
ghost use Rattle.upp_limits.specs.ClosedOperands.{PieceScales, TailScales};
ghost use Rattle.upp_limits.specs.Outcome.{KeepsLimits};
ghost use Rattle.curve_call.specs.Frames.{IsFrame};

use curve_call::{Frame, within};
use fraction128::Frac;
use outcomes::Steps;
use std::alloc::{AllocError, Global};
use std::sync::ledger::Ledger;
use upp_curve::affine_segment::Piece;
use upp_curve::{Curve, Tail};
use upp_limits::{OpFault, OpKind, scaled_piece, scaled_tail};
use upp_normal::{RawCurve, normalise_on};

// A piece times a number, where the products fit.
fn fitting_piece(piece: &Piece, factor: Frac) -> Piece
    requires { PieceScales factor piece.now }
    ensures { result ≡ scaled_piece factor piece.now }
{
    match scaled_piece(piece, factor) {
        Some(found) => found,
        // never, since the products fit
        None => *piece,
    }
}

// A tail times a number, where the product fits.
fn fitting_tail(tail: &Tail, factor: Frac) -> Tail
    requires { TailScales factor tail.now }
    ensures { result ≡ scaled_tail factor tail.now }
{
    scaled_tail(tail, factor).unwrap()
}

fn fitting_pieces(alloc: Global, pieces: &[Piece], factor: Frac) -> Result<Vec<Piece>, AllocError>
    requires { Each (PieceScales factor) pieces.now }
    ensures { IfOk result (λ v. v.items ≡ map (scaled_piece factor) pieces.now) }
{
    let mut found = Vec::new(alloc);
    for piece in pieces {
        found.push(fitting_piece(piece, factor))?;
    }
    Ok(found)
}

// A curve times a number, where its call is within both limits.
fn scale_within(alloc: Global, f: &Curve, factor: Frac, frame: &Frame) -> Result<Curve, AllocError>
    requires { IsFrame (OpKind.Scale factor) f.now f.now 0 0 frame.now }
    ensures { IfOk result (λ c. (t : ℚ) → int (pos 0) ≤ℚ t → IsScaled (value_at f.now) factor t (value_at c t)) }
{
    let pieces = fitting_pieces(alloc, f.pieces(), factor)?;
    let tail = fitting_tail(f.tail(), factor);
    let raw = RawCurve { pieces, tail };
    normalise_on(raw, frame.times, frame.values)
}

// A curve times a number, without counting.
fn scaled_curve(alloc: Global, f: &Curve, factor: Frac) -> Result<Curve, OpFault>
    ensures value { IfOk result (λ c. (t : ℚ) → int (pos 0) ≤ℚ t → IsScaled (value_at f.now) factor t (value_at c t)) }
    ensures limits { KeepsLimits (OpKind.Scale factor) f.now f.now result }
{
    let frame = within(&OpKind::Scale(factor), f, f, 0)?;
    Ok(scale_within(alloc, f, factor, &frame)?)
}

/// A curve times a number at each time from 0 on; infinity stays infinity. One step is counted. Refused with TooWide or
/// TooMany exactly where the call's gauge or tally is over that limit, else only for want of memory.
pub fn scale<L: Ledger>(
    alloc: Global,
    f: &Curve,
    factor: Frac,
    steps: &mut Steps<L>,
) -> Result<Curve, OpFault>
    ensures count { steps.new ≡ steps.old + 1 }
    ensures value { IfOk result (λ c. (t : ℚ) → int (pos 0) ≤ℚ t → IsScaled (value_at f.now) factor t (value_at c t)) }
    ensures limits { KeepsLimits (OpKind.Scale factor) f.now f.now result }
{
    steps.tick();
    scaled_curve(alloc, f, factor)
}
