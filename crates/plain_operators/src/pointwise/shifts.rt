//! A curve as it is some time later.

ghost use Rattle.std.specs.Prelude.{◌≡◌, ◌+◌, pos, List, ◌∷◌, IfOk, IfErr};
ghost use Rattle.rational.specs.Rational.{ℚ, int, ◌-ℚ◌, ◌≤ℚ◌, le_q, neg_ℚ};
ghost use Rattle.rational.specs.Ratio.{SumFits};
ghost use Rattle.rational.specs.declared.Extended.TheVariants.{Fin, Inf};
ghost use Rattle.upp_curve.specs.affine_segment.Values.{line_value};
ghost use Rattle.upp_curve.specs.affine_segment.Reading.{piece_in, piece_value};
ghost use Rattle.upp_curve.specs.Curve.{value_at};
ghost use Rattle.upp_curve.specs.affine_segment.Pieces.{Each, StartsAtZero};
ghost use Rattle.upp_curve.specs.affine_segment.Fits.{LineFitsAt};
ghost use Rattle.min_plus.specs.Pointwise.{IsShift};
ghost use Rattle.upp_limits.specs.Outcome.{KeepsLimits};
ghost use Rattle.curve_call.specs.Frames.{IsFrame};
ghost use Rattle.plain_operators.specs.pointwise.Shifting.{left_line, left_piece, moved_left, LeftFits, IsAhead};

use curve_call::{Frame, framed_answer, rise_over, within};
use fraction128::{Ext, Frac, difference};
use outcomes::Steps;
use rational::Extended;
use std::alloc::{AllocError, Global};
use std::cmp::Ordering;
use std::sync::ledger::Ledger;
use upp_curve::affine_segment::{Line, Piece, piece_at, piece_value, value};
use upp_curve::{Curve, Tail};
use upp_limits::{OpFault, OpKind};
use upp_normal::unrolled;

// A line that may be missing, moved left by x.
fn left_line(line: Option<Line>, x: Frac) -> Option<Line>
    requires { LineFitsAt x line }
    ensures { result ≡ left_line x line }
{
    match line {
        None => None,
        Some(l) => Some(Line {
            icept: value(&l, x).unwrap(),
            slope: l.slope,
        }),
    }
}

fn left_piece(p: &Piece, x: Frac) -> Piece
    requires { LeftFits x p.now }
    ensures { result ≡ left_piece x p.now }
{
    Piece {
        x: difference(p.x, x),
        at: p.at,
        line: left_line(p.line, x),
    }
}

/// What is read of pieces from x on, moved left by x. Only a lack of memory is an error.
pub fn left_window(alloc: Global, pieces: &[Piece], x: Frac) -> Result<Vec<Piece>, AllocError>
    requires starts { StartsAtZero pieces.now }
    requires time { int (pos 0) ≤ℚ x }
    requires zero { SumFits x (neg_ℚ x) }
    requires fits { Each (LeftFits x) pieces.now }
    ensures { (p : Piece) (ps : List Piece) → pieces.now ≡ p ∷ ps → IfOk result (λ v. v.items ≡ moved_left x p ps) }
{
    let here = piece_at(pieces, x);
    let first = Piece {
        x,
        at: piece_value(&here, x),
        line: here.line,
    };
    let mut found = Vec::new(alloc);
    found.push(left_piece(&first, x))?;
    for p in pieces {
        match p.x.cmp(&x) {
            Ordering::Greater => found.push(left_piece(p, x))?,
            _ => {}
        }
    }
    Ok(found)
}

// A curve as it is x later, where its call is within both limits.
fn shift_within(alloc: Global, f: &Curve, x: Frac, frame: &Frame) -> Result<Curve, AllocError>
    requires time { int (pos 0) ≤ℚ x }
    requires frame { IsFrame (OpKind.Shift (Fin x)) f.now f.now 0 0 frame.now }
    ensures { IfOk result (λ c. (t : ℚ) → int (pos 0) ≤ℚ t → IsShift (value_at f.now) (Fin x) t (value_at c t)) }
{
    let window = unrolled(f, frame.end)?;
    let pieces = left_window(alloc, &window, x)?;
    let from = difference(frame.start, x);
    let rise = rise_over(f, frame.period);
    framed_answer(alloc, pieces, from, rise, frame)
}

/// The curve that is infinite everywhere. Only a lack of memory is an error.
pub fn infinite_curve(alloc: Global) -> Result<Curve, AllocError>
    ensures { IfOk result (λ c. (t : ℚ) → int (pos 0) ≤ℚ t → value_at c t ≡ Inf) }
{
    let nowhere = Piece {
        x: Frac::zero(),
        at: Extended::Inf,
        line: None,
    };
    let mut pieces = Vec::new(alloc);
    pieces.push(nowhere)?;
    Ok(Curve::from_normal(pieces, Tail::Infinite { rank: Frac::zero() }))
}

// A curve as it is a finite time later.
fn shift_by(alloc: Global, f: &Curve, x: Frac) -> Result<Curve, OpFault>
    requires { int (pos 0) ≤ℚ x }
    ensures value { IfOk result (λ c. (t : ℚ) → int (pos 0) ≤ℚ t → IsShift (value_at f.now) (Fin x) t (value_at c t)) }
    ensures limits { KeepsLimits (OpKind.Shift (Fin x)) f.now f.now result }
{
    let frame = within(&OpKind::Shift(Extended::Fin(x)), f, f, 0)?;
    Ok(shift_within(alloc, f, x, &frame)?)
}

/// A curve as it is `by` later, at each time from 0 on; infinity everywhere where `by` is infinite (Le Boudec and
/// Thiran, chapter 3). One step is counted. Refused with TooWide or TooMany exactly where the call's gauge or tally
/// is over that limit, else only for want of memory.
pub fn shift<L: Ledger>(
    alloc: Global,
    f: &Curve,
    by: Ext,
    steps: &mut Steps<L>,
) -> Result<Curve, OpFault>
    requires { IsAhead by }
    ensures count { steps.new ≡ steps.old + 1 }
    ensures value { IfOk result (λ c. (t : ℚ) → int (pos 0) ≤ℚ t → IsShift (value_at f.now) by t (value_at c t)) }
    ensures limits { KeepsLimits (OpKind.Shift by) f.now f.now result }
{
    steps.tick();
    match by {
        Extended::Inf => Ok(infinite_curve(alloc)?),
        Extended::Fin(x) => shift_by(alloc, f, x),
    }
}
