//! The sum of two curves.

ghost use Rattle.std.specs.Prelude.{◌≡◌, ◌+◌, pos, IfOk};
ghost use Rattle.rational.specs.Rational.{ℚ, int, ◌+ℚ◌, ◌≤ℚ◌};
ghost use Rattle.rational.specs.Ratio.{SumFits};
ghost use Rattle.upp_curve.specs.Curve.{value_at};
ghost use Rattle.min_plus.specs.Pointwise.{IsSum};
ghost use Rattle.upp_limits.specs.Outcome.{KeepsLimits};
ghost use Rattle.upp_curve.specs.Unrolled.{unroll};
ghost use Rattle.curve_call.specs.Pointwise.{IsWindowSum};
ghost use Rattle.curve_call.specs.Frames.{IsFrame};

use crate::pointwise::nought::is_nought;
use crate::pointwise::straight::{straight_of, sum_straight};
use curve_call::{Answered, Frame, framed_answer, rise_over, window_sum, within};
use outcomes::Steps;
use std::alloc::{AllocError, Global};
use std::sync::ledger::Ledger;
use upp_curve::Curve;
use upp_curve::affine_segment::Piece;
use upp_limits::OpKind;
use upp_normal::unrolled;

// The pieces of a sum below the end of its call's window. Those of the operands are let go here, before the normal form
// takes memory.
fn pieces_of_sum(
    alloc: Global,
    f: &Curve,
    g: &Curve,
    frame: &Frame,
) -> Result<Vec<Piece>, AllocError>
    requires { IsFrame OpKind.Sum f.now g.now 0 0 frame.now }
    ensures { IfOk result (λ v. IsWindowSum (unroll f.now frame.now.end) (unroll g.now frame.now.end) v.items) }
{
    let left = unrolled(f, frame.end)?;
    let right = unrolled(g, frame.end)?;
    window_sum(alloc, &left, &right)
}

// The sum of two curves whose call is within both limits. Of a curve and the one that is 0 at each time it is that curve
// once more, with no window.
fn sum_within(alloc: Global, f: &Curve, g: &Curve, frame: &Frame) -> Result<Curve, AllocError>
    requires { IsFrame OpKind.Sum f.now g.now 0 0 frame.now }
    ensures { IfOk result (λ c. (t : ℚ) → int (pos 0) ≤ℚ t → IsSum (value_at f.now) (value_at g.now) t (value_at c t)) }
{
    if is_nought(f) {
        return g.copy();
    }
    if is_nought(g) {
        return f.copy();
    }
    let pieces = pieces_of_sum(alloc, f, g, frame)?;
    let first = rise_over(f, frame.period);
    let second = rise_over(g, frame.period);
    let rise = fraction128::sum(first, second);
    framed_answer(alloc, pieces, frame.start, rise, frame)
}

// The sum of two curves of any form.
fn sum_by_window(alloc: Global, f: &Curve, g: &Curve) -> Answered
    ensures value { IfOk result
        (λ c. (t : ℚ) → int (pos 0) ≤ℚ t → IsSum (value_at f.now) (value_at g.now) t (value_at c t)) }
    ensures limits { KeepsLimits OpKind.Sum f.now g.now result }
{
    let frame = within(&OpKind::Sum, f, g, 0)?;
    Ok(sum_within(alloc, f, g, &frame)?)
}

// The sum of two curves, without counting.
fn sum_of(alloc: Global, f: &Curve, g: &Curve) -> Answered
    ensures value { IfOk result
        (λ c. (t : ℚ) → int (pos 0) ≤ℚ t → IsSum (value_at f.now) (value_at g.now) t (value_at c t)) }
    ensures limits { KeepsLimits OpKind.Sum f.now g.now result }
{
    let Some(left) = straight_of(f) else {
        return sum_by_window(alloc, f, g);
    };
    let Some(right) = straight_of(g) else {
        return sum_by_window(alloc, f, g);
    };
    sum_straight(alloc, f, g, &left, &right)
}

/// The sum of two curves at each time from 0 on, infinite where one is (Le Boudec and Thiran, chapter 3). One step is
/// counted. Refused with TooWide or TooMany exactly where the call's gauge or tally is over that limit, else only for
/// want of memory.
pub fn sum<L: Ledger>(alloc: Global, f: &Curve, g: &Curve, steps: &mut Steps<L>) -> Answered
    ensures count { steps.new ≡ steps.old + 1 }
    ensures value { IfOk result
        (λ c. (t : ℚ) → int (pos 0) ≤ℚ t → IsSum (value_at f.now) (value_at g.now) t (value_at c t)) }
    ensures limits { KeepsLimits OpKind.Sum f.now g.now result }
{
    steps.tick();
    sum_of(alloc, f, g)
}
