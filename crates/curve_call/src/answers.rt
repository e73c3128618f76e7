//! The curve of a call's answer, from its pieces in a window.

ghost use Rattle.std.specs.Prelude.{IfOk};
ghost use Rattle.upp_curve.specs.affine_segment.Reading.{read};
ghost use Rattle.upp_curve.specs.Curve.{repeated};
ghost use Rattle.upp_normal.specs.Normalising.{HasValues};
ghost use Rattle.curve_call.specs.Answering.{IsAnswerWindow};

use crate::frame::Frame;
use fraction128::Frac;
use std::alloc::{AllocError, Global};
use upp_curve::affine_segment::Piece;
use upp_curve::{Curve, Tail};
use upp_limits::OpFault;
use upp_normal::{RawCurve, normalise_on};

/// The curve of a call, or why there is none.
pub type Answered = Result<Curve, OpFault>;

/// `answer` with the period and the grids of a frame. Refused only for want of memory.
pub fn framed_answer(
    alloc: Global,
    pieces: Vec<Piece>,
    from: Frac,
    rise: Frac,
    frame: &Frame,
) -> Result<Curve, AllocError>
    requires { let f = frame.now in IsAnswerWindow pieces.items from f.period rise f.times f.values }
    ensures { IfOk result (λ c. HasValues c (repeated (read pieces.items) from frame.now.period rise)) }
{
    answer(
        alloc,
        pieces,
        from,
        frame.period,
        rise,
        frame.times,
        frame.values,
    )
}

/// The curve that reads as the pieces below from + period, and from `from` on repeats: each `period` later it is
/// `rise` higher. `times` and `values` are the grids of its call. Refused only for want of memory.
pub fn answer(
    alloc: Global,
    pieces: Vec<Piece>,
    from: Frac,
    period: Frac,
    rise: Frac,
    times: u128,
    values: u128,
) -> Result<Curve, AllocError>
    requires { IsAnswerWindow pieces.items from period rise times values }
    ensures { IfOk result (λ c. HasValues c (repeated (read pieces.items) from period rise)) }
{
    let tail = Tail::Periodic {
        rank: from,
        period,
        rise,
    };
    normalise_on(RawCurve { pieces, tail }, times, values)
}
