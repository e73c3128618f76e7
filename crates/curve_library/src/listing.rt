//! A curve that is listed piece by piece.

ghost use Rattle.std.specs.Prelude.{◌≡◌, ◌↔◌, IsTrue, Err};
ghost use Rattle.upp_curve.specs.Curve.{SpecCurve, value_at};
ghost use Rattle.min_plus.specs.Functions.{zero_q, IsRising};
ghost use Rattle.upp_curve.specs.Normal.{IsRaw};
ghost use Rattle.curve_library.specs.Listed.{listed_curve, IsWellFormed, KeepsMade, KeepsShape, KeepsBoth, KeepsListed, ListsFirst};
ghost use Rattle.curve_library.specs.declared.texts.UseAs.{UseAs};
ghost use Rattle.curve_library.specs.declared.texts.UseAs.TheVariants.{Service};

use crate::fault::CurveFault;
use crate::text_limits::over_limit;
use crate::text_pieces::{pieces_of, tail_of};
use crate::texts::{
    PieceText, TailText, UseAs, are_nonneg, has_length, is_nonneg_tail, starts_below, starts_rise,
};
use fraction128::{Ext, Frac};
use rational::Extended;
use std::alloc::Global;
use upp_curve::affine_segment::Piece;
use upp_curve::{Curve, Tail, is_continuous};
use upp_limits::{OpFault, OverLimit};
use upp_normal::{RawCurve, normalise};

// The curve of pieces in any form, where it is under the limits.
fn limited(pieces: Vec<Piece>, tail: Tail) -> Result<Curve, CurveFault>
    requires { let c : SpecCurve = record { pieces = pieces.items; tail = tail } in IsRaw c }
    ensures { let c : SpecCurve = record { pieces = pieces.items; tail = tail } in KeepsMade c result }
{
    match normalise(RawCurve { pieces, tail }) {
        Ok(c) => Ok(c),
        Err(OpFault::TooMany) => Err(CurveFault::Op(OverLimit::TooMany)),
        Err(OpFault::TooWide) => Err(CurveFault::Op(OverLimit::TooWide)),
        Err(OpFault::NoMemory) => Err(CurveFault::NoMemory),
    }
}

// Whether a value is 0.
fn is_zero(v: Ext) -> bool
    ensures { IsTrue result ↔ (v ≡ Extended.Fin zero_q) }
{
    match v {
        Extended::Inf => false,
        Extended::Fin(x) => x == Frac::zero(),
    }
}

// Whether a curve is 0 at 0.
fn starts_at_zero(c: &Curve) -> bool
    ensures { IsTrue result ↔ (value_at c.now zero_q ≡ Extended.Fin zero_q) }
{
    match c.pieces() {
        [] => false,
        [first, ..] => is_zero(first.at),
    }
}

// A curve that rises, where it serves: it is continuous and 0 at 0.
fn service_shaped(c: Curve) -> Result<Curve, CurveFault>
    requires { IsRising (value_at c) }
    ensures { KeepsShape Service c result }
{
    if !is_continuous(&c) {
        return Err(CurveFault::NotContinuous);
    }
    if !starts_at_zero(&c) {
        return Err(CurveFault::NotZeroAtStart);
    }
    Ok(c)
}

// A curve of the shape that its use asks.
fn shaped(c: Curve, use_as: UseAs) -> Result<Curve, CurveFault>
    ensures { KeepsShape use_as c result }
{
    if !c.is_rising() {
        return Err(CurveFault::NotRising);
    }
    match use_as {
        UseAs::Arrival => Ok(c),
        UseAs::Service => service_shaped(c),
    }
}

// The curve of pieces in any form, where it is under the limits and of the shape that its use asks.
fn limited_and_shaped(pieces: Vec<Piece>, tail: Tail, use_as: UseAs) -> Result<Curve, CurveFault>
    requires { let c : SpecCurve = record { pieces = pieces.items; tail = tail } in IsRaw c }
    ensures { let c : SpecCurve = record { pieces = pieces.items; tail = tail } in KeepsBoth use_as c result }
{
    match limited(pieces, tail) {
        Ok(c) => shaped(c, use_as),
        Err(e) => Err(e),
    }
}

// Why the pieces were not made: a limit that the curve is over, and else no memory.
fn uncopied(texts: &[PieceText], tail: &Option<TailText>) -> CurveFault
    requires { IsWellFormed texts.now tail.now }
    ensures { (u : UseAs) → KeepsBoth u (listed_curve texts.now tail.now) (Err result) }
{
    match over_limit(texts, tail) {
        Some(limit) => CurveFault::Op(limit),
        None => CurveFault::NoMemory,
    }
}

// A well-formed list.
fn well_formed(
    alloc: Global,
    texts: &[PieceText],
    tail: &Option<TailText>,
    use_as: UseAs,
) -> Result<Curve, CurveFault>
    requires { IsWellFormed texts.now tail.now }
    ensures { KeepsBoth use_as (listed_curve texts.now tail.now) result }
{
    match pieces_of(alloc, texts) {
        Some(pieces) => limited_and_shaped(pieces, tail_of(texts, tail), use_as),
        None => Err(uncopied(texts, tail)),
    }
}

// Any list.
fn tested_list(
    alloc: Global,
    texts: &[PieceText],
    tail: &Option<TailText>,
    use_as: UseAs,
) -> Result<Curve, CurveFault>
    ensures { KeepsListed texts.now tail.now use_as result }
{
    if !are_nonneg(texts) {
        return Err(CurveFault::Negative);
    }
    if !is_nonneg_tail(tail) {
        return Err(CurveFault::Negative);
    }
    if !has_length(tail) {
        return Err(CurveFault::ZeroPeriod);
    }
    if !starts_rise(texts) {
        return Err(CurveFault::NotRising);
    }
    if !starts_below(texts, tail) {
        return Err(CurveFault::NotRising);
    }
    well_formed(alloc, texts, tail, use_as)
}

/// The curve of listed pieces: at each start its value, after it the line from the value just after it, up to the
/// next start; without a tail the last line goes on for ever. Refused with Negative exactly where a start, a value,
/// the rank or the rise is below 0; past that with ZeroPeriod where the period is not above 0; past that with
/// NotRising where there is no piece, the first does not start at 0, starts do not rise or one is not below rank +
/// period; past that with TooWide or TooMany where the curve as it is listed is over that limit by itself; past
/// that with NotRising where it falls somewhere, and for a service curve with NotContinuous where it jumps, and
/// NotZeroAtStart where it is not 0 at 0. Where there is no memory the limits are looked at all the same, so want of
/// memory comes only where the curve is over neither.
pub fn listed(
    alloc: Global,
    pieces: &[PieceText],
    tail: Option<TailText>,
    use_as: UseAs,
) -> Result<Curve, CurveFault>
    ensures causes { KeepsListed pieces.now tail use_as result }
    ensures first { ListsFirst pieces.now tail use_as result }
{
    tested_list(alloc, pieces, &tail, use_as)
}
