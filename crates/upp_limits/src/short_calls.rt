//! Calls whose numbers are all whole and below 2^36 in size, as most are: one look at each number tells that the gauge is
//! below the limit, and no product is made.

ghost use Rattle.std.specs.Prelude.{◌↔◌, IsTrue, IfSome};
ghost use Rattle.upp_curve.specs.affine_segment.Pieces.{Each};
ghost use Rattle.upp_limits.specs.Short.{IsShort, IsShortValue, IsShortLine, IsShortPiece, IsShortTail, IsShortCurve, AreShort, IsShortKind, IsShortCall};

use crate::op_kind::{OpKind, Operands};
use fraction128::{Ext, Frac};
use rational::Extended;
use upp_curve::affine_segment::{Line, Piece};
use upp_curve::{Curve, Tail};

/// A number from here on is not short.
const LONG: u128 = 1 << 36;

/// Whether it is a whole number below 2^36 in size.
#[inline(always)]
fn is_short(x: Frac) -> bool
    ensures { IsTrue result ↔ IsShort x }
{
    let bottom = x.denominator();
    let top = x.numerator_size();
    bottom == 1 && top < LONG
}

/// Whether a value is short or infinite.
#[inline(always)]
fn is_short_value(v: Ext) -> bool
    ensures { IsTrue result ↔ IsShortValue v }
{
    match v {
        Extended::Inf => true,
        Extended::Fin(x) => is_short(x),
    }
}

/// Whether both numbers of a line are short, where there is one.
#[inline(always)]
fn is_short_line(line: &Option<Line>) -> bool
    ensures { IsTrue result ↔ IsShortLine line.now }
{
    match line {
        None => true,
        Some(l) => is_short(l.icept) && is_short(l.slope),
    }
}

/// Whether all numbers of a piece are short.
#[inline(always)]
fn is_short_piece(piece: &Piece) -> bool
    ensures { IsTrue result ↔ IsShortPiece piece.now }
{
    is_short(piece.x) && is_short_value(piece.at) && is_short_line(&piece.line)
}

/// Whether all numbers of some pieces are short.
#[inline]
fn are_short_pieces(pieces: &[Piece]) -> bool
    ensures { IsTrue result ↔ Each IsShortPiece pieces.now }
{
    for piece in pieces {
        if !is_short_piece(piece) {
            return false;
        }
    }
    true
}

/// Whether all numbers of a tail are short.
#[inline]
fn is_short_tail(tail: &Tail) -> bool
    ensures { IsTrue result ↔ IsShortTail tail.now }
{
    match tail {
        Tail::Periodic { rank, period, rise } => {
            is_short(*rank) && is_short(*period) && is_short(*rise)
        }
        Tail::Affine { rank } => is_short(*rank),
        Tail::Infinite { rank } => is_short(*rank),
    }
}

/// Whether all numbers of a curve are short.
fn is_short_curve(c: &Curve) -> bool
    ensures { IsTrue result ↔ IsShortCurve c.now }
{
    is_short_tail(c.tail()) && are_short_pieces(c.pieces())
}

/// Whether all numbers of a call's operands are short; not where one is scaled.
#[inline]
fn are_short(operands: Operands, f: &Curve, g: &Curve) -> bool
    ensures { IsTrue result ↔ AreShort operands f.now g.now }
{
    match operands {
        Operands::First => is_short_curve(f),
        Operands::Both => is_short_curve(f) && is_short_curve(g),
        Operands::FirstScaled(_) => false,
    }
}

/// Whether the numbers that belong to the kind itself are short.
#[inline]
fn is_short_kind(op: &OpKind) -> bool
    ensures { IsTrue result ↔ IsShortKind op.now }
{
    match op {
        OpKind::PosMinus(value) => is_short(*value),
        OpKind::Shift(by) => is_short_value(*by),
        OpKind::FifoLeft(theta) => is_short_value(*theta),
        _ => true,
    }
}

/// Whether all numbers of a call over the end of its window are short.
pub(crate) fn is_short_call(op: &OpKind, f: &Curve, g: &Curve, end: Frac) -> bool
    ensures { IsTrue result ↔ IsShortCall op.now f.now g.now end }
{
    is_short(end) && is_short_kind(op) && are_short(op.operands(), f, g)
}
