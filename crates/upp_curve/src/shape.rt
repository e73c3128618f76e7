//! Whether pieces are finite and whether they rise, by what is read of each.

ghost use Rattle.std.specs.Prelude.{◌≡◌, ◌↔◌, pos, ◌∷◌, IsTrue};
ghost use Rattle.rational.specs.Rational.{int, ◌+ℚ◌, ◌≤ℚ◌};
ghost use Rattle.rational.specs.Ratio.{SumFits};
ghost use Rattle.rational.specs.Extended.{◌≤ₑ◌, ◌+ₑ◌};
ghost use Rattle.upp_curve.specs.affine_segment.Reading.{read};
ghost use Rattle.upp_curve.specs.affine_segment.Pieces.{Each, HasStart, StartsAtZero};
ghost use Rattle.upp_curve.specs.affine_segment.Fits.{LineFits, LineFitsAt};
ghost use Rattle.upp_curve.specs.Readable.{LineFitsTo, EachFits, SumFitsAt};
ghost use Rattle.upp_curve.specs.Steady.{slope_of, last_line};
ghost use Rattle.upp_curve.specs.Shapes.{IsFinitePiece, EndsBelow, PieceRises, PiecesRise, end_time};

use crate::affine_segment::{Line, Piece, line_at, piece_at};
use crate::fitting::raised;
use fraction128::{Ext, Frac, sum};
use rational::Extended;
use std::cmp::Ordering;

/// The end of a piece's stretch: the next start, and the value there.
#[derive(Clone, Copy)]
pub(crate) struct End {
    pub(crate) x: Frac,
    pub(crate) at: Ext,
}

fn is_finite_piece(p: &Piece) -> bool
    ensures { IsTrue result ↔ IsFinitePiece p.now }
{
    match p.at {
        Extended::Inf => false,
        Extended::Fin(_) => p.line.is_some(),
    }
}

// Whether each piece has a number at its start and a line after it.
pub(crate) fn are_finite(pieces: &[Piece]) -> bool
    ensures { IsTrue result ↔ Each IsFinitePiece pieces.now }
{
    for p in pieces {
        if !is_finite_piece(p) {
            return false;
        }
    }
    true
}

fn at_most(a: Ext, b: Ext) -> bool
    ensures { IsTrue result ↔ (a ≤ₑ b) }
{
    match b {
        Extended::Inf => true,
        Extended::Fin(y) => match a {
            Extended::Inf => false,
            Extended::Fin(x) => match x.cmp(&y) {
                Ordering::Greater => false,
                _ => true,
            },
        },
    }
}

// Whether a line comes no higher than the value at the end of its stretch.
fn ends_below(line: &Line, next: Option<End>) -> bool
    requires { LineFitsTo (end_time next) (Some line.now) }
    ensures { IsTrue result ↔ EndsBelow (Some line.now) next }
{
    match next {
        None => true,
        Some(end) => at_most(Extended::Fin(line_at(line, end.x)), end.at),
    }
}

fn line_rises(p: &Piece, line: &Line, next: Option<End>) -> bool
    requires line { p.now.line ≡ Some line.now }
    requires start { LineFits p.now.x line.now }
    requires end { LineFitsTo (end_time next) (Some line.now) }
    ensures { IsTrue result ↔ PieceRises p.now next }
{
    match line.slope.cmp(&Frac::zero()) {
        Ordering::Less => return false,
        _ => {}
    }
    if !at_most(p.at, Extended::Fin(line_at(line, p.x))) {
        return false;
    }
    ends_below(line, next)
}

fn piece_rises(p: &Piece, next: Option<End>) -> bool
    requires start { LineFitsAt p.now.x p.now.line }
    requires end { LineFitsTo (end_time next) p.now.line }
    ensures { IsTrue result ↔ PieceRises p.now next }
{
    match p.line {
        Some(line) => line_rises(p, &line, next),
        None => match next {
            None => true,
            Some(end) => at_most(Extended::Inf, end.at),
        },
    }
}

// Whether each piece rises to the next, and the last to `end`.
pub(crate) fn pieces_rise(first: Piece, rest: &[Piece], end: Option<End>) -> bool
    requires { EachFits (end_time end) (first ∷ rest.now) }
    ensures { IsTrue result ↔ PiecesRise end (first ∷ rest.now) }
{
    let mut last = first;
    for p in rest {
        if !piece_rises(&last, Some(End { x: p.x, at: p.at })) {
            return false;
        }
        last = *p;
    }
    piece_rises(&last, end)
}

// Whether each piece rises to the next, and the last to `end`.
pub(crate) fn rise_to(pieces: &[Piece], end: Option<End>) -> bool
    requires { EachFits (end_time end) pieces.now }
    ensures { IsTrue result ↔ PiecesRise end pieces.now }
{
    match pieces {
        [] => true,
        [first, rest @ ..] => pieces_rise(*first, rest, end),
    }
}

// The end of the first period of a periodic tail: the value there is that at the rank, risen.
pub(crate) fn period_end(pieces: &[Piece], rank: Frac, period: Frac, rise: Frac) -> End
    requires starts { StartsAtZero pieces.now }
    requires rank { int (pos 0) ≤ℚ rank }
    requires start { HasStart rank pieces.now }
    requires end { SumFits rank period }
    requires next { SumFitsAt (read pieces.now rank) rise }
    ensures x { result.x ≡ rank +ℚ period }
    ensures at { result.at ≡ read pieces.now rank +ₑ Extended.Fin rise }
{
    let first = piece_at(pieces, rank).at;
    End {
        x: sum(rank, period),
        at: raised(first, rise),
    }
}

// The slope of the last line; infinity where there is none.
pub(crate) fn last_slope(pieces: &[Piece]) -> Ext
    ensures { result ≡ slope_of (last_line pieces.now) }
{
    match pieces.last() {
        None => Extended::Inf,
        Some(p) => match p.line {
            None => Extended::Inf,
            Some(line) => Extended::Fin(line.slope),
        },
    }
}
