//! Whether a curve jumps, by what is read of each of its pieces.

ghost use Rattle.std.specs.Prelude.{◌≡◌, ◌↔◌, ◌∷◌, IsTrue};
ghost use Rattle.upp_curve.specs.affine_segment.Values.{line_value};
ghost use Rattle.upp_curve.specs.Curve.{value_at};
ghost use Rattle.min_plus.specs.Functions.{IsRising};
ghost use Rattle.upp_curve.specs.affine_segment.Fits.{LineFitsAt};
ghost use Rattle.upp_curve.specs.Readable.{LineFitsTo, EachFits};
ghost use Rattle.upp_curve.specs.Shapes.{end_time};
ghost use Rattle.min_plus.specs.Continuity.{IsContinuous};
ghost use Rattle.upp_curve.specs.JoinedPieces.{PieceJoins, PiecesJoin};

use crate::affine_segment::{Line, Piece, line_at};
use crate::curve::{Curve, Tail};
use crate::shape::{End, period_end};
use fraction128::{Ext, Frac};
use rational::Extended;

// Whether the value of a line at x, infinity where there is none, is this one.
fn line_reaches(line: Option<Line>, x: Frac, at: Ext) -> bool
    requires { LineFitsAt x line }
    ensures { IsTrue result ↔ (line_value line x ≡ at) }
{
    match line {
        None => match at {
            Extended::Inf => true,
            Extended::Fin(_) => false,
        },
        Some(l) => match at {
            Extended::Inf => false,
            Extended::Fin(v) => line_at(&l, x) == v,
        },
    }
}

fn piece_joins(p: &Piece, next: Option<End>) -> bool
    requires start { LineFitsAt p.now.x p.now.line }
    requires end { LineFitsTo (end_time next) p.now.line }
    ensures { IsTrue result ↔ PieceJoins p.now next }
{
    if !line_reaches(p.line, p.x, p.at) {
        return false;
    }
    match next {
        None => true,
        Some(end) => line_reaches(p.line, end.x, end.at),
    }
}

// Whether each piece begins at its value and ends at the next one's, and the last at that of `end`.
fn pieces_join(first: Piece, rest: &[Piece], end: Option<End>) -> bool
    requires { EachFits (end_time end) (first ∷ rest.now) }
    ensures { IsTrue result ↔ PiecesJoin end (first ∷ rest.now) }
{
    let mut last = first;
    for p in rest {
        if !piece_joins(&last, Some(End { x: p.x, at: p.at })) {
            return false;
        }
        last = *p;
    }
    piece_joins(&last, end)
}

// The same of all pieces.
fn join_to(pieces: &[Piece], end: Option<End>) -> bool
    requires { EachFits (end_time end) pieces.now }
    ensures { IsTrue result ↔ PiecesJoin end pieces.now }
{
    match pieces {
        [] => true,
        [first, rest @ ..] => pieces_join(*first, rest, end),
    }
}

/// Whether a curve that never falls is continuous. It compares what is read of its pieces.
pub fn is_continuous(c: &Curve) -> bool
    requires { IsRising (value_at c.now) }
    ensures { IsTrue result ↔ IsContinuous (value_at c.now) }
{
    let pieces = c.pieces();
    match *c.tail() {
        Tail::Periodic { rank, period, rise } => {
            let end = period_end(pieces, rank, period, rise);
            join_to(pieces, Some(end))
        }
        _ => join_to(pieces, None),
    }
}
