//! Pieces moved right.

ghost use Rattle.std.specs.Prelude.{◌≡◌, pos, IfOk};
ghost use Rattle.rational.specs.Rational.{int};
ghost use Rattle.upp_curve.specs.affine_segment.Pieces.{Each};
ghost use Rattle.plain_operators.specs.running.Moved.{moved_line, moved_piece, silence, moved_right, LineMoves, PieceMoves};

use fraction128::{Ext, Frac, difference, is_less, product, sum};
use rational::Extended;
use std::alloc::{AllocError, Global};
use upp_curve::affine_segment::{Line, Piece};

// A line that may be missing, moved right by theta.
fn moved_line(line: Option<Line>, theta: Frac) -> Option<Line>
    requires { LineMoves theta line }
    ensures { result ≡ moved_line theta line }
{
    match line {
        None => None,
        Some(l) => Some(Line {
            icept: difference(l.icept, product(l.slope, theta)),
            slope: l.slope,
        }),
    }
}

// The value at the start of a piece, but infinity at 0.
fn value_past_zero(p: &Piece) -> Ext
    ensures { result ≡ (moved_piece (int (pos 0)) p.now).at }
{
    if is_less(Frac::zero(), p.x) {
        p.at
    } else {
        Extended::Inf
    }
}

fn moved_piece(p: &Piece, theta: Frac) -> Piece
    requires { PieceMoves theta p.now }
    ensures { result ≡ moved_piece theta p.now }
{
    Piece {
        x: sum(p.x, theta),
        at: value_past_zero(p),
        line: moved_line(p.line, theta),
    }
}

// What is before the moved pieces.
fn silence(alloc: Global, theta: Frac) -> Result<Vec<Piece>, AllocError>
    ensures { IfOk result (λ v. v.items ≡ silence theta) }
{
    let mut pieces = Vec::new(alloc);
    if is_less(Frac::zero(), theta) {
        pieces.push(Piece {
            x: Frac::zero(),
            at: Extended::Inf,
            line: None,
        })?;
    }
    Ok(pieces)
}

/// Pieces moved right by theta, those of them that start before `end`; infinite up to theta, theta included.
pub(crate) fn moved_right(
    alloc: Global,
    pieces: &[Piece],
    theta: Frac,
    end: Frac,
) -> Result<Vec<Piece>, AllocError>
    requires { Each (PieceMoves theta) pieces.now }
    ensures { IfOk result (λ v. v.items ≡ moved_right theta end pieces.now) }
{
    let mut moved = silence(alloc, theta)?;
    for p in pieces {
        let q = moved_piece(p, theta);
        if !is_less(q.x, end) {
            return Ok(moved);
        }
        moved.push(q)?;
    }
    Ok(moved)
}
