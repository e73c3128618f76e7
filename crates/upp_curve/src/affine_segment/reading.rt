//! How pieces are read at a time, where each step fits.

ghost use Rattle.std.specs.Prelude.{◌≡◌, pos, List, ◌∷◌};
ghost use Rattle.rational.specs.Rational.{int, ◌≤ℚ◌, ◌<ℚ◌, le_q};
ghost use Rattle.upp_curve.specs.affine_segment.Values.{line_at, line_value};
ghost use Rattle.upp_curve.specs.affine_segment.Pieces.{StartsAtZero};
ghost use Rattle.upp_curve.specs.affine_segment.Reading.{piece_in, piece_value, read, next_in};
ghost use Rattle.upp_curve.specs.affine_segment.Fits.{LineFits, LineFitsAt, ReadFits};

use crate::affine_segment::line::{Line, Piece};
use crate::affine_segment::short_line::short_value;
use fraction128::{Ext, Frac, product, sum};
use rational::Extended;
use std::cmp::Ordering;

/// The value of a line at t.
#[inline]
pub fn line_at(line: &Line, t: Frac) -> Frac
    requires { LineFits t line.now }
    ensures { result ≡ line_at line.now t }
{
    // A level line, as of a stair, takes no product.
    if line.slope == Frac::zero() {
        return line.icept;
    }
    if line.slope.denominator() == 1 && t.denominator() == 1 && line.icept.denominator() == 1 {
        return sum(line.icept, product(line.slope, t));
    }
    line_apart(line, t)
}

// A call of its own, so that only the value of whole numbers is written out where it is called.
#[inline(never)]
fn line_apart(line: &Line, t: Frac) -> Frac
    requires { LineFits t line.now }
    ensures { result ≡ line_at line.now t }
{
    match short_value(line, t) {
        Some(v) => v,
        None => sum(line.icept, product(line.slope, t)),
    }
}

/// The value at t of a line that may be missing: no line is infinity.
#[inline(always)]
pub fn line_value(line: Option<Line>, t: Frac) -> Ext
    requires { LineFitsAt t line }
    ensures { result ≡ line_value line t }
{
    match line {
        None => Extended::Inf,
        Some(l) => Extended::Fin(line_at(&l, t)),
    }
}

fn starts_by(p: &Piece, t: Frac) -> bool
    ensures { result ≡ le_q p.now.x t }
{
    p.x <= t
}

/// The last piece that starts at t or before, by binary search.
pub fn piece_at(pieces: &[Piece], t: Frac) -> Piece
    requires starts { StartsAtZero pieces.now }
    requires time { int (pos 0) ≤ℚ t }
    ensures { (p : Piece) (ps : List Piece) → pieces.now ≡ p ∷ ps → result ≡ piece_in p ps t }
{
    let count = pieces.partition_point(|p| starts_by(p, t));
    pieces[count - 1]
}

/// Where the first piece after t starts, and `after` where none does; by binary search.
pub fn next_start(pieces: &[Piece], t: Frac, after: Option<Frac>) -> Option<Frac>
    requires { StartsAtZero pieces.now }
    ensures { result ≡ next_in pieces.now t after }
{
    let count = pieces.partition_point(|p| starts_by(p, t));
    match pieces.get(count) {
        None => after,
        Some(p) => Some(p.x),
    }
}

/// The value at t of a piece that starts at t or before.
#[inline]
pub fn piece_value(p: &Piece, t: Frac) -> Ext
    requires { p.now.x <ℚ t → LineFitsAt t p.now.line }
    ensures { result ≡ piece_value p.now t }
{
    match t.cmp(&p.x) {
        Ordering::Greater => line_value(p.line, t),
        _ => p.at,
    }
}

/// The value at t of pieces from 0 on.
pub fn read(pieces: &[Piece], t: Frac) -> Ext
    requires starts { StartsAtZero pieces.now }
    requires time { int (pos 0) ≤ℚ t }
    requires fits { ReadFits pieces.now t }
    ensures { result ≡ read pieces.now t }
{
    piece_value(&piece_at(pieces, t), t)
}
