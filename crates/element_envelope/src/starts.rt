//! Whether pieces are nowhere above the limits beside a start, and the starts at which they do not bend downwards.

ghost use Rattle.std.specs.Prelude.{◌≡◌, IsTrue, IfOk, None};
ghost use Rattle.rational.specs.Rational.{ℚ, ◌<ℚ◌};
ghost use Rattle.rational.specs.Extended.{◌≤ₑ◌};
ghost use Rattle.upp_curve.specs.affine_segment.Values.{line_at, line_value};
ghost use Rattle.upp_curve.specs.affine_segment.Fits.{LineFits, LineFitsAt};
ghost use Rattle.element_envelope.specs.Copies.{LowAtStarts};
ghost use Rattle.element_envelope.specs.CopyWindows.{HaveWindowRoom};
ghost use Rattle.element_envelope.specs.Turnings.{BendsDown, IsThinned};

use fraction128::{Ext, Frac, is_less};
use rational::Extended;
use std::alloc::{AllocError, Global};
use upp_curve::affine_segment::{Line, Piece, value};

/// Whether a value is at most that of a line at x; no line is infinity.
pub(crate) fn is_below(v: Ext, line: &Option<Line>, x: Frac) -> bool
    requires { LineFitsAt x line.now }
    ensures { IsTrue result → v ≤ₑ line_value line.now x }
{
    match line {
        None => true,
        Some(line) => match v {
            Extended::Inf => false,
            Extended::Fin(v) => !is_less(value(line, x).unwrap(), v),
        },
    }
}

/// Whether the value at each start is at most the limits before and after it.
pub(crate) fn are_low_at_starts(pieces: &[Piece]) -> bool
    requires { (end : ℚ) × HaveWindowRoom end pieces.now }
    ensures { IsTrue result → LowAtStarts pieces.now }
{
    let mut before = None;
    for p in pieces {
        if !is_below(p.at, &before, p.x) {
            return false;
        }
        if !is_below(p.at, &p.line, p.x) {
            return false;
        }
        before = p.line;
    }
    true
}

// Whether a line has the value v at x.
fn goes_through(line: &Line, x: Frac, v: Frac) -> bool
    requires { LineFits x line.now }
    ensures { IsTrue result → v ≡ line_at line.now x }
{
    value(line, x).unwrap() == v
}

// Whether two lines meet in a value at x, and the second is the flatter.
fn bend_down(first: &Line, second: &Line, x: Frac, v: Frac) -> bool
    requires left { LineFits x first.now }
    requires right { LineFits x second.now }
    ensures left { IsTrue result → v ≡ line_at first.now x }
    ensures right { IsTrue result → v ≡ line_at second.now x }
    ensures down { IsTrue result → second.now.slope <ℚ first.now.slope }
{
    if !is_less(second.slope, first.slope) {
        return false;
    }
    if !goes_through(first, x, v) {
        return false;
    }
    goes_through(second, x, v)
}

// Whether a piece continues the line before it, with a smaller slope.
fn bends_down(before: &Option<Line>, p: &Piece) -> bool
    requires left { LineFitsAt p.now.x before.now }
    requires right { LineFitsAt p.now.x p.now.line }
    ensures { IsTrue result → BendsDown before.now p.now }
{
    match before {
        None => false,
        Some(first) => match &p.line {
            None => false,
            Some(second) => match p.at {
                Extended::Inf => false,
                Extended::Fin(v) => bend_down(first, second, p.x, v),
            },
        },
    }
}

/// The pieces that do not bend downwards where they start.
pub(crate) fn turning_starts(alloc: Global, pieces: &[Piece]) -> Result<Vec<Piece>, AllocError>
    requires { (end : ℚ) × HaveWindowRoom end pieces.now }
    ensures { IfOk result (λ v. IsThinned None pieces.now v.items) }
{
    let mut kept = Vec::with_capacity(alloc, pieces.len())?;
    let mut before = None;
    for p in pieces {
        if !bends_down(&before, p) {
            kept.push(*p)?;
        }
        before = p.line;
    }
    Ok(kept)
}
