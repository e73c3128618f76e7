//! Whether of two windows one alone needs copies at its starts, and at which of them.

ghost use Rattle.std.specs.Prelude.{◌≡◌, pos, IsTrue, IfOk, IfSome, None};
ghost use Rattle.rational.specs.Rational.{ℚ, int};
ghost use Rattle.upp_curve.specs.affine_segment.Pieces.{Each};
ghost use Rattle.upp_curve.specs.affine_segment.Fits.{LineFitsAt};
ghost use Rattle.upp_curve.specs.Shapes.{LineRises};
ghost use Rattle.element_envelope.specs.CopyWindows.{HaveWindowRoom};
ghost use Rattle.element_envelope.specs.NearStarts.{RisesWithin, IsWithout};
ghost use Rattle.element_envelope.specs.OneSide.{IsReached, NeverFalls, IsApart, IsOneSided};

use crate::near::{plain_slope, steepest};
use fraction128::{Frac, is_less};
use rational::Extended;
use std::alloc::{AllocError, Global};
use upp_curve::affine_segment::{Line, Piece, value};

// Whether a piece starts no lower than the line before it gets to, where there is one.
fn is_reached(before: &Option<Line>, p: &Piece) -> bool
    requires { LineFitsAt p.now.x before.now }
    ensures { IsTrue result → IsReached before.now p.now }
{
    match before {
        None => true,
        Some(line) => match p.at {
            Extended::Inf => true,
            Extended::Fin(v) => !is_less(v, value(line, p.x).unwrap()),
        },
    }
}

// Whether a line does not fall.
fn is_rising(line: &Option<Line>) -> bool
    ensures { IsTrue result → LineRises line.now }
{
    match line {
        None => true,
        Some(line) => !is_less(line.slope, Frac::zero()),
    }
}

// Whether no line of the pieces falls, and none starts below the line before it.
fn never_fall(pieces: &[Piece]) -> bool
    requires { (end : ℚ) × HaveWindowRoom end pieces.now }
    ensures { IsTrue result → NeverFalls None pieces.now }
{
    let mut before = None;
    for p in pieces {
        if !is_reached(&before, p) {
            return false;
        }
        if !is_rising(&p.line) {
            return false;
        }
        before = p.line;
    }
    true
}

// Whether a line does not rise, or rises by r at least.
fn is_apart(line: &Option<Line>, r: Frac) -> bool
    ensures { IsTrue result → IsApart r line.now }
{
    match line {
        None => true,
        Some(line) => {
            if !is_less(Frac::zero(), line.slope) {
                return true;
            }
            !is_less(line.slope, r)
        }
    }
}

// Whether each line of the pieces does.
fn are_apart(pieces: &[Piece], r: Frac) -> bool
    ensures { IsTrue result → Each (λ p. IsApart r p.line) pieces.now }
{
    for p in pieces {
        if !is_apart(&p.line, r) {
            return false;
        }
    }
    true
}

// Whether a piece goes on from its value, with no jump up, with a line that does not rise.
fn is_flat(p: &Piece) -> bool
    requires { LineFitsAt p.now.x p.now.line }
    ensures { IsTrue result → RisesWithin (int (pos 0)) p.now }
{
    match plain_slope(p) {
        None => false,
        Some(slope) => !is_less(Frac::zero(), slope),
    }
}

// The pieces that do not.
fn steep_starts(alloc: Global, pieces: &[Piece]) -> Result<Vec<Piece>, AllocError>
    requires { (end : ℚ) × HaveWindowRoom end pieces.now }
    ensures { IfOk result (λ v. IsWithout (RisesWithin (int (pos 0))) pieces.now v.items) }
{
    let mut kept = Vec::with_capacity(alloc, pieces.len())?;
    for p in pieces {
        if !is_flat(p) {
            kept.push(*p)?;
        }
    }
    Ok(kept)
}

/// The starts of f that need copies of g, where no start of g but the first needs one of f; none where more of them may.
pub(crate) fn starts_of_one_side(
    alloc: Global,
    f: &[Piece],
    g: &[Piece],
) -> Result<Option<Vec<Piece>>, AllocError>
    requires first { (end : ℚ) × HaveWindowRoom end f.now }
    requires second { (end : ℚ) × HaveWindowRoom end g.now }
    ensures { IfOk result (λ found. IfSome found (λ v. IsOneSided f.now g.now v.items)) }
{
    let Some(slope) = steepest(g) else {
        return Ok(None);
    };
    if !never_fall(g) {
        return Ok(None);
    }
    if !are_apart(f, slope) {
        return Ok(None);
    }
    Ok(Some(steep_starts(alloc, f)?))
}
