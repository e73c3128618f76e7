//! Which starts are so far above an earlier one that their copies are nowhere below its copy.

ghost use Rattle.std.specs.Prelude.{ℕ, ◌≡◌, ◌∷◌, ◌<◌, length, List, IsTrue, IfOk, IfSome};
ghost use Rattle.rational.specs.Rational.{ℚ, ◌+ℚ◌, ◌-ℚ◌, ◌*ℚ◌, ◌≤ℚ◌};
ghost use Rattle.upp_curve.specs.declared.affine_segment.line.Piece.{Piece as SpecPiece};
ghost use Rattle.upp_curve.specs.affine_segment.Pieces.{Each};
ghost use Rattle.upp_curve.specs.affine_segment.Fits.{LineFitsAt};
ghost use Rattle.element_envelope.specs.CopyWindows.{HaveWindowRoom};
ghost use Rattle.element_envelope.specs.NearStarts.{RisesWithin, IsFar, IsNear};

use crate::pace::{Pace, height};
use fraction128::{Frac, is_less};
use rational::Extended;
use std::alloc::{AllocError, Global};
use upp_curve::affine_segment::{Piece, value};

/// The slope of a piece that goes on from its value with no jump up.
pub(crate) fn plain_slope(p: &Piece) -> Option<Frac>
    requires { LineFitsAt p.now.x p.now.line }
    ensures { IfSome result (λ r. RisesWithin r p.now) }
{
    match &p.line {
        None => None,
        Some(line) => match p.at {
            Extended::Inf => None,
            Extended::Fin(v) => {
                if is_less(v, value(line, p.x).unwrap()) {
                    return None;
                }
                Some(line.slope)
            }
        },
    }
}

fn larger(a: Frac, b: Frac) -> Frac
    ensures first { a ≤ℚ result }
    ensures second { b ≤ℚ result }
{
    if is_less(a, b) {
        return b;
    }
    a
}

/// The steepest slope of pieces that go on from their values with no jump up; 0 where none is above it.
pub(crate) fn steepest(pieces: &[Piece]) -> Option<Frac>
    requires { (end : ℚ) × HaveWindowRoom end pieces.now }
    ensures { IfSome result (λ r. Each (RisesWithin r) pieces.now) }
{
    let mut most = Frac::zero();
    for p in pieces {
        let Some(slope) = plain_slope(p) else {
            return None;
        };
        most = larger(most, slope);
    }
    Some(most)
}

// What v becomes at most from one time to another at a pace.
fn reached(v: Frac, pace: &Pace, from: Frac, to: Frac) -> Option<Frac>
    ensures { IfSome result (λ w. w ≡ v +ℚ pace.now.more +ℚ pace.now.slope *ℚ (to -ℚ from)) }
{
    let Ok(start) = Frac::add(v, pace.more) else {
        return None;
    };
    let Ok(time) = Frac::sub(to, from) else {
        return None;
    };
    let Ok(rise) = Frac::mul(pace.slope, time) else {
        return None;
    };
    match Frac::add(start, rise) {
        Ok(w) => Some(w),
        Err(_) => None,
    }
}

// Whether the second start is later than the first, and at least as high as the first gets to at the pace.
fn is_far(pace: &Pace, p: &Piece, q: &Piece) -> bool
    ensures { IsTrue result → IsFar pace.now.slope pace.now.more p.now q.now }
{
    if !is_less(p.x, q.x) {
        return false;
    }
    let Extended::Fin(first) = p.at else {
        return false;
    };
    let Extended::Fin(second) = q.at else {
        return false;
    };
    match reached(first, pace, p.x, q.x) {
        None => false,
        Some(high) => !is_less(second, high),
    }
}

// Whether the second start is below the first, less what a slope gains up to there.
fn is_lower(slope: Frac, p: &Piece, q: &Piece) -> bool {
    let Extended::Fin(first) = p.at else {
        return true;
    };
    let Extended::Fin(second) = q.at else {
        return false;
    };
    match height(first, slope, p.x) {
        None => false,
        Some(high) => match height(second, slope, q.x) {
            None => false,
            Some(low) => is_less(low, high),
        },
    }
}

/// The number of the start that is the lowest, less what a slope gains up to there.
pub(crate) fn lowest(starts: &[Piece], slope: Frac) -> usize
    requires { 0 < length starts.now }
    ensures { result < length starts.now }
{
    let mut low = 0;
    for i in 1..starts.len() {
        if is_lower(slope, &starts[low], &starts[i]) {
            low = i;
        }
    }
    low
}

/// The starts that are not far from one of them.
pub(crate) fn near_starts(
    alloc: Global,
    first: &Piece,
    starts: &[Piece],
    pace: &Pace,
) -> Result<Vec<Piece>, AllocError>
    ensures { IfOk result (λ v. IsNear pace.now.slope pace.now.more first.now starts.now v.items) }
{
    let mut kept = Vec::with_capacity(alloc, starts.len())?;
    for q in starts {
        if !is_far(pace, first, q) {
            kept.push(*q)?;
        }
    }
    Ok(kept)
}
