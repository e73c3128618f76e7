//! The least of what all pairs of two lists of elements make.

ghost use Rattle.std.specs.Prelude.{◌≡◌, pos, [], ◌∷◌, length, IfOk, IsTrue, All};
ghost use Rattle.rational.specs.Rational.{int, ◌+ℚ◌, ◌≤ℚ◌};
ghost use Rattle.upp_curve.specs.affine_segment.Elements.{start_of};
ghost use Rattle.upp_curve.specs.Unrolled.{upto};
ghost use Rattle.upp_curve.specs.affine_segment.Reading.{nothing_at};
ghost use Rattle.element_envelope.specs.EnvelopeWindows.{EnvelopeRoom, IsEnvelopeWindow};

use crate::pair::joined;
use crate::window::joined_window;
use curve_call::window_lower;
use fraction128::{Frac, is_less};
use rational::Extended;
use std::alloc::{AllocError, Global};
use upp_curve::affine_segment::{Element, Piece, start_of};
use upp_normal::count_before;

/// Pieces, or want of memory.
pub(crate) type MadePieces = Result<Vec<Piece>, AllocError>;

/// The window that is infinite throughout.
pub(crate) fn nothing(alloc: Global) -> Result<Vec<Piece>, AllocError>
    ensures { IfOk result (λ v. v.items ≡ nothing_at (int (pos 0)) ∷ []) }
{
    let mut pieces = Vec::new(alloc);
    pieces.push(Piece {
        x: Frac::zero(),
        at: Extended::Inf,
        line: None,
    })?;
    Ok(pieces)
}

// Those of the pieces that start before `end`.
fn early(pieces: Vec<Piece>, end: Frac) -> Vec<Piece>
    ensures { result.items ≡ upto end pieces.items }
{
    let mut kept = pieces;
    let count = count_before(&kept, end);
    kept.truncate(count);
    kept
}

// What two elements make, as pieces that start before `end`.
fn pair_window(alloc: Global, a: &Element, b: &Element, end: Frac) -> Result<Vec<Piece>, AllocError>
    requires { EnvelopeRoom end (a.now ∷ []) (b.now ∷ []) }
    ensures { IfOk result (λ v. IsEnvelopeWindow end (a.now ∷ []) (b.now ∷ []) v.items) }
{
    let pieces = joined_window(alloc, &joined(a, b))?;
    Ok(early(pieces, end))
}

// Whether two elements make nothing that starts before `end`.
fn is_late(x: &Element, y: &Element, end: Frac) -> bool
    ensures { IsTrue result → end ≤ℚ start_of x.now +ℚ start_of y.now }
{
    match Frac::add(start_of(x), start_of(y)) {
        Ok(start) => !is_less(start, end),
        Err(_) => false,
    }
}

// Whether an element makes nothing that starts before `end` with any of the others.
fn is_late_beside(x: &Element, ys: &[Element], end: Frac) -> bool
    ensures { IsTrue result → All (λ y. end ≤ℚ start_of x.now +ℚ start_of y) ys.now }
{
    for y in ys {
        if !is_late(x, y, end) {
            return false;
        }
    }
    true
}

// Whether no pair makes anything that starts before `end`.
fn are_late(xs: &[Element], ys: &[Element], end: Frac) -> bool
    ensures { IsTrue result → All (λ x. All (λ y. end ≤ℚ start_of x +ℚ start_of y) ys.now) xs.now }
{
    for x in xs {
        if !is_late_beside(x, ys, end) {
            return false;
        }
    }
    true
}

/// The least of what all pairs of two lists of elements make, at each time from 0 on and before `end`, as pieces. The
/// longer work is halved, and pairs are left out that start at `end` or later. Only a lack of memory is an error.
pub fn envelope(
    alloc: Global,
    xs: &[Element],
    ys: &[Element],
    end: Frac,
) -> Result<Vec<Piece>, AllocError>
    requires { EnvelopeRoom end xs.now ys.now }
    ensures { IfOk result (λ v. IsEnvelopeWindow end xs.now ys.now v.items) }
{
    if xs.len() == 0 {
        return nothing(alloc);
    }
    if ys.len() == 0 {
        return nothing(alloc);
    }
    if are_late(xs, ys, end) {
        return nothing(alloc);
    }
    if xs.len() > 1 {
        let (front, back) = xs.split_at(xs.len() / 2);
        let f = envelope(alloc, front, ys, end)?;
        let g = envelope(alloc, back, ys, end)?;
        return window_lower(alloc, &f, &g, end);
    }
    if ys.len() > 1 {
        let (front, back) = ys.split_at(ys.len() / 2);
        let f = envelope(alloc, xs, front, end)?;
        let g = envelope(alloc, xs, back, end)?;
        return window_lower(alloc, &f, &g, end);
    }
    pair_window(alloc, &xs[0], &ys[0], end)
}
