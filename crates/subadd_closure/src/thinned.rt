//! Some elements without those that are nowhere below a window.

ghost use Rattle.std.specs.Prelude.{◌≡◌, ◌+◌, drop, IfOk, IsTrue, Some};
ghost use Rattle.rational.specs.Rational.{ℚ, ◌≤ℚ◌, ◌<ℚ◌};
ghost use Rattle.rational.specs.Extended.{◌≤ₑ◌, ◌<ₑ◌};
ghost use Rattle.rational.specs.declared.Extended.TheVariants.{Fin};
ghost use Rattle.upp_curve.specs.affine_segment.Values.{line_at, line_value};
ghost use Rattle.upp_curve.specs.affine_segment.Reading.{piece_value, read};
ghost use Rattle.upp_curve.specs.affine_segment.Pieces.{Each, StartsAtZero};
ghost use Rattle.min_plus.specs.Functions.{zero_q};
ghost use Rattle.upp_curve.specs.Unrolled.{upto};
ghost use Rattle.subadd_closure.specs.Thinned.{LiesUnder, IsBefore, IsOver, IsThinned};

use fraction128::{Ext, Frac, is_less};
use rational::Extended;
use std::alloc::{AllocError, Global};
use upp_curve::affine_segment::{Element, Line, Piece, start_of, value};

/// Whether a is at most b.
pub(crate) fn is_at_most(a: Frac, b: Frac) -> bool
    ensures { IsTrue result → a ≤ℚ b }
{
    !is_less(b, a)
}

// Whether a line begins no higher than another at 0, and rises no more.
fn is_low(a: &Line, b: &Line) -> bool
    ensures { IsTrue result → (a.now.icept ≤ℚ b.now.icept) × (a.now.slope ≤ℚ b.now.slope) }
{
    if is_at_most(a.icept, b.icept) {
        return is_at_most(a.slope, b.slope);
    }
    false
}

// Whether the value at the start of a piece is a number that is known to be not above the line there.
fn starts_under(p: &Piece, line: &Line) -> bool
    ensures { IsTrue result → p.now.at ≤ₑ Fin (line_at line.now p.now.x) }
{
    let Extended::Fin(v) = p.at else {
        return false;
    };
    match value(line, p.x) {
        Ok(top) => is_at_most(v, top),
        Err(_) => false,
    }
}

// Whether a line is not above another at a time, where the steps to both values fit.
fn is_low_at(a: &Line, b: &Line, t: Frac) -> bool
    ensures { IsTrue result → line_at a.now t ≤ℚ line_at b.now t }
{
    let Ok(low) = value(a, t) else {
        return false;
    };
    match value(b, t) {
        Ok(top) => is_at_most(low, top),
        Err(_) => false,
    }
}

// Whether the line of a piece is known to be under a line between two times, by where both begin and end there. At the
// first of the times itself nothing is asked.
fn ends_under(p: &Piece, own: &Line, from: Frac, to: Frac, line: &Line) -> bool
    requires { p.now.line ≡ Some own.now }
    ensures { IsTrue result → LiesUnder line.now from to p.now }
{
    if !is_low_at(own, line, to) {
        return false;
    }
    if !is_less(from, p.x) {
        return is_low_at(own, line, from);
    }
    if is_low_at(own, line, p.x) {
        return starts_under(p, line);
    }
    false
}

// Whether a piece is known to be nowhere above a line between two times.
fn lies_under(p: &Piece, from: Frac, to: Frac, line: &Line) -> bool
    ensures { IsTrue result → LiesUnder line.now from to p.now }
{
    let Some(own) = p.line else {
        return false;
    };
    if is_low(&own, line) {
        if starts_under(p, line) {
            return true;
        }
    }
    ends_under(p, &own, from, to, line)
}

// Whether the first pieces, those that start before `to`, are known to be nowhere above a line between two times.
fn all_under(pieces: &[Piece], from: Frac, to: Frac, line: &Line) -> bool
    ensures { IsTrue result → Each (LiesUnder line.now from to) (upto to pieces.now) }
{
    for p in pieces {
        if !is_less(p.x, to) {
            return true;
        }
        if !lies_under(p, from, to, line) {
            return false;
        }
    }
    true
}

// The end of a segment, or the end of the window where that is earlier.
fn end_within(to: Ext, end: Frac) -> Frac
    ensures { (t : ℚ) → Fin t <ₑ to → t <ℚ end → t <ℚ result }
{
    match to {
        Extended::Inf => end,
        Extended::Fin(e) => e,
    }
}

/// Whether some pieces are known to be nowhere above a line from one time up to another, by those from the k-th on.
pub(crate) fn segment_over(pieces: &[Piece], k: usize, from: Frac, to: Frac, line: &Line) -> bool
    requires starts { StartsAtZero pieces.now }
    ensures { IsTrue result → (t : ℚ) → zero_q ≤ℚ t → from <ℚ t → t <ℚ to
        → read pieces.now t ≤ₑ Fin (line_at line.now t) }
{
    if k >= pieces.len() {
        return false;
    }
    if is_less(from, pieces[k].x) {
        return false;
    }
    all_under(&pieces[k..], from, to, line)
}

// Whether a value is a number that is at most another.
fn is_number_by(value: Ext, top: Frac) -> bool
    ensures { IsTrue result → value ≤ₑ Fin top }
{
    match value {
        Extended::Inf => false,
        Extended::Fin(v) => is_at_most(v, top),
    }
}

// Whether the value of a line at a time is known to be at most a number; no line is infinity.
fn line_under(line: Option<Line>, x: Frac, v: Frac) -> bool
    ensures { IsTrue result → line_value line x ≤ₑ Fin v }
{
    let Some(own) = line else {
        return false;
    };
    match value(&own, x) {
        Ok(found) => is_at_most(found, v),
        Err(_) => false,
    }
}

// Whether the value of a piece at a time, at its start or later, is known to be at most a number.
fn piece_under(p: &Piece, x: Frac, v: Frac) -> bool
    ensures { IsTrue result → piece_value p.now x ≤ₑ Fin v }
{
    if is_less(p.x, x) {
        return line_under(p.line, x, v);
    }
    is_number_by(p.at, v)
}

// Whether none of some pieces, in the order of their starts, starts at a time or before from the k-th on.
fn starts_later(pieces: &[Piece], k: usize, x: Frac) -> bool
    ensures { IsTrue result → IsBefore x (drop k pieces.now) }
{
    if k >= pieces.len() {
        return true;
    }
    is_less(x, pieces[k].x)
}

/// Whether some pieces are known to be at most a number at a time, where the k-th of them is the last that starts by then.
pub(crate) fn point_over(pieces: &[Piece], k: usize, x: Frac, v: Frac) -> bool
    requires starts { StartsAtZero pieces.now }
    ensures { IsTrue result → read pieces.now x ≤ₑ Fin v }
{
    if k >= pieces.len() {
        return false;
    }
    let p = &pieces[k];
    if is_less(x, p.x) {
        return false;
    }
    if !starts_later(pieces, k + 1, x) {
        return false;
    }
    piece_under(p, x, v)
}

// Whether an element is known to be nowhere below some pieces before the window's end.
fn is_over(pieces: &[Piece], k: usize, e: &Element, end: Frac) -> bool
    requires starts { StartsAtZero pieces.now }
    ensures { IsTrue result → IsOver (read pieces.now) end e.now }
{
    match *e {
        Element::Point { x, v } => {
            if is_less(Frac::zero(), x) {
                return point_over(pieces, k, x, v);
            }
            false
        }
        Element::Open { from, to, line } => {
            if is_less(from, Frac::zero()) {
                return false;
            }
            segment_over(pieces, k, from, end_within(to, end), &line)
        }
    }
}

// The last of the pieces from the k-th on, in their order, that starts at t or before; k where none does.
fn last_by(pieces: &[Piece], k: usize, t: Frac) -> usize {
    let mut last = k;
    for i in k..pieces.len() {
        if is_less(t, pieces[i].x) {
            return last;
        }
        last = i;
    }
    last
}

/// Those of some elements, in the order of their starts, that are not known to be nowhere below some pieces before the
/// end of a window. The point at 0 is always one of them. Refused only for want of memory.
pub(crate) fn thinned(
    alloc: Global,
    pieces: &[Piece],
    elements: &[Element],
    end: Frac,
) -> Result<Vec<Element>, AllocError>
    requires starts { StartsAtZero pieces.now }
    ensures { IfOk result (λ v. IsThinned (read pieces.now) end elements.now v.items) }
{
    let mut kept = Vec::new(alloc);
    let mut k = 0;
    for e in elements {
        k = last_by(pieces, k, start_of(e));
        if !is_over(pieces, k, e, end) {
            kept.push(*e)?;
        }
    }
    Ok(kept)
}
