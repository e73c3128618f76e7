//! The elements of the first operand of a convolution without those that make nothing below it with some elements of the
//! second.

ghost use Rattle.std.specs.Prelude.{◌≡◌, ◌⊎◌, All, IfOk, IfSome, IsTrue};
ghost use Rattle.rational.specs.Rational.{ℚ, ◌+ℚ◌, ◌*ℚ◌, ◌≤ℚ◌};
ghost use Rattle.upp_curve.specs.affine_segment.Values.{line_at};
ghost use Rattle.upp_curve.specs.affine_segment.Elements.{Covers, start_of};
ghost use Rattle.upp_curve.specs.affine_segment.Reading.{read};
ghost use Rattle.upp_curve.specs.affine_segment.Pieces.{StartsAtZero};
ghost use Rattle.min_plus.specs.Functions.{zero_q};
ghost use Rattle.subadd_closure.specs.Useful.{AreUseful, EndsBy, HasSegment, IsFloor, IsFloorLine};
ghost use Rattle.subadd_closure.specs.Useful.{IsIdle, IsLimit, IsOrigin, MakesOver};

use crate::thinned::{point_over, segment_over};
use fraction128::{Ext, Frac, is_less};
use rational::Extended;
use std::alloc::{AllocError, Global};
use upp_curve::affine_segment::{Element, Line, Piece, start_of, value};

// The slope of a segment; `other` of a point.
fn slope_or(e: &Element, other: Frac) -> Frac {
    match *e {
        Element::Point { x: _, v: _ } => other,
        Element::Open {
            from: _,
            to: _,
            line,
        } => line.slope,
    }
}

// The smaller slope of two elements.
fn least_slope(x: &Element, y: &Element) -> Frac {
    let a = slope_or(x, slope_or(y, Frac::zero()));
    let b = slope_or(y, a);
    if is_less(a, b) {
        return a;
    }
    b
}

// The value of a line at x, where its slope is at least m.
fn floor_at(line: &Line, x: Frac, m: Frac) -> Option<Frac>
    ensures value { IfSome result (λ v. v ≡ line_at line.now x) }
    ensures steep { IfSome result (λ _. m ≤ℚ line.now.slope) }
{
    if is_less(line.slope, m) {
        return None;
    }
    match value(line, x) {
        Ok(v) => Some(v),
        Err(_) => None,
    }
}

// From which value at its start on an element rises with a slope of at least m.
fn floor_of(e: &Element, m: Frac) -> Option<Frac>
    ensures { IfSome result (IsFloor m e.now) }
{
    match *e {
        Element::Point { x: _, v } => Some(v),
        Element::Open { from, to: _, line } => floor_at(&line, from, m),
    }
}

// The sum of two numbers.
fn sum_of(a: Frac, b: Frac) -> Option<Frac>
    ensures { IfSome result (λ c. c ≡ a +ℚ b) }
{
    match Frac::add(a, b) {
        Ok(c) => Some(c),
        Err(_) => None,
    }
}

// The line of the slope m with the value v at x.
fn line_from(x: Frac, v: Frac, m: Frac) -> Option<Line>
    ensures slope { IfSome result (λ l. l.slope ≡ m) }
    ensures value { IfSome result (λ l. l.icept +ℚ m *ℚ x ≡ v) }
{
    let Ok(risen) = Frac::mul(m, x) else {
        return None;
    };
    match Frac::sub(v, risen) {
        Ok(icept) => Some(Line { icept, slope: m }),
        Err(_) => None,
    }
}

// Where an element ends.
fn end_of(e: &Element) -> Ext
    ensures { (t : ℚ) → Covers e.now t → EndsBy e.now t result }
{
    match *e {
        Element::Point { x, v: _ } => Extended::Fin(x),
        Element::Open {
            from: _,
            to,
            line: _,
        } => to,
    }
}

// Where the sums of the times of two elements end, one of which is a segment, or the end of the window.
fn limit_of(x: &Element, y: &Element, end: Frac) -> Frac
    ensures { IsLimit x.now y.now end result }
{
    let Extended::Fin(a) = end_of(x) else {
        return end;
    };
    let Extended::Fin(b) = end_of(y) else {
        return end;
    };
    match Frac::add(a, b) {
        Ok(limit) => limit,
        Err(_) => end,
    }
}

// Whether one of two elements is a segment.
fn has_segment(x: &Element, y: &Element) -> bool
    ensures { IsTrue result → HasSegment x.now y.now }
{
    match *x {
        Element::Open {
            from: _,
            to: _,
            line: _,
        } => true,
        Element::Point { x: _, v: _ } => match *y {
            Element::Open {
                from: _,
                to: _,
                line: _,
            } => true,
            Element::Point { x: _, v: _ } => false,
        },
    }
}

// Whether two points make one that is known to be not below some pieces: at the time `from`, with the k-th of the pieces
// the last that starts by then.
fn points_over(pieces: &[Piece], k: usize, x: &Element, y: &Element, from: Frac, end: Frac) -> bool
    requires starts { StartsAtZero pieces.now }
    requires from { from ≡ start_of x.now +ℚ start_of y.now }
    ensures { IsTrue result → MakesOver (read pieces.now) end x.now y.now }
{
    let Element::Point { x: _, v } = *x else {
        return false;
    };
    let Element::Point { x: _, v: w } = *y else {
        return false;
    };
    match sum_of(v, w) {
        None => false,
        Some(top) => point_over(pieces, k, from, top),
    }
}

// A line that is nowhere above what two elements make, by the smaller of their slopes.
fn floor_line(x: &Element, y: &Element, from: Frac) -> Option<Line>
    requires { from ≡ start_of x.now +ℚ start_of y.now }
    ensures { IfSome result (IsFloorLine x.now y.now) }
{
    let m = least_slope(x, y);
    let a = floor_of(x, m)?;
    let b = floor_of(y, m)?;
    let v = sum_of(a, b)?;
    line_from(from, v, m)
}

// Whether what two elements make is known to be nowhere below some pieces, where one of them is a segment; `from` and k
// as of `points_over`.
fn segments_over(
    pieces: &[Piece],
    k: usize,
    x: &Element,
    y: &Element,
    from: Frac,
    end: Frac,
) -> bool
    requires starts { StartsAtZero pieces.now }
    requires from { from ≡ start_of x.now +ℚ start_of y.now }
    requires late { zero_q ≤ℚ from }
    ensures { IsTrue result → MakesOver (read pieces.now) end x.now y.now }
{
    if !has_segment(x, y) {
        return false;
    }
    match floor_line(x, y, from) {
        None => false,
        Some(line) => segment_over(pieces, k, from, limit_of(x, y, end), &line),
    }
}

// The last of some pieces, in the order of their starts, that starts at t or before.
fn last_start(pieces: &[Piece], t: Frac) -> usize {
    let mut low = 0;
    let mut high = pieces.len();
    for _step in 0..64 {
        let middle = low / 2 + high / 2 + (low % 2 + high % 2) / 2;
        if middle == low {
            return low;
        }
        if middle >= pieces.len() {
            return low;
        }
        if is_less(t, pieces[middle].x) {
            high = middle;
        } else {
            low = middle;
        }
    }
    low
}

// Whether what two elements make is known to be nowhere below some pieces before the window's end.
fn makes_over(pieces: &[Piece], x: &Element, y: &Element, end: Frac) -> bool
    requires starts { StartsAtZero pieces.now }
    ensures { IsTrue result → MakesOver (read pieces.now) end x.now y.now }
{
    let Some(from) = sum_of(start_of(x), start_of(y)) else {
        return false;
    };
    if is_less(from, Frac::zero()) {
        return false;
    }
    let k = last_start(pieces, from);
    if points_over(pieces, k, x, y, from, end) {
        return true;
    }
    segments_over(pieces, k, x, y, from, end)
}

// Whether an element is a value from 0 on at 0.
fn is_origin(e: &Element) -> bool
    ensures { IsTrue result → IsOrigin e.now }
{
    let Element::Point { x, v } = *e else {
        return false;
    };
    if is_less(Frac::zero(), x) {
        return false;
    }
    !is_less(v, Frac::zero())
}

// Whether an element is known to make nothing below some pieces with another, or that is at 0.
fn is_idle_with(pieces: &[Piece], x: &Element, y: &Element, end: Frac) -> bool
    requires starts { StartsAtZero pieces.now }
    ensures { IsTrue result → IsOrigin y.now ⊎ MakesOver (read pieces.now) end x.now y.now }
{
    if is_origin(y) {
        return true;
    }
    makes_over(pieces, x, y, end)
}

// Whether an element is known to make nothing below some pieces with others but one at 0.
fn is_idle(pieces: &[Piece], x: &Element, ys: &[Element], end: Frac) -> bool
    requires starts { StartsAtZero pieces.now }
    ensures { IsTrue result → IsIdle (read pieces.now) end ys.now x.now }
{
    for y in ys {
        if !is_idle_with(pieces, x, y, end) {
            return false;
        }
    }
    true
}

/// Those of some elements that are not known to make nothing below some pieces, before the end of a window, with others
/// but one at 0. Refused only for want of memory.
pub(crate) fn useful(
    alloc: Global,
    pieces: &[Piece],
    xs: &[Element],
    ys: &[Element],
    end: Frac,
) -> Result<Vec<Element>, AllocError>
    requires starts { StartsAtZero pieces.now }
    ensures { IfOk result (λ v. AreUseful (read pieces.now) end xs.now ys.now v.items) }
{
    let mut kept = Vec::new(alloc);
    for x in xs {
        if !is_idle(pieces, x, ys, end) {
            kept.push(*x)?;
        }
    }
    Ok(kept)
}
