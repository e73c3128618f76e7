//! The min-plus convolution of two elements.

ghost use Rattle.std.specs.Prelude.{◌≡◌, IfOk, IfErr, Some, None};
ghost use Rattle.rational.specs.Rational.{◌+ℚ◌, ◌≤ℚ◌, ◌<ℚ◌};
ghost use Rattle.rational.specs.Extended.{◌<ₑ◌, ◌+ₑ◌};
ghost use Rattle.upp_curve.specs.affine_segment.Values.{line_at};
ghost use Rattle.upp_curve.specs.affine_segment.Elements.{IsProper, IsConvolved};
ghost use Rattle.upp_curve.specs.affine_segment.Segments.{open_of, IsProperSegment, IsThrough};
ghost use Rattle.upp_curve.specs.affine_segment.Corners.{segment_of, IsCorner};
ghost use Rattle.upp_curve.specs.affine_segment.MadeParts.{AreParts, MovedPart, OnePart, BentParts};
ghost use Rattle.upp_curve.specs.affine_segment.WideConvolution.{IsWideConvolution, IsWideThrough, IsWideEnd, IsWideEnds};
ghost use Rattle.upp_curve.specs.affine_segment.WideConvolution.{IsWideCorner, IsWideMoved, IsWideStraight, IsWideBent};

use crate::affine_segment::element::{Element, Joined};
use crate::affine_segment::line::{Line, value};
use fraction128::{Ext, Frac, Wide};
use rational::Extended;
use std::cmp::Ordering;

// A line strictly between two times.
#[derive(Clone, Copy)]
struct Stretch {
    from: Frac,
    to: Ext,
    line: Line,
}

/// The convolution of two elements: at each time the infimum, over the splits of that time into a time of the one and
/// a time of the other, of the sum of the two values; infinity where there is no such split. A segment starts before
/// its end. Of two segments the one of smaller slope comes first. Refused only where one of these steps is: the sum of
/// a start or end of the one and a start or end of the other; a step of the value of an operand's line at its own
/// start or end; the sum of two such values, or values of points; for a line of the answer the product of its slope
/// and its start, and the difference of the value just after its start and that product.
pub fn element_conv(a: &Element, b: &Element) -> Result<Joined, Wide>
    requires left { IsProper a.now }
    requires right { IsProper b.now }
    ensures convolved { IfOk result (IsConvolved a.now b.now) }
    ensures parts { IfOk result (AreParts a.now b.now) }
    ensures wide { IfErr result (IsWideConvolution a.now b.now) }
{
    match *a {
        Element::Point { x, v } => match *b {
            Element::Point { x: y, v: u } => points(x, v, y, u),
            Element::Open { from, to, line } => moved(x, v, &Stretch { from, to, line }),
        },
        Element::Open { from, to, line } => {
            let left = Stretch { from, to, line };
            match *b {
                Element::Point { x, v } => moved(x, v, &left),
                Element::Open { from, to, line } => segments(&left, &Stretch { from, to, line }),
            }
        }
    }
}

// One part.
fn alone(first: Element) -> Joined
    ensures { result ≡ record { first = first; join = None; second = None } }
{
    Joined {
        first,
        join: None,
        second: None,
    }
}

// Two points.
fn points(x: Frac, v: Frac, y: Frac, u: Frac) -> Result<Joined, Wide>
    ensures convolved { IfOk result (IsConvolved (Element.Point x v) (Element.Point y u)) }
    ensures parts { IfOk result (AreParts (Element.Point x v) (Element.Point y u)) }
    ensures wide { IfErr result (IsWideConvolution (Element.Point x v) (Element.Point y u)) }
{
    let at = Frac::add(x, y)?;
    let sum = Frac::add(v, u)?;
    Ok(alone(Element::Point { x: at, v: sum }))
}

// The line of the slope that has the value v at x.
fn line_through(slope: Frac, x: Frac, v: Frac) -> Result<Line, Wide>
    ensures through { IfOk result (IsThrough slope x v) }
    ensures wide { IfErr result (IsWideThrough slope x v) }
{
    let risen = Frac::mul(slope, x)?;
    let icept = Frac::sub(v, risen)?;
    Ok(Line { icept, slope })
}

// An end moved by x.
fn later_end(x: Frac, end: &Ext) -> Result<Ext, Wide>
    ensures sum { IfOk result (λ e. e ≡ Extended.Fin x +ₑ end.now) }
    ensures wide { IfErr result (IsWideEnd x end.now) }
{
    match *end {
        Extended::Inf => Ok(Extended::Inf),
        Extended::Fin(e) => {
            let sum = Frac::add(x, e)?;
            Ok(Extended::Fin(sum))
        }
    }
}

// The sum of two ends, where both are.
fn end_sum(a: &Ext, b: &Ext) -> Result<Ext, Wide>
    ensures sum { IfOk result (λ e. e ≡ a.now +ₑ b.now) }
    ensures wide { IfErr result (IsWideEnds a.now b.now) }
{
    match *a {
        Extended::Inf => Ok(Extended::Inf),
        Extended::Fin(e) => later_end(e, b),
    }
}

// Where one line is at x and the other at y: the sum of the times, the sum of the values, and a line from there.
#[derive(Clone, Copy)]
struct Corner {
    at: Frac,
    v: Frac,
    line: Line,
}

fn corner_at(a: &Line, x: Frac, b: &Line, y: Frac, slope: Frac) -> Result<Corner, Wide>
    ensures corner { IfOk result (IsCorner a.now x b.now y slope) }
    ensures wide { IfErr result (IsWideCorner a.now x b.now y slope) }
{
    let at = Frac::add(x, y)?;
    let left = value(a, x)?;
    let right = value(b, y)?;
    let v = Frac::add(left, right)?;
    let line = line_through(slope, at, v)?;
    Ok(Corner { at, v, line })
}

// A segment moved by the point.
fn moved(x: Frac, v: Frac, s: &Stretch) -> Result<Joined, Wide>
    requires { IsProperSegment (segment_of s.now) }
    ensures convolved { IfOk result (IsConvolved (Element.Point x v) (open_of (segment_of s.now))) }
    ensures parts { IfOk result (MovedPart x v s.now.from s.now.to s.now.line) }
    ensures wide { IfErr result (IsWideMoved x v s.now.from s.now.to s.now.line) }
{
    let from = Frac::add(x, s.from)?;
    let to = later_end(x, &s.to)?;
    let start = value(&s.line, s.from)?;
    let after = Frac::add(v, start)?;
    let line = line_through(s.line.slope, from, after)?;
    Ok(alone(Element::Open { from, to, line }))
}

// Two segments of one slope.
fn straight(a: &Stretch, b: &Stretch) -> Result<Joined, Wide>
    requires left { IsProperSegment (segment_of a.now) }
    requires right { IsProperSegment (segment_of b.now) }
    requires parallel { a.now.line.slope ≡ b.now.line.slope }
    ensures convolved { IfOk result (IsConvolved (open_of (segment_of a.now)) (open_of (segment_of b.now))) }
    ensures parts { IfOk result (OnePart (segment_of a.now) (segment_of b.now) (a.now.to +ₑ b.now.to)) }
    ensures wide { IfErr result (IsWideStraight (segment_of a.now) (segment_of b.now)) }
{
    let start = corner_at(&a.line, a.from, &b.line, b.from, a.line.slope)?;
    let to = end_sum(&a.to, &b.to)?;
    Ok(alone(Element::Open {
        from: start.at,
        to,
        line: start.line,
    }))
}

// Two segments of different slopes: the one of smaller slope, and at its end the other.
fn bent(low: &Stretch, high: &Stretch) -> Result<Joined, Wide>
    requires left { IsProperSegment (segment_of low.now) }
    requires right { IsProperSegment (segment_of high.now) }
    requires slopes { low.now.line.slope <ℚ high.now.line.slope }
    ensures convolved { IfOk result (IsConvolved (open_of (segment_of low.now)) (open_of (segment_of high.now))) }
    ensures parts { IfOk result (BentParts (segment_of low.now) low.now.to (segment_of high.now)) }
    ensures wide { IfErr result (IsWideBent (segment_of low.now) (segment_of high.now)) }
{
    let start = corner_at(&low.line, low.from, &high.line, high.from, low.line.slope)?;
    let Extended::Fin(end) = low.to else {
        return Ok(alone(Element::Open {
            from: start.at,
            to: Extended::Inf,
            line: start.line,
        }));
    };
    let turn = corner_at(&low.line, end, &high.line, high.from, high.line.slope)?;
    let to = later_end(end, &high.to)?;
    let first = Element::Open {
        from: start.at,
        to: Extended::Fin(turn.at),
        line: start.line,
    };
    let join = Element::Point {
        x: turn.at,
        v: turn.v,
    };
    let second = Element::Open {
        from: turn.at,
        to,
        line: turn.line,
    };
    Ok(Joined {
        first,
        join: Some(join),
        second: Some(second),
    })
}

// Two segments, in either order of their slopes.
fn segments(a: &Stretch, b: &Stretch) -> Result<Joined, Wide>
    requires left { IsProperSegment (segment_of a.now) }
    requires right { IsProperSegment (segment_of b.now) }
    ensures convolved { IfOk result (IsConvolved (open_of (segment_of a.now)) (open_of (segment_of b.now))) }
    ensures parts { IfOk result (AreParts (open_of (segment_of a.now)) (open_of (segment_of b.now))) }
    ensures wide { IfErr result (IsWideConvolution (open_of (segment_of a.now)) (open_of (segment_of b.now))) }
{
    match a.line.slope.cmp(&b.line.slope) {
        Ordering::Less => bent(a, b),
        Ordering::Equal => straight(a, b),
        Ordering::Greater => bent(b, a),
    }
}
