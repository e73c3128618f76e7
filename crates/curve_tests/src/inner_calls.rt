//! Public calls that whole commands reach only from inside others, each for one row worked out by hand.

ghost use Rattle.std.specs.Prelude.{◌≡◌, IsTrue};
ghost use Rattle.curve_call.specs.Worked.{level_pieces, ramp_pieces};
ghost use Rattle.rational.specs.Rational.{◌≤ℚ◌};
ghost use Rattle.upp_curve.specs.affine_segment.Elements.{IsProper};
ghost use Rattle.upp_curve.specs.Curves.{IsCurve};
ghost use Rattle.upp_curve.specs.Steady.{IsWholePeriods, steady};

use crate::shapes::{bucket, curve, line, line_piece, piece, ratio, repeating, value, whole};
use curve_call::{Both, least_periods, overlay, window_excess, window_max, window_min, window_sum};
use curve_library::stair;
use element_envelope::{cut, joined_window};
use fraction128::{Frac, Op, Wide, is_less};
use rational::Extended;
use std::alloc::{AllocError, Global};
use std::test::Fail;
use subadd_closure::{point_closure, segment_closure};
use upp_curve::affine_segment::{Element, Joined, Line, Piece, element_conv, is_before};
use upp_curve::{Curve, Tail, equal};
use upp_limits::{OpFault, OpKind, gauge};
use upp_normal::{RawCurve, Stretch, normalise, pieces_to, steady_time, stretch_at};

// Of a segment its ends, the value at 0 and the slope; a point is a level from its time up to the same time.
fn seen(e: &Element) -> (Frac, Option<Frac>, Frac, Frac) {
    match *e {
        Element::Point { x, v } => (x, Some(x), v, Frac::zero()),
        Element::Open { from, to, line } => (from, to.finite(), line.icept, line.slope),
    }
}

// The line icept + slope t from one time on.
fn onward(from: i128, icept: i128, slope: i128) -> Element {
    Element::Open {
        from: whole(from),
        to: Extended::Inf,
        line: line(icept, slope),
    }
}

// The same up to another time.
fn open(from: i128, to: i128, icept: i128, slope: i128) -> Element {
    Element::Open {
        from: whole(from),
        to: Extended::Fin(whole(to)),
        line: line(icept, slope),
    }
}

fn is_proper(e: &Element) -> bool
    ensures { IsTrue result → IsProper e.now }
{
    match *e {
        Element::Point { x: _, v: _ } => true,
        Element::Open { from, to, line: _ } => is_before(from, &to),
    }
}

// What two elements make, or the step that is too wide, where both have times.
fn made(a: &Element, b: &Element) -> Option<Result<Joined, Wide>> {
    if is_proper(a) && is_proper(b) {
        Some(element_conv(a, b))
    } else {
        None
    }
}

// The line 3 + 2 t from 1 on, by itself.
fn late_window(alloc: Global) -> Result<Vec<Piece>, AllocError> {
    let first = Element::Open {
        from: Frac::one(),
        to: Extended::Inf,
        line: line(3, 2),
    };
    let late = Joined {
        first,
        join: None,
        second: None,
    };
    joined_window(alloc, &late)
}

// The closure of the value 3 at a time from 0 on.
fn point(alloc: Global, time: Frac) -> Result<Curve, OpFault> {
    if is_less(time, Frac::zero()) {
        return Err(OpFault::TooMany);
    }
    point_closure(alloc, time, Frac::from_whole(3))
}

// The closure of the value 1 between 2 and 3.
fn segment(alloc: Global) -> Result<Curve, OpFault> {
    let line = Line {
        icept: Frac::one(),
        slope: Frac::zero(),
    };
    let end = Extended::Fin(Frac::from_whole(3));
    segment_closure(alloc, Frac::from_whole(2), end, &line, 2)
}

// The closure of t - 1 after 1.
fn endless(alloc: Global) -> Result<Curve, OpFault> {
    let line = Line {
        icept: Frac::from_whole(-1),
        slope: Frac::one(),
    };
    segment_closure(alloc, Frac::one(), Extended::Inf, &line, 0)
}

// The value 3 at 0, 1 + t from there to 2, and 5 after 2. The smaller slope of two segments comes first: 5 just after both starts; the falling
// one gives up 3 until its end at 4, and the other then rises by 6 until 6.
#[test]
fn elements(rt: HostRuntime) -> Result<(), Fail> {
    let pieces = [
        line_piece(0, 3, 1, 1),
        piece(2, Extended::Inf, Some((5, 0))),
    ];
    let elements = cut(rt.alloc(), &pieces, Extended::Inf)?;
    assert!(rt; elements.len() == 3);
    assert!(rt; seen(&elements[0]) == (whole(0), Some(whole(0)), whole(3), whole(0)));
    assert!(rt; seen(&elements[1]) == (whole(0), Some(whole(2)), whole(1), whole(1)));
    assert!(rt; seen(&elements[2]) == (whole(2), None, whole(5), whole(0)));
    let Some(Ok(both)) = made(&open(0, 2, 1, 3), &open(1, 4, 5, -1)) else {
        return Err(Fail::from("nothing is made"));
    };
    let join = both.join.ok_or("no join")?;
    let second = both.second.ok_or("no second part")?;
    assert!(rt; seen(&both.first) == (whole(1), Some(whole(4)), whole(6), whole(-1)));
    assert!(rt; seen(&join) == (whole(4), Some(whole(4)), whole(2), whole(0)));
    assert!(rt; seen(&second) == (whole(4), Some(whole(6)), whole(-10), whole(3)));
    Ok(())
}

// A value at a time.
fn dot(x: i128, v: i128) -> Element {
    Element::Point {
        x: whole(x),
        v: whole(v),
    }
}

// A point moves a segment. Two segments of one slope make one part, and so does one without an end, of the smaller slope. Of two points their time
// may be too wide, of a moved segment the value at its start.
#[test]
fn elements_of_one_part(rt: HostRuntime) -> Result<(), Fail> {
    for (a, b, to, icept, slope) in [
        (dot(1, 2), open(0, 5, 3, 2), Some(whole(6)), 3, 2),
        (open(0, 2, 1, 1), open(1, 4, 2, 1), Some(whole(6)), 3, 1),
        (open(1, 2, 0, 3), onward(0, 1, 1), None, 3, 1),
    ] {
        let Some(Ok(joined)) = made(&a, &b) else {
            return Err(Fail::from("nothing is made"));
        };
        assert!(rt; seen(&joined.first) == (whole(1), to, whole(icept), whole(slope)));
        assert!(rt; joined.join.is_none() && joined.second.is_none());
    }
    let large = i128::MAX;
    for (a, b, op, left, right) in [
        (dot(large, 0), dot(1, 0), Op::Add, large, 1),
        (dot(1, 0), onward(large - 1, 0, 2), Op::Mul, 2, large - 1),
    ] {
        let Some(Err(wide)) = made(&a, &b) else {
            return Err(Fail::from("no step is too wide"));
        };
        assert!(rt; wide.op == op);
        assert!(rt; wide.a == whole(left) && wide.b == whole(right));
    }
    Ok(())
}

// A window is infinite up to a late line. A point repeats, but one at 0. Of 1 between 2 and 3 the sums are n between 2 n and 3 n; those of t - 1 after 1 are
// t - n after n.
#[test]
fn closures_of_elements(rt: HostRuntime) -> Result<(), Fail> {
    let late = late_window(rt.alloc())?;
    assert!(rt; late.len() == 2);
    assert!(rt; late[0].line.is_none());
    assert!(rt; late[1].x == Frac::one());
    assert!(rt; late[1].at.is_infinite());
    let points = point(rt.alloc(), whole(2))?;
    assert!(rt; value(&points, whole(10)) == Some(whole(15)));
    assert!(rt; value(&points, whole(5)).is_none());
    let first = point(rt.alloc(), whole(0))?;
    assert!(rt; value(&first, whole(0)) == Some(whole(3)));
    assert!(rt; value(&first, whole(1)).is_none());
    let levels = segment(rt.alloc())?;
    assert!(rt; value(&levels, whole(100)) == Some(whole(34)));
    assert!(rt; value(&levels, whole(6)).is_none());
    let low = endless(rt.alloc())?;
    assert!(rt; value(&low, ratio(101, 2)) == Some(ratio(1, 2)));
    assert!(rt; value(&low, whole(1)).is_none());
    Ok(())
}

// The start, the value there, and the line after it of a finite piece.
fn parts(p: &Piece) -> Option<(Frac, Frac, Frac, Frac)> {
    match (p.at, p.line) {
        (Extended::Fin(at), Some(l)) => Some((p.x, at, l.icept, l.slope)),
        _ => None,
    }
}

fn level() -> [Piece; 1]
    ensures { result ≡ level_pieces }
{
    let line = Line {
        icept: Frac::one(),
        slope: Frac::zero(),
    };
    [Piece {
        x: Frac::zero(),
        at: Extended::Fin(Frac::one()),
        line: Some(line),
    }]
}

fn ramp() -> [Piece; 1]
    ensures { result ≡ ramp_pieces }
{
    let line = Line {
        icept: Frac::zero(),
        slope: Frac::one(),
    };
    [Piece {
        x: Frac::zero(),
        at: Extended::Fin(Frac::zero()),
        line: Some(line),
    }]
}

// Of two windows.
#[derive(Clone, Copy)]
enum Of {
    Sum,
    Lower,
    Upper,
    LevelAboveRamp,
    RampAboveLevel,
}

// Of a level at 1, and a ramp that rises by 1.
fn window(alloc: Global, of: Of) -> Result<Vec<Piece>, AllocError> {
    let (level, ramp) = (level(), ramp());
    let end = Frac::from_whole(2);
    match of {
        Of::Sum => window_sum(alloc, &level, &ramp),
        Of::Lower => window_min(alloc, &level, &ramp, end),
        Of::Upper => window_max(alloc, &level, &ramp, end),
        Of::LevelAboveRamp => window_excess(alloc, &level, &ramp, end),
        Of::RampAboveLevel => window_excess(alloc, &ramp, &level, end),
    }
}

// Both, which start at once.
fn both(alloc: Global) -> Result<Vec<Both>, AllocError> {
    overlay(alloc, &level(), &ramp())
}

// Whether c repeats from a time on in this period.
fn repeats(c: &Curve, from: Frac, period: Frac) -> bool
    ensures { IsTrue result → (steady c.now ≤ℚ from) × IsWholePeriods c.now.tail period × IsCurve c.now }
{
    let Some(steady) = steady_time(c) else {
        return false;
    };
    if is_less(from, steady) {
        return false;
    }
    match *c.tail() {
        Tail::Periodic { period: own, .. } => own == period,
        _ => true,
    }
}

// The number of periods of two curves that repeat from a time on, where their gauge is below the limit.
fn least(f: &Curve, g: &Curve, from: i128, period: Frac) -> Option<Option<u128>> {
    let Ok(start) = Frac::new(from, 1) else {
        return None;
    };
    if is_less(start, Frac::zero()) {
        return None;
    }
    if !is_less(Frac::zero(), period) {
        return None;
    }
    if !repeats(f, start, period) {
        return None;
    }
    if !repeats(g, start, period) {
        return None;
    }
    let Ok(end) = Frac::add(start, period) else {
        return None;
    };
    let Some(limit) = gauge(OpKind::Min, f, g, Some(end)) else {
        return None;
    };
    if limit >= 1 << 120 {
        return None;
    }
    Some(least_periods(f, g, start, period))
}

// The level and the ramp meet at 1.
#[test]
fn windows(rt: HostRuntime) -> Result<(), Fail> {
    let (zero, one) = (Frac::zero(), Frac::one());
    for (of, first, second) in [
        (Of::Sum, (zero, one, one, one), None),
        (
            Of::Lower,
            (zero, zero, zero, one),
            Some((one, one, one, zero)),
        ),
        (
            Of::Upper,
            (zero, one, one, zero),
            Some((one, one, zero, one)),
        ),
        (
            Of::LevelAboveRamp,
            (zero, one, one, whole(-1)),
            Some((one, zero, zero, zero)),
        ),
        (
            Of::RampAboveLevel,
            (zero, zero, zero, zero),
            Some((one, zero, whole(-1), one)),
        ),
    ] {
        let pieces = window(rt.alloc(), of)?;
        let found = pieces.first().ok_or("no piece")?;
        assert!(rt; parts(found) == Some(first));
        assert!(rt; pieces.get(1).and_then(parts) == second);
        assert!(rt; pieces.get(2).is_none());
    }
    assert!(rt; both(rt.alloc())?.len() == 1);
    Ok(())
}

// 3 + t and 2 t meet at 3. Of curves that are infinite between, one that is finite at other times is never above; 2 n - 5 at 2 n comes above n after
// 5 periods, of which one from 2 on is past.
#[test]
fn periods(rt: HostRuntime) -> Result<(), Fail> {
    let alloc = rt.alloc();
    let f = bucket(alloc, 3, 1)?;
    let g = bucket(alloc, 0, 2)?;
    assert!(rt; least(&f, &g, 0, whole(1)) == Some(Some(3)));
    let slow = repeating(alloc, 0, None, 2, 1)?;
    let late = [
        piece(0, Extended::Inf, None),
        piece(1, Extended::Fin(whole(5)), None),
    ];
    let between = curve(
        alloc,
        &late,
        Tail::Periodic {
            rank: whole(0),
            period: whole(2),
            rise: whole(2),
        },
    )?;
    assert!(rt; least(&slow, &between, 0, whole(2)) == Some(None));
    let above = repeating(alloc, -5, None, 2, 2)?;
    assert!(rt; least(&slow, &above, 2, whole(2)) == Some(Some(4)));
    Ok(())
}

// How a curve goes on from 3, within a window that ends at 8.
fn stretch(c: &Curve) -> Option<Stretch> {
    c.keeps();
    let (t, end) = (Frac::from_whole(3), Frac::from_whole(8));
    let Some(size) = gauge(OpKind::Itself, c, c, Some(end)) else {
        return None;
    };
    if size >= 1 << 120 {
        return None;
    }
    let Tail::Periodic { rank, period, .. } = *c.tail() else {
        return None;
    };
    let Ok(over) = Frac::add(rank, period) else {
        return None;
    };
    if !is_less(over, end) {
        return None;
    }
    Some(stretch_at(c, t))
}

// So many pieces, one at each whole time.
fn many(alloc: Global, count: u32) -> Result<Vec<Piece>, AllocError> {
    (0..count)
        .map(|k| {
            let level = i128::from(k % 2);
            line_piece(i128::from(k), level, level, 0)
        })
        .collect(alloc)
}

// Why a curve has no normal form.
fn refusal(pieces: Vec<Piece>, tail: Tail) -> Option<OpFault> {
    let raw = RawCurve { pieces, tail };
    if raw.is_raw() {
        normalise(raw).err()
    } else {
        None
    }
}

// The stair c is 1, and each 2 later 1 higher: from 3 on it stays at 2 up to 4. A stair of no bits is 0.
#[test]
fn stretches_and_refusals(rt: HostRuntime) -> Result<(), Fail> {
    let alloc = rt.alloc();
    let c = repeating(alloc, 1, Some((1, 0)), 2, 1)?;
    let s = stretch(&c).ok_or("not over")?;
    let line = s.line.ok_or("no line")?;
    assert!(rt; s.at.finite() == Some(whole(2)));
    assert!(rt; line.icept == whole(2));
    assert!(rt; line.slope == whole(0));
    assert!(rt; s.next == Some(whole(4)));
    let none = stair(alloc, 0, ratio(1, 1 << 126), whole(1 << 126))?;
    let zero = bucket(alloc, 0, 0)?;
    assert!(rt; equal(&none, &zero));
    let rank = Frac::zero();
    let high = vec![in alloc; piece(0, Extended::Fin(whole(1 << 125)), None)]?;
    let wide = refusal(high, Tail::Infinite { rank });
    assert!(rt; matches!(&wide, Some(OpFault::TooWide)));
    let last = whole(1 << 20);
    let long = refusal(many(alloc, (1 << 20) + 1)?, Tail::Affine { rank: last });
    assert!(rt; matches!(&long, Some(OpFault::TooMany)));
    let far = pieces_to(&c, whole(1 << 119));
    assert!(rt; matches!(&far, Err(OpFault::TooWide)));
    let late = pieces_to(&c, whole(1 << 22));
    assert!(rt; matches!(&late, Err(OpFault::TooMany)));
    Ok(())
}
