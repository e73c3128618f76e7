//! What two elements make, as it goes on from a time.

ghost use Rattle.std.specs.Prelude.{◌≡◌, ◌↔◌, IsTrue};
ghost use Rattle.rational.specs.Rational.{ℚ, ◌<ℚ◌};
ghost use Rattle.rational.specs.Extended.{◌<ₑ◌};
ghost use Rattle.upp_curve.specs.affine_segment.Elements.{IsProper, element_value, part_value, joined_value, PairSplit, pair_sum, AreAdjoined};
ghost use Rattle.upp_limits.specs.Limits.{Sizes};
ghost use Rattle.upp_normal.specs.Ahead.{GoesOn};
ghost use Rattle.upp_curve.specs.affine_segment.Fits.{LineFits};
ghost use Rattle.element_envelope.specs.ElementRoom.{OperandElement, SumElement, SumPart, SumJoined, HaveRoom};
ghost use Rattle.curve_conv.specs.Stretches.{SumStretch, SumTimeIn, IsAhead, end_time, until_time, point_at, open_at, PartPair, part_pair_sum, IsProperPart, OperandPart};

use crate::lower::lower;
use element_envelope::joined;
use fraction128::{Ext, Frac, is_less};
use rational::Extended;
use std::cmp::Ordering;
use upp_curve::affine_segment::{Element, Joined, Line, line_at};
use upp_normal::Stretch;

/// Infinity, up to a time.
pub(crate) fn nothing(next: Option<Frac>) -> Stretch
    ensures { result ≡ record { at = Extended.Inf; line = None; next = next } }
{
    Stretch {
        at: Extended::Inf,
        line: None,
        next,
    }
}

// Where a segment ends.
fn end_time(to: &Ext) -> Option<Frac>
    ensures { result ≡ end_time to.now }
{
    match *to {
        Extended::Inf => None,
        Extended::Fin(e) => Some(e),
    }
}

// Whether t is before the end of a segment.
fn is_inside(t: Frac, to: &Ext) -> bool
    ensures { IsTrue result ↔ (Extended.Fin t <ₑ to.now) }
{
    match *to {
        Extended::Inf => true,
        Extended::Fin(e) => is_less(t, e),
    }
}

fn point_stretch(x: Frac, v: Frac, t: Frac) -> Stretch
    ensures goes { GoesOn (element_value (Element.Point x v)) t result }
    ensures sizes { (z : Sizes) (end : ℚ) → SumTimeIn z end t → SumElement z end (Element.Point x v)
        → SumStretch z t result }
{
    match t.cmp(&x) {
        Ordering::Less => nothing(Some(x)),
        Ordering::Equal => Stretch {
            at: Extended::Fin(v),
            line: None,
            next: None,
        },
        Ordering::Greater => nothing(None),
    }
}

// Of a segment that has begun.
fn begun_stretch(from: Frac, to: &Ext, line: &Line, t: Frac) -> Stretch
    requires past { from <ℚ t }
    requires fits { LineFits t line.now }
    ensures goes { GoesOn (element_value (Element.Open from to.now line.now)) t result }
    ensures sizes { (z : Sizes) (end : ℚ) → SumTimeIn z end t
        → SumElement z end (Element.Open from to.now line.now) → SumStretch z t result }
{
    if is_inside(t, to) {
        return Stretch {
            at: Extended::Fin(line_at(line, t)),
            line: Some(*line),
            next: end_time(to),
        };
    }
    nothing(None)
}

fn open_stretch(from: Frac, to: &Ext, line: &Line, t: Frac) -> Stretch
    requires proper { Extended.Fin from <ₑ to.now }
    requires fits { LineFits t line.now }
    ensures goes { GoesOn (element_value (Element.Open from to.now line.now)) t result }
    ensures sizes { (z : Sizes) (end : ℚ) → SumTimeIn z end t
        → SumElement z end (Element.Open from to.now line.now) → SumStretch z t result }
{
    match t.cmp(&from) {
        Ordering::Less => nothing(Some(from)),
        Ordering::Equal => Stretch {
            at: Extended::Inf,
            line: Some(*line),
            next: end_time(to),
        },
        Ordering::Greater => begun_stretch(from, to, line, t),
    }
}

fn element_stretch(e: &Element, t: Frac) -> Stretch
    requires room { (z : Sizes) × (end : ℚ) × SumTimeIn z end t × SumElement z end e.now }
    requires proper { IsProper e.now }
    ensures goes { GoesOn (element_value e.now) t result }
    ensures sizes { (z : Sizes) (end : ℚ) → SumTimeIn z end t → SumElement z end e.now → SumStretch z t result }
{
    match e {
        Element::Point { x, v } => point_stretch(*x, *v, t),
        Element::Open { from, to, line } => open_stretch(*from, to, line, t),
    }
}

// The same for an element that may be missing.
fn part_stretch(o: &Option<Element>, t: Frac) -> Stretch
    requires room { (z : Sizes) × (end : ℚ) × SumTimeIn z end t × SumPart z end o.now }
    requires proper { IsProperPart o.now }
    ensures goes { GoesOn (part_value o.now) t result }
    ensures sizes { (z : Sizes) (end : ℚ) → SumTimeIn z end t → SumPart z end o.now → SumStretch z t result }
{
    match o {
        None => nothing(None),
        Some(e) => element_stretch(e, t),
    }
}

fn joined_stretch(j: &Joined, t: Frac) -> Stretch
    requires room { (z : Sizes) × (end : ℚ) × SumTimeIn z end t × SumJoined z end j.now }
    requires adjoined { AreAdjoined j.now.first j.now.join j.now.second }
    ensures goes { GoesOn (joined_value j.now) t result }
    ensures sizes { (z : Sizes) (end : ℚ) → SumTimeIn z end t → SumJoined z end j.now → SumStretch z t result }
{
    let first = element_stretch(&j.first, t);
    let join = part_stretch(&j.join, t);
    let second = part_stretch(&j.second, t);
    let rest = lower(&join, &second, t);
    lower(&first, &rest, t)
}

// What two elements make.
fn pair_stretch(a: &Element, b: &Element, t: Frac) -> Stretch
    requires room { (z : Sizes) × (end : ℚ) × SumTimeIn z end t × OperandElement z end a.now
        × OperandElement z end b.now }
    requires left { IsProper a.now }
    requires right { IsProper b.now }
    ensures ahead { (end : ℚ) → IsAhead (PairSplit a.now b.now) (pair_sum a.now b.now) end t result }
    ensures sizes { (z : Sizes) (end : ℚ) → SumTimeIn z end t → OperandElement z end a.now
        → OperandElement z end b.now → SumStretch z t result }
{
    joined_stretch(&joined(a, b), t)
}

/// What an element makes with another that may be missing, as it goes on from t.
pub(crate) fn part_pair(a: &Element, o: &Option<Element>, t: Frac) -> Stretch
    requires room { (z : Sizes) × (end : ℚ) × SumTimeIn z end t × OperandElement z end a.now × OperandPart z end o.now }
    requires left { IsProper a.now }
    requires right { IsProperPart o.now }
    ensures ahead { (end : ℚ) → IsAhead (PartPair a.now o.now) (part_pair_sum a.now o.now) end t result }
    ensures sizes { (z : Sizes) (end : ℚ) → SumTimeIn z end t → OperandElement z end a.now
        → OperandPart z end o.now → SumStretch z t result }
{
    match o {
        None => nothing(None),
        Some(b) => pair_stretch(a, b, t),
    }
}

/// Of what goes on from x: the point there.
pub(crate) fn point_at(x: Frac, at: Ext) -> Option<Element>
    ensures { result ≡ point_at x at }
{
    match at {
        Extended::Inf => None,
        Extended::Fin(v) => Some(Element::Point { x, v }),
    }
}

/// The time at which a line ends; infinity where it has no end.
pub(crate) fn until_time(next: Option<Frac>) -> Ext
    ensures { result ≡ until_time next }
{
    match next {
        None => Extended::Inf,
        Some(e) => Extended::Fin(e),
    }
}

/// Of what goes on from x: the line after it.
pub(crate) fn open_at(x: Frac, next: Option<Frac>, line: Option<Line>) -> Option<Element>
    ensures { result ≡ open_at x next line }
{
    match line {
        None => None,
        Some(line) => Some(Element::Open {
            from: x,
            to: until_time(next),
            line,
        }),
    }
}
