//! A part of a convolution as pieces in memory: the elements of the spans of both curves, and the least of what their
//! pairs make.

ghost use Rattle.std.specs.Prelude.{◌≡◌, ◌++◌, pos, None, OnOk, IfOk, IfSome};
ghost use Rattle.rational.specs.Rational.{int, ◌<ℚ◌};
ghost use Rattle.upp_curve.specs.Curve.{value_at};
ghost use Rattle.upp_normal.specs.Ahead.{AtNext, HasWindow};
ghost use Rattle.element_envelope.specs.ElementRoom.{WindowTime};
ghost use Rattle.element_envelope.specs.SumWindows.{SumStart};
ghost use Rattle.curve_conv.specs.Parts.{PartSplit, part_sum};
ghost use Rattle.curve_conv.specs.Scans.{sizes_in, IsScan, InPart};
ghost use Rattle.curve_conv.specs.SpanElements.{listed, AreSpanElements, IsPartWindow};
ghost use Rattle.curve_conv.specs.Stretches.{SumStretch, IsAhead, point_at, open_at};

use crate::elements::until_time;
use crate::parts::{limit_of, or_else, part};
use crate::pieces::piece_stretch;
use crate::rows::{Scan, early, is_time, time_or};
use element_envelope::envelope;
use fraction128::{Ext, Frac, is_less};
use rational::Extended;
use std::alloc::{AllocError, Global};
use upp_curve::Curve;
use upp_curve::affine_segment::{Element, Line, Piece};
use upp_limits::{OpKind, tally_over};
use upp_normal::{Stretch, stretch_at};

// Appends the point at x, where the value there is a number, and the line after it up to a time that may be missing.
fn push_elements(
    elements: &mut Vec<Element>,
    x: Frac,
    at: Ext,
    to: Option<Frac>,
    line: Option<Line>,
) -> Result<(), AllocError>
    ensures { OnOk result (elements.new.items ≡ (elements.old.items ++ listed (point_at x at))
        ++ listed (open_at x to line)) }
{
    if let Extended::Fin(v) = at {
        elements.push(Element::Point { x, v })?;
    }
    if let Some(line) = line {
        elements.push(Element::Open {
            from: x,
            to: until_time(to),
            line,
        })?;
    }
    Ok(())
}

// The elements of one of the two curves from `from` on, before a time that may be missing and before the end.
fn span_elements(
    alloc: Global,
    s: &Scan,
    c: &Curve,
    from: Frac,
    until: &Option<Frac>,
) -> Result<Vec<Element>, AllocError>
    requires curve { HasWindow (sizes_in s.now.first.now s.now.second.now s.now.end) s.now.end c.now }
    requires from { WindowTime (sizes_in s.now.first.now s.now.second.now s.now.end) s.now.end from }
    requires until { AtNext (WindowTime (sizes_in s.now.first.now s.now.second.now s.now.end) s.now.end) until.now }
    ensures { IfOk result (λ v. AreSpanElements (sizes_in s.now.first.now s.now.second.now s.now.end) s.now.end
        (value_at c.now) from until.now v.items) }
{
    let limit = limit_of(s.end, until);
    let mut elements = Vec::new(alloc);
    let mut x = from;
    let mut more = is_less(from, limit);
    'cells: while more {
        let here = stretch_at(c, x);
        let next = early(here.next, limit);
        let to = or_else(next, until);
        push_elements(&mut elements, x, here.at, to, here.line)?;
        more = is_time(&next);
        x = time_or(next, x);
    }
    Ok(elements)
}

// What the two curves make of the splits of which the first side is in [from, until) and the second is `low` or
// later, up to the end.
fn part_window(
    alloc: Global,
    s: &Scan,
    from: Frac,
    until: &Option<Frac>,
    low: Frac,
) -> Result<Vec<Piece>, AllocError>
    requires scan { IsScan s.now.first.now s.now.second.now s.now.end }
    requires from { WindowTime (sizes_in s.now.first.now s.now.second.now s.now.end) s.now.end from }
    requires until { AtNext (WindowTime (sizes_in s.now.first.now s.now.second.now s.now.end) s.now.end) until.now }
    requires low { WindowTime (sizes_in s.now.first.now s.now.second.now s.now.end) s.now.end low }
    requires some { int (pos 0) <ℚ s.now.end }
    ensures { IfOk result (λ v. IsPartWindow (sizes_in s.now.first.now s.now.second.now s.now.end) s.now.end
        (value_at s.now.first.now) (value_at s.now.second.now)
        from until.now low v.items) }
{
    let xs = span_elements(alloc, s, s.first, from, until)?;
    let ys = span_elements(alloc, s, s.second, low, &None)?;
    envelope(alloc, &xs, &ys, s.end)
}

/// The same, where there are at most 2^22 pairs of pieces and the memory is there.
pub(crate) fn made_part(
    alloc: Global,
    s: &Scan,
    from: Frac,
    until: &Option<Frac>,
    low: Frac,
) -> Option<Vec<Piece>>
    requires scan { IsScan s.now.first.now s.now.second.now s.now.end }
    requires from { WindowTime (sizes_in s.now.first.now s.now.second.now s.now.end) s.now.end from }
    requires until { AtNext (WindowTime (sizes_in s.now.first.now s.now.second.now s.now.end) s.now.end) until.now }
    requires low { WindowTime (sizes_in s.now.first.now s.now.second.now s.now.end) s.now.end low }
    requires some { int (pos 0) <ℚ s.now.end }
    ensures { IfSome result (λ v. IsPartWindow (sizes_in s.now.first.now s.now.second.now s.now.end) s.now.end
        (value_at s.now.first.now) (value_at s.now.second.now)
        from until.now low v.items) }
{
    if tally_over(&OpKind::Convolve, s.first, s.second, s.end) > 1 << 22 {
        return None;
    }
    match part_window(alloc, s, from, until, low) {
        Ok(pieces) => Some(pieces),
        Err(_) => None,
    }
}

/// The part as it goes on from t: from its pieces, where they are made, or else by a scan, as `part`.
pub(crate) fn part_at(
    s: &Scan,
    made: &Option<Vec<Piece>>,
    from: Frac,
    until: &Option<Frac>,
    low: Frac,
    t: Frac,
) -> Stretch
    requires scan { IsScan s.now.first.now s.now.second.now s.now.end }
    requires made { IfSome made.now (λ v. IsPartWindow (sizes_in s.now.first.now s.now.second.now s.now.end)
        s.now.end (value_at s.now.first.now)
        (value_at s.now.second.now) from until.now low v.items) }
    requires from { WindowTime (sizes_in s.now.first.now s.now.second.now s.now.end) s.now.end from }
    requires until { AtNext (WindowTime (sizes_in s.now.first.now s.now.second.now s.now.end) s.now.end) until.now }
    requires low { WindowTime (sizes_in s.now.first.now s.now.second.now s.now.end) s.now.end low }
    requires time { SumStart (sizes_in s.now.first.now s.now.second.now s.now.end) s.now.end t }
    ensures ahead { IsAhead (PartSplit (InPart from None until.now low)) (part_sum (value_at s.now.first.now)
        (value_at s.now.second.now) (InPart from None until.now low))
        s.now.end t result }
    ensures sizes { SumStretch (sizes_in s.now.first.now s.now.second.now s.now.end) t result }
{
    match made {
        Some(pieces) => piece_stretch(pieces, t),
        None => part(s, from, until, low, t),
    }
}
