//! What an element makes with a curve, as it goes on from a time. No memory is taken.

ghost use Rattle.std.specs.Prelude.{◌≡◌, ◌⊎◌};
ghost use Rattle.rational.specs.Rational.{ℚ, ◌-ℚ◌, ◌≤ℚ◌, neg_ℚ};
ghost use Rattle.rational.specs.Ratio.{SumFits};
ghost use Rattle.rational.specs.Families.{either};
ghost use Rattle.upp_curve.specs.affine_segment.Elements.{IsProper, start_of};
ghost use Rattle.upp_curve.specs.Curve.{value_at};
ghost use Rattle.upp_limits.specs.Limits.{Sizes};
ghost use Rattle.element_envelope.specs.ElementRoom.{OperandElement, WindowTime};
ghost use Rattle.element_envelope.specs.SumWindows.{SumStart};
ghost use Rattle.curve_conv.specs.Scans.{sizes_in, IsScan, IsEarly, is_time, time_or};
ghost use Rattle.curve_conv.specs.Stretches.{SumStretch, SumTimeIn, IsAhead, PartPair, part_pair_sum, RowSplit};
ghost use Rattle.curve_conv.specs.Stretches.{row_sum};
ghost use Rattle.curve_conv.specs.Stretches.{IsProperPart, OperandPart};

use crate::elements::{nothing, open_at, part_pair, point_at};
use crate::lower::lower;
use fraction128::{Frac, difference, is_less};
use upp_curve::Curve;
use upp_curve::affine_segment::{Element, start_of};
use upp_normal::{Stretch, stretch_at};

/// Two curves whose pairs of pieces are looked at, up to the end of a window.
#[derive(Clone, Copy)]
pub(crate) struct Scan<'a> {
    /// The one that gives the first side of a split.
    pub(crate) first: &'a Curve,
    /// The one that gives the second.
    pub(crate) second: &'a Curve,
    /// Where the window ends.
    pub(crate) end: Frac,
}

/// A time that may be missing, where it is before the limit.
pub(crate) fn early(at: Option<Frac>, limit: Frac) -> Option<Frac>
    ensures { IsEarly at limit result }
{
    match at {
        None => None,
        Some(x) => { if is_less(x, limit) { at } else { None } }
    }
}

/// Whether a time is there.
pub(crate) fn is_time(next: &Option<Frac>) -> bool
    ensures { result ≡ is_time next.now }
{
    match next {
        None => false,
        Some(_) => true,
    }
}

/// The time, or else y.
pub(crate) fn time_or(next: Option<Frac>, y: Frac) -> Frac
    ensures { result ≡ time_or next y }
{
    match next {
        None => y,
        Some(x) => x,
    }
}

// What an element makes with a point and with a line that may be missing.
fn cell_row(a: &Element, point: &Option<Element>, after: &Option<Element>, t: Frac) -> Stretch
    requires room { (z : Sizes) × (end : ℚ) × SumTimeIn z end t × OperandElement z end a.now
        × OperandPart z end point.now × OperandPart z end after.now }
    requires proper { IsProper a.now }
    requires point { IsProperPart point.now }
    requires after { IsProperPart after.now }
    ensures ahead { (end : ℚ) → IsAhead (λ u. PartPair a.now point.now u ⊎ PartPair a.now after.now u)
        (λ u. either (part_pair_sum a.now point.now u) (part_pair_sum a.now after.now u)) end t result }
    ensures sizes { (z : Sizes) (end : ℚ) → SumTimeIn z end t → OperandElement z end a.now
        → OperandPart z end point.now → OperandPart z end after.now
        → SumStretch z t result }
{
    let first = part_pair(a, point, t);
    let second = part_pair(a, after, t);
    lower(&first, &second, t)
}

/// What an element makes with the second curve from `low` on, as it goes on from t, up to the end of the window.
pub(crate) fn row(s: &Scan, a: &Element, low: Frac, t: Frac) -> Stretch
    requires scan { IsScan s.now.first.now s.now.second.now s.now.end }
    requires element { OperandElement (sizes_in s.now.first.now s.now.second.now s.now.end) s.now.end a.now }
    requires proper { IsProper a.now }
    requires low { WindowTime (sizes_in s.now.first.now s.now.second.now s.now.end) s.now.end low }
    requires time { SumStart (sizes_in s.now.first.now s.now.second.now s.now.end) s.now.end t }
    ensures ahead { IsAhead (RowSplit a.now (λ u. low ≤ℚ u)) (row_sum a.now (value_at s.now.second.now)
        (λ u. low ≤ℚ u)) s.now.end t result }
    ensures sizes { SumStretch (sizes_in s.now.first.now s.now.second.now s.now.end) t result }
{
    let room = difference(s.end, start_of(a));
    let mut least = nothing(None);
    let mut y = low;
    let mut more = is_less(low, room);
    'cells: while more {
        let here = stretch_at(s.second, y);
        let next = early(here.next, room);
        let point = point_at(y, here.at);
        let after = open_at(y, next, here.line);
        let cell = cell_row(a, &point, &after, t);
        least = lower(&least, &cell, t);
        more = is_time(&next);
        y = time_or(next, y);
    }
    least
}
