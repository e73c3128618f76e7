//! What two curves make of the splits of which the first side is in some span, as it goes on from a time. No memory
//! is taken.

ghost use Rattle.std.specs.Prelude.{◌≡◌, ◌⊎◌, Option, None};
ghost use Rattle.rational.specs.Rational.{ℚ, ◌≤ℚ◌};
ghost use Rattle.rational.specs.Families.{either};
ghost use Rattle.upp_curve.specs.Curve.{value_at};
ghost use Rattle.upp_normal.specs.Ahead.{AtNext};
ghost use Rattle.element_envelope.specs.ElementRoom.{WindowTime};
ghost use Rattle.element_envelope.specs.SumWindows.{SumStart};
ghost use Rattle.curve_conv.specs.Parts.{PartSplit, part_sum};
ghost use Rattle.curve_conv.specs.Scans.{sizes_in, IsScan, IsLimit, InPart, or_else};
ghost use Rattle.curve_conv.specs.Stretches.{SumStretch, IsAhead, PartRow, part_row_sum, IsProperPart, OperandPart};

use crate::elements::{nothing, open_at, point_at};
use crate::lower::lower;
use crate::rows::{Scan, early, is_time, row, time_or};
use fraction128::{Frac, difference, is_less};
use upp_curve::affine_segment::Element;
use upp_normal::{Stretch, stretch_at};

/// The first of two times that may be missing, where it is there.
pub(crate) fn or_else(next: Option<Frac>, until: &Option<Frac>) -> Option<Frac>
    ensures { result ≡ or_else next until.now }
{
    match next {
        None => *until,
        Some(_) => next,
    }
}

/// The earlier of a time and one that may be missing.
pub(crate) fn limit_of(room: Frac, until: &Option<Frac>) -> Frac
    ensures { IsLimit room until.now result }
{
    match until {
        None => room,
        Some(e) => { if is_less(*e, room) { *e } else { room } }
    }
}

// What an element that may be missing makes with the second curve from `low` on.
fn part_row(s: &Scan, o: &Option<Element>, low: Frac, t: Frac) -> Stretch
    requires scan { IsScan s.now.first.now s.now.second.now s.now.end }
    requires element { OperandPart (sizes_in s.now.first.now s.now.second.now s.now.end) s.now.end o.now }
    requires proper { IsProperPart o.now }
    requires low { WindowTime (sizes_in s.now.first.now s.now.second.now s.now.end) s.now.end low }
    requires time { SumStart (sizes_in s.now.first.now s.now.second.now s.now.end) s.now.end t }
    ensures ahead { IsAhead (PartRow o.now (λ u. low ≤ℚ u)) (part_row_sum o.now (value_at s.now.second.now)
        (λ u. low ≤ℚ u)) s.now.end t result }
    ensures sizes { SumStretch (sizes_in s.now.first.now s.now.second.now s.now.end) t result }
{
    match o {
        None => nothing(None),
        Some(a) => row(s, a, low, t),
    }
}

// What a point and a line that may be missing make with it.
fn cell_part(
    s: &Scan,
    point: &Option<Element>,
    after: &Option<Element>,
    low: Frac,
    t: Frac,
) -> Stretch
    requires scan { IsScan s.now.first.now s.now.second.now s.now.end }
    requires point { OperandPart (sizes_in s.now.first.now s.now.second.now s.now.end) s.now.end point.now
        × IsProperPart point.now }
    requires after { OperandPart (sizes_in s.now.first.now s.now.second.now s.now.end) s.now.end after.now
        × IsProperPart after.now }
    requires low { WindowTime (sizes_in s.now.first.now s.now.second.now s.now.end) s.now.end low }
    requires time { SumStart (sizes_in s.now.first.now s.now.second.now s.now.end) s.now.end t }
    ensures ahead { IsAhead (λ u. PartRow point.now (λ v. low ≤ℚ v) u ⊎ PartRow after.now (λ v. low ≤ℚ v) u)
        (λ u. either (part_row_sum point.now (value_at s.now.second.now) (λ v. low ≤ℚ v) u)
        (part_row_sum after.now (value_at s.now.second.now) (λ v. low ≤ℚ v) u))
        s.now.end t result }
    ensures sizes { SumStretch (sizes_in s.now.first.now s.now.second.now s.now.end) t result }
{
    let first = part_row(s, point, low, t);
    let second = part_row(s, after, low, t);
    lower(&first, &second, t)
}

/// What the two curves make of the splits of which the first side is in [from, until) and the second is `low` or
/// later, as it goes on from t, up to the end of the window.
pub(crate) fn part(s: &Scan, from: Frac, until: &Option<Frac>, low: Frac, t: Frac) -> Stretch
    requires scan { IsScan s.now.first.now s.now.second.now s.now.end }
    requires from { WindowTime (sizes_in s.now.first.now s.now.second.now s.now.end) s.now.end from }
    requires until { AtNext (WindowTime (sizes_in s.now.first.now s.now.second.now s.now.end) s.now.end) until.now }
    requires low { WindowTime (sizes_in s.now.first.now s.now.second.now s.now.end) s.now.end low }
    requires time { SumStart (sizes_in s.now.first.now s.now.second.now s.now.end) s.now.end t }
    ensures ahead { IsAhead (PartSplit (InPart from None until.now low)) (part_sum (value_at s.now.first.now)
        (value_at s.now.second.now) (InPart from None until.now low)) s.now.end t result }
    ensures sizes { SumStretch (sizes_in s.now.first.now s.now.second.now s.now.end) t result }
{
    let room = difference(s.end, low);
    let limit = limit_of(room, until);
    let mut least = nothing(None);
    let mut x = from;
    let mut more = is_less(from, limit);
    'cells: while more {
        let here = stretch_at(s.first, x);
        let next = early(here.next, limit);
        let point = point_at(x, here.at);
        let to = or_else(next, until);
        let after = open_at(x, to, here.line);
        let cell = cell_part(s, &point, &after, low, t);
        least = lower(&least, &cell, t);
        more = is_time(&next);
        x = time_or(next, x);
    }
    least
}
