ghost use Rattle.std.specs.Prelude.{◌≡◌, ◌≤◌, length, take, drop, map, IfOk};
ghost use Rattle.rational.specs.Ratio.{SumFits};
ghost use Rattle.flow_watch.specs.watch_laws.Marks.{IsPast, MostFits};
ghost use Rattle.flow_watch.specs.watch_laws.Shorts.{EachPoint, PointsRise};
ghost use Rattle.run_watch.specs.FirstEnds.{mark_of, rule_of, KeySteps, GapSteps, FitsSegments, FitsMarks, IsTooLate, HoldsStarts, IsFirstBy, IsFirstEnd};

use crate::scan::{first_under, is_past};
use flow_watch::watch_laws::{Mark, Point, Rule, Segment};
use fraction128::{Frac, difference, is_less, product, sum};
use std::alloc::{AllocError, Global};

/// The mark of a point, by a slope.
pub(crate) fn mark_of(slope: Frac, p: &Point) -> Mark
    requires { KeySteps slope p.now }
    ensures { result ≡ mark_of slope p.now }
{
    let key = difference(p.work, product(slope, p.time));
    Mark {
        time: p.time,
        start_key: key,
        end_key: key,
    }
}

/// The rule of a segment.
pub(crate) fn rule_of(s: &Segment) -> Rule
    requires { GapSteps s.now }
    ensures { result ≡ rule_of s.now }
{
    Rule {
        least: s.start,
        most: s.end,
        gap: difference(s.value, product(s.slope, s.start)),
    }
}

/// The marks of some points, by a slope.
fn marks_of(alloc: Global, points: &[Point], slope: Frac) -> Result<Vec<Mark>, AllocError>
    requires { EachPoint (KeySteps slope) points.now }
    ensures { IfOk result (λ v. v.items ≡ map (mark_of slope) points.now) }
{
    let mut marks = Vec::new(alloc);
    for p in points {
        marks.push(mark_of(slope, p))?;
    }
    Ok(marks)
}

/// How many of the first points are too early for a window by the rule that ends at t or later, by halving.
fn past_by(points: &[Point], rule: &Rule, t: Frac) -> usize
    requires rise { PointsRise points.now }
    requires fits { EachPoint (λ p. MostFits rule.now.most p.time) points.now }
    ensures in_range { result ≤ length points.now }
    ensures past { EachPoint (λ p. IsPast rule.now.most p.time t) (take result points.now) }
{
    let mut low = 0;
    let mut high = points.len();
    while low < high {
        let middle = low + (high - low) / 2;
        let time = points[middle].time;
        if is_past(&rule.most, time, t) {
            low = middle + 1;
        } else {
            high = middle;
        }
    }
    low
}

/// How many of them are not too late for one that ends at t or earlier.
fn far_by(points: &[Point], rule: &Rule, t: Frac) -> usize
    requires rise { PointsRise points.now }
    requires fits { EachPoint (λ p. SumFits p.time rule.now.least) points.now }
    ensures in_range { result ≤ length points.now }
    ensures late { EachPoint (IsTooLate rule.now t) (drop result points.now) }
{
    let mut low = 0;
    let mut high = points.len();
    while low < high {
        let middle = low + (high - low) / 2;
        let time = points[middle].time;
        if is_less(t, sum(time, rule.least)) {
            high = middle;
        } else {
            low = middle + 1;
        }
    }
    high
}

/// The points from which a window that ends from `first` to `last` is as long as the segment lets it be.
pub(crate) fn in_reach<'a>(points: &'a [Point], s: &Segment, first: Frac, last: Frac) -> &'a [Point]
    requires rise { PointsRise points.now }
    requires fits { FitsMarks points.now s.now }
    ensures { HoldsStarts s.now points.now first last result.now }
{
    let rule = rule_of(s);
    let far = &points[..far_by(points, &rule, last)];
    let from = past_by(far, &rule, first);
    &far[from..]
}

/// The number of the first end to which a window from one of the points is short by the segment; how many ends there
/// are, where to none is.
fn first_end_by(
    alloc: Global,
    points: &[Point],
    ends: &[Point],
    s: &Segment,
) -> Result<usize, AllocError>
    requires rise { PointsRise points.now }
    requires ends { PointsRise ends.now }
    requires fits { FitsMarks points.now s.now }
    requires keys { FitsMarks ends.now s.now }
    ensures { IfOk result (IsFirstBy s.now points.now ends.now) }
{
    let count = ends.len();
    if count == 0 {
        return Ok(0);
    }
    let first = ends[0].time;
    let last = ends[count - 1].time;
    let starts = in_reach(points, s, first, last);
    let marks = marks_of(alloc, starts, s.slope)?;
    let end_marks = marks_of(alloc, ends, s.slope)?;
    let rule = rule_of(s);
    match first_under(alloc, &marks, &end_marks, &rule)? {
        None => Ok(count),
        Some(k) => Ok(k),
    }
}

/// The number of the first end to which a window from one of the points is short by one of the segments; how many ends
/// there are, where to none is. One pass for each segment, over the ends and the points that it reaches back to.
pub fn first_end(
    alloc: Global,
    points: &[Point],
    ends: &[Point],
    segments: &[Segment],
) -> Result<usize, AllocError>
    requires rise { PointsRise points.now }
    requires ends { PointsRise ends.now }
    requires fits { FitsSegments points.now segments.now }
    requires keys { FitsSegments ends.now segments.now }
    ensures { IfOk result (IsFirstEnd segments.now segments.now points.now ends.now) }
{
    let mut first = ends.len();
    for s in segments {
        first = first_end_by(alloc, points, &ends[..first], s)?;
    }
    Ok(first)
}
