//! The least end of a window of a stretch that is short of work, if there is one: the look at its own turns alone.

ghost use Rattle.std.specs.Prelude.{◌≡◌, ◌↔◌, IfOk, IsTrue, map};
ghost use Rattle.rational.specs.Rational.{ℚ};
ghost use Rattle.flow_watch.specs.watch_laws.Affine.{EachTime};
ghost use Rattle.flow_watch.specs.watch_laws.Shorts.{EachPoint};
ghost use Rattle.run_watch.specs.Ramps.{AreRamps};
ghost use Rattle.run_watch.specs.Watching.{RiseFrom};
ghost use Rattle.run_watch.specs.WatchTimes.{point_at};
ghost use Rattle.run_watch.specs.IdleWindows.{TimeFits, SegmentsFit};
ghost use Rattle.run_watch.specs.NearWindows.{earlier_time, AsksNothing, IsLeast, IsShortAfter, IsShortBefore, IsEndAfter, IsEndBefore, IsNearEnd, IsNearEndBy, IsNearEndOf, EndsShort, FitsNear, FitsNearBy};

use crate::ramps::amount_at;
use crate::shorts::first_end;
use crate::span::Ramp;
use crate::watched::Stretch;
use crate::windows::{is_short_by, points_of};
use flow_watch::step_lines::is_at_most;
use flow_watch::watch_laws::{Point, Segment};
use fraction128::{Frac, difference, is_less, sum};
use std::alloc::{AllocError, Global};

/// Whether the window from p on that is as long as the segment's start is in the stretch, and short by the segment.
fn is_short_after(works: &[Ramp], s: &Stretch, p: &Point, g: &Segment) -> bool
    requires ramps { AreRamps works.now }
    requires fits { FitsNear works.now s.now g.now p.now }
    ensures { IsTrue result ↔ IsShortAfter works.now s.now p.now g.now }
{
    let time = sum(p.time, g.start);
    if is_less(s.end, time) {
        return false;
    }
    let work = amount_at(works, time);
    let end = Point { time, work };
    is_short_by(g, p, &end)
}

/// Whether the one up to p is.
fn is_short_before(works: &[Ramp], s: &Stretch, p: &Point, g: &Segment) -> bool
    requires ramps { AreRamps works.now }
    requires fits { FitsNear works.now s.now g.now p.now }
    ensures { IsTrue result ↔ IsShortBefore works.now s.now p.now g.now }
{
    let time = difference(p.time, g.start);
    if is_less(time, s.start) {
        return false;
    }
    let work = amount_at(works, time);
    let start = Point { time, work };
    is_short_by(g, &start, p)
}

/// The earlier of two times, if there is one.
pub(crate) fn earlier_time(best: Option<Frac>, next: Option<Frac>) -> Option<Frac>
    ensures { result ≡ earlier_time best next }
{
    match best {
        None => next,
        Some(t) => match next {
            None => Some(t),
            Some(u) => { if is_less(u, t) { Some(u) } else { Some(t) } }
        },
    }
}

/// The end of the one up to p, where it is short.
fn end_before(works: &[Ramp], s: &Stretch, p: &Point, g: &Segment) -> Option<Frac>
    requires ramps { AreRamps works.now }
    requires fits { FitsNear works.now s.now g.now p.now }
    ensures { IsLeast (IsEndBefore works.now s.now p.now g.now) result }
{
    if is_short_before(works, s, p, g) {
        return Some(p.time);
    }
    None
}

/// The end of the one from p on, where it is.
fn end_after(works: &[Ramp], s: &Stretch, p: &Point, g: &Segment) -> Option<Frac>
    requires ramps { AreRamps works.now }
    requires fits { FitsNear works.now s.now g.now p.now }
    ensures { IsLeast (IsEndAfter works.now s.now p.now g.now) result }
{
    if is_short_after(works, s, p, g) {
        return Some(sum(p.time, g.start));
    }
    None
}

/// Whether a segment starts at 0, with no more than 0 there: no window without length is short by it.
fn asks_nothing(g: &Segment) -> bool
    ensures { IsTrue result → AsksNothing g.now }
{
    if g.start == Frac::zero() {
        return is_at_most(g.value, Frac::zero());
    }
    false
}

/// The least end of such a window that is short by the segment, with p as one end.
fn near_end(works: &[Ramp], s: &Stretch, p: &Point, g: &Segment) -> Option<Frac>
    requires ramps { AreRamps works.now }
    requires fits { FitsNear works.now s.now g.now p.now }
    requires at { p.now ≡ point_at works.now p.now.time }
    ensures { IsLeast (IsNearEnd works.now s.now p.now g.now) result }
{
    if asks_nothing(g) {
        return None;
    }
    earlier_time(end_before(works, s, p, g), end_after(works, s, p, g))
}

/// The least end of such a window that is short by one of the segments, with p as one end.
fn near_end_by(works: &[Ramp], s: &Stretch, p: &Point, segments: &[Segment]) -> Option<Frac>
    requires ramps { AreRamps works.now }
    requires fits { FitsNearBy segments.now works.now s.now p.now }
    requires at { p.now ≡ point_at works.now p.now.time }
    ensures { IsLeast (IsNearEndBy segments.now works.now s.now p.now) result }
{
    let mut least = None;
    for g in segments {
        least = earlier_time(least, near_end(works, s, p, g));
    }
    least
}

/// The least end of one at one of the points.
fn near_end_of(works: &[Ramp], s: &Stretch, points: &[Point], segments: &[Segment]) -> Option<Frac>
    requires ramps { AreRamps works.now }
    requires fits { EachPoint (FitsNearBy segments.now works.now s.now) points.now }
    requires at { EachPoint (λ p. p ≡ point_at works.now p.time) points.now }
    ensures { IsLeast (IsNearEndOf segments.now works.now s.now points.now) result }
{
    let mut least = None;
    for p in points {
        least = earlier_time(least, near_end_by(works, s, p, segments));
    }
    least
}

/// The least end of a window of the stretch that is short of work between two of its turns `own`, or between one of them
/// and a time that is as far away as one of the segments starts; none where no such window is short. One pass over the
/// turns for each segment, and two windows for each turn and segment.
pub(crate) fn short_end(
    alloc: Global,
    works: &[Ramp],
    s: &Stretch,
    own: &[Frac],
    segments: &[Segment],
) -> Result<Option<Frac>, AllocError>
    requires ramps { AreRamps works.now }
    requires rise { (from : ℚ) × RiseFrom from own.now }
    requires segments { SegmentsFit segments.now }
    requires times { EachTime (TimeFits segments.now works.now) own.now }
    requires near { EachPoint (FitsNearBy segments.now works.now s.now) (map (point_at works.now) own.now) }
    ensures { IfOk result (IsLeast (EndsShort segments.now works.now s.now own.now)) }
{
    let points = points_of(alloc, works, own)?;
    let place = first_end(alloc, &points, &points, segments)?;
    let near = near_end_of(works, s, &points, segments);
    if place >= points.len() {
        return Ok(near);
    }
    Ok(earlier_time(Some(points[place].time), near))
}
