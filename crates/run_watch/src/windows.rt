//! The windows of a stretch that are looked at.

ghost use Rattle.std.specs.Prelude.{◌≡◌, ◌↔◌, [], ◌∷◌, ◌++◌, ◌<◌, length, drop, map, IfOk, IfSome, OnOk, IsTrue};
ghost use Rattle.rational.specs.Rational.{ℚ};
ghost use Rattle.upp_curve.specs.declared.affine_segment.line.Piece.{Piece};
ghost use Rattle.upp_curve.specs.affine_segment.Pieces.{Each};
ghost use Rattle.flow_watch.specs.watch_laws.Affine.{EachTime};
ghost use Rattle.flow_watch.specs.watch_laws.Segments.{segment_of, segments};
ghost use Rattle.flow_watch.specs.watch_laws.Shorts.{IsShortBy, PointsRise};
ghost use Rattle.flow_watch.specs.watch_laws.Marks.{FitsRule};
ghost use Rattle.run_watch.specs.Ramps.{AreRamps, EachRamp, ReadsRamp};
ghost use Rattle.run_watch.specs.FirstEnds.{FitsMarks, FitsSegments};
ghost use Rattle.run_watch.specs.NearWindows.{IsLeast};
ghost use Rattle.run_watch.specs.Watching.{RiseFrom};
ghost use Rattle.run_watch.specs.Classes.{moves_of, all_moves, Recurs};
ghost use Rattle.run_watch.specs.WatchTimes.{inside, watched_from, HaveSameTimes, AroundFits, TimesFit, point_at, StartsBy, StartsTo};

use crate::classes::{Side, leads_of, moved};
use crate::near::earlier_time;
use crate::ramps::amount_at;
use crate::scan::is_past;
use crate::shorts::{in_reach, mark_of, rule_of};
use crate::span::Ramp;
use crate::watched::Stretch;
use flow_watch::next_start;
use flow_watch::step_lines::is_at_most;
use flow_watch::watch_laws::{Point, Segment};
use fraction128::{Frac, difference, is_less, sum};
use rational::Extended;
use std::alloc::{AllocError, Global};
use upp_curve::affine_segment::Piece;

/// One time more, where it is in the stretch.
fn push_inside(times: &mut Vec<Frac>, s: &Stretch, t: Frac) -> Result<(), AllocError>
    ensures { OnOk result (times.new.items ≡ times.old.items ++ inside s.now t) }
{
    if is_at_most(s.start, t) && is_at_most(t, s.end) {
        times.push(t)?;
    }
    Ok(())
}

/// The starts of the pieces after p, or before it, more, as far as they are in the stretch.
fn push_moves(
    times: &mut Vec<Frac>,
    side: Side,
    s: &Stretch,
    p: Frac,
    pieces: &[Piece],
) -> Result<(), AllocError>
    requires { Each (λ q. AroundFits p q.x) pieces.now }
    ensures { OnOk result (times.new.items ≡ times.old.items ++ moves_of side s.now p pieces.now) }
{
    for q in pieces {
        push_inside(times, s, moved(side, p, q.x))?;
    }
    Ok(())
}

/// Puts some times in order, each once.
pub(crate) fn put_in_order(times: &mut Vec<Frac>) -> Result<(), AllocError>
    ensures same { OnOk result (HaveSameTimes times.old.items times.new.items) }
    ensures rise { OnOk result ((from : ℚ) × RiseFrom from times.new.items) }
{
    times.sort()?;
    times.dedup();
    Ok(())
}

/// Puts them in order where there are more than twice as many as when that was done last; then there were `kept`. Answers
/// how many there are when it has been done.
fn put_in_order_again(times: &mut Vec<Frac>, kept: usize) -> Result<usize, AllocError>
    ensures { IfOk result (λ _. HaveSameTimes times.old.items times.new.items) }
{
    if times.len() / 2 <= kept {
        return Ok(kept);
    }
    put_in_order(times)?;
    Ok(times.len())
}

/// Those of all of some times. Of equal ones there are never more than of others, since they are put in order whenever
/// they have doubled.
fn push_all_moves(
    times: &mut Vec<Frac>,
    side: Side,
    s: &Stretch,
    turns: &[Frac],
    pieces: &[Piece],
) -> Result<(), AllocError>
    requires { TimesFit pieces.now turns.now }
    ensures { OnOk result
        (HaveSameTimes (times.old.items ++ all_moves side s.now pieces.now turns.now) times.new.items) }
{
    let mut kept = times.len();
    for p in turns {
        push_moves(times, side, s, *p, pieces)?;
        kept = put_in_order_again(times, kept)?;
    }
    Ok(())
}

/// The watch points of a stretch, in order and each once: the turns, and each moved by the start of a piece of the curve.
/// `cycle` is the period of a curve that repeats from 0 on: of turns that are whole periods apart only the first is moved
/// on, and the last back.
pub(crate) fn watch_times(
    alloc: Global,
    s: &Stretch,
    turns: &[Frac],
    pieces: &[Piece],
    cycle: &Option<Frac>,
    end: Frac,
) -> Result<Vec<Frac>, AllocError>
    requires fits { TimesFit pieces.now turns.now }
    requires recurs { IfSome cycle.now (Recurs end s.now pieces.now) }
    ensures same { IfOk result (λ v. HaveSameTimes (watched_from s.now pieces.now turns.now) v.items) }
    ensures rise { IfOk result (λ v. (from : ℚ) × RiseFrom from v.items) }
{
    let first = leads_of(alloc, turns, Side::Later, end, cycle)?;
    let last = leads_of(alloc, turns, Side::Earlier, end, cycle)?;
    let mut times = Vec::new(alloc);
    push_all_moves(&mut times, Side::Later, s, &first, pieces)?;
    push_all_moves(&mut times, Side::Earlier, s, &last, pieces)?;
    put_in_order(&mut times)?;
    Ok(times)
}

/// The work done up to each of some times.
pub(crate) fn points_of(
    alloc: Global,
    works: &[Ramp],
    times: &[Frac],
) -> Result<Vec<Point>, AllocError>
    requires ramps { AreRamps works.now }
    requires fits { EachTime (λ t. EachRamp (ReadsRamp t) works.now) times.now }
    ensures { IfOk result (λ v. v.items ≡ map (point_at works.now) times.now) }
{
    let mut points = Vec::new(alloc);
    for t in times {
        points.push(Point {
            time: *t,
            work: amount_at(works, *t),
        })?;
    }
    Ok(points)
}

/// A piece as a segment that ends where the next piece starts.
fn segment_of(p: &Piece, end: Option<Frac>) -> Segment
    ensures { result ≡ segment_of p.now end }
{
    let value = match p.at {
        Extended::Fin(v) => v,
        Extended::Inf => Frac::zero(),
    };
    let slope = match p.line {
        Some(line) => line.slope,
        None => Frac::zero(),
    };
    Segment {
        start: p.x,
        end,
        value,
        slope,
    }
}

/// The segments of pieces.
pub(crate) fn segments_of(alloc: Global, pieces: &[Piece]) -> Result<Vec<Segment>, AllocError>
    ensures { IfOk result (λ v. v.items ≡ segments pieces.now) }
{
    let mut found = Vec::new(alloc);
    for i in 0..pieces.len() {
        found.push(segment_of(&pieces[i], next_start(pieces, i + 1)))?;
    }
    Ok(found)
}

/// Whether the window from a to b is short by a segment.
pub(crate) fn is_short_by(s: &Segment, a: &Point, b: &Point) -> bool
    requires a { FitsMarks (a.now ∷ []) s.now }
    requires b { FitsMarks (b.now ∷ []) s.now }
    ensures { IsTrue result ↔ IsShortBy s.now a.now b.now }
{
    let rule = rule_of(s);
    let from = mark_of(s.slope, a);
    let to = mark_of(s.slope, b);
    if is_less(to.time, sum(from.time, rule.least)) {
        return false;
    }
    if is_past(&rule.most, from.time, to.time) {
        return false;
    }
    is_less(to.end_key, sum(from.start_key, rule.gap))
}

/// The first of some points in order from which a window to b is short by the segment, of those in reach.
fn first_start_by(points: &[Point], s: &Segment, b: &Point) -> Option<Frac>
    requires rise { PointsRise points.now }
    requires fits { FitsMarks points.now s.now }
    requires b { FitsMarks (b.now ∷ []) s.now }
    ensures { IsLeast (StartsBy points.now b.now s.now) result }
{
    let starts = in_reach(points, s, b.time, b.time);
    for p in starts {
        if is_short_by(s, p, b) {
            return Some(p.time);
        }
    }
    None
}

/// The time of the first of some points from which a window to b is short by one of the segments.
pub(crate) fn first_start(points: &[Point], segments: &[Segment], b: &Point) -> Option<Frac>
    requires rise { PointsRise points.now }
    requires fits { FitsSegments points.now segments.now }
    requires b { FitsSegments (b.now ∷ []) segments.now }
    ensures { IsLeast (StartsTo points.now b.now segments.now) result }
{
    let mut first = None;
    for s in segments {
        first = earlier_time(first, first_start_by(points, s, b));
    }
    first
}
