//! The first window of a stretch in which a server works less than its curve.

ghost use Rattle.std.specs.Prelude.{List, IfOk, IfSome};
ghost use Rattle.run_laws.specs.Cards.{ServerStep};
ghost use Rattle.run_laws.specs.Servers as servers;
ghost use Rattle.flow_watch.specs.watch_laws.Affine.{EachTime};
ghost use Rattle.flow_watch.specs.watch_laws.Laws.{MayServe};
ghost use Rattle.run_watch.specs.Ramps.{AreRamps};
ghost use Rattle.run_watch.specs.Classes.{Recurs};
ghost use Rattle.run_watch.specs.WatchTimes.{watched_from, TimesFit};
ghost use Rattle.run_watch.specs.IdleWindows.{FindsShort, NoneEndsBy, TimeFits, SegmentsFit};
ghost use Rattle.run_watch.specs.Held.{IsSightOf, IsHeld};
ghost use Rattle.run_watch.specs.Searches.{IsLookedAt, IsCut, FindsIn};

use crate::classes::cycle_of;
use crate::near::short_end;
use crate::reach::{reach_of, within_reach};
use crate::shorts::first_end;
use crate::span::Ramp;
use crate::watched::{Stretch, Watched, turns_in};
use crate::windows::{first_start, points_of, segments_of, watch_times};
use flow_watch::watch_laws::Segment;
use fraction128::{Frac, difference, is_less};
use std::alloc::{AllocError, Global};
use upp_curve::Curve;
use upp_curve::affine_segment::Piece;
use upp_normal::unrolled;

/// The last before `end` of a stretch's turns in order, or its start.
fn last_before(own: &[Frac], start: Frac, end: Frac) -> Frac
    ensures { IsCut own.now start end result }
{
    let mut last = start;
    for t in own {
        if !is_less(*t, end) {
            return last;
        }
        last = *t;
    }
    last
}

/// The window of a stretch that is short of work, between two watch points: with the least end, and of those with the
/// least start. The turns are moved by the starts of `pieces`; a window is short by `segments`. None ends by `after`, so
/// only the watch points from there on are looked at as ends. `cycle` is the period of the curve where it repeats from 0
/// on, and `end` the run's end.
pub(crate) fn first_short(
    alloc: Global,
    works: &[Ramp],
    s: &Stretch,
    turns: &[Frac],
    pieces: &[Piece],
    segments: &[Segment],
    after: Frac,
    cycle: &Option<Frac>,
    end: Frac,
) -> Result<Option<(Frac, Frac)>, AllocError>
    requires recurs { IfSome cycle.now (Recurs end s.now pieces.now) }
    requires ramps { AreRamps works.now }
    requires moves { TimesFit pieces.now turns.now }
    requires times { EachTime (TimeFits segments.now works.now) (watched_from s.now pieces.now turns.now) }
    requires segments { SegmentsFit segments.now }
    ensures { NoneEndsBy segments.now works.now (watched_from s.now pieces.now turns.now) after
        → IfOk result (FindsShort segments.now works.now (watched_from s.now pieces.now turns.now)) }
{
    let times = watch_times(alloc, s, turns, pieces, cycle, end)?;
    let points = points_of(alloc, works, &times)?;
    let rest = Stretch {
        start: after,
        end: s.end,
    };
    let late = turns_in(&times, &rest);
    let ends = points_of(alloc, works, late)?;
    let place = first_end(alloc, &points, &ends, segments)?;
    if place >= ends.len() {
        return Ok(None);
    }
    let last = ends[place];
    match first_start(&points, segments, &last) {
        Some(start) => Ok(Some((start, last.time))),
        None => Ok(None),
    }
}

/// The window of a stretch that is short of work, between two watch points: with the least end, and of those with the
/// least start. A look at the stretch's own turns, by the pieces of the curve up to its length but not beyond the reach,
/// comes first. Where it finds nothing, neither the watch points nor the pieces up to the run's end are made. Where it
/// finds windows, only the watch points up to their least end are, since no first window ends later: among them are
/// turns from before and after the stretch that a piece moves into it. Nor does one end by the last own turn before that
/// end, since then the look would have found one that does. No window is longer than the stretch, so the pieces up to
/// its length tell which of them is short.
pub(crate) fn first_in(
    alloc: Global,
    w: &Watched,
    curve: &Curve,
    s: &Stretch,
    own: &[Frac],
    turns: &[Frac],
) -> Result<Option<(Frac, Frac)>, AllocError>
    requires held { IsHeld w.now curve.now }
    requires stretch { IsLookedAt w.now s.now own.now turns.now }
    ensures { (server : servers.Server) (V : List ServerStep) → IsSightOf server w.now.end V w.now → MayServe curve.now
        → IfOk result (FindsIn w.now curve.now s.now own.now turns.now) }
{
    let near = unrolled(curve, difference(s.end, s.start))?;
    let segments = segments_of(alloc, &near)?;
    let reach = reach_of(curve);
    let early = within_reach(alloc, &segments, &reach)?;
    let end = match short_end(alloc, &w.works, s, own, &early)? {
        Some(end) => end,
        None => return Ok(None),
    };
    let upto = Stretch {
        start: s.start,
        end,
    };
    let after = last_before(own, s.start, end);
    let pieces = unrolled(curve, w.end)?;
    let cycle = cycle_of(curve);
    first_short(
        alloc, &w.works, &upto, turns, &pieces, &segments, after, &cycle, w.end,
    )
}
