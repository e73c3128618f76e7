//! The first window in which a server works less than its curve.

ghost use Rattle.std.specs.Prelude.{◌≡◌, ◌↔◌, List, Some, pos, IfOk, IsTrue};
ghost use Rattle.rational.specs.Rational.{ℚ, int, ◌<ℚ◌};
ghost use Rattle.run_laws.specs.Cards.{ServerStep};
ghost use Rattle.run_laws.specs.Servers as servers;
ghost use Rattle.flow_watch.specs.watch_laws.Laws.{MayServe};
ghost use Rattle.flow_watch.specs.watch_laws.Shorts.{IsPastEnd};
ghost use Rattle.run_watch.specs.Watching as watching;
ghost use Rattle.run_watch.specs.Watching.{RiseFrom};
ghost use Rattle.run_watch.specs.WatchTimes.{HaveSameTimes};
ghost use Rattle.run_watch.specs.Held.{IsSightOf, IsHeld, FindsIdle};
ghost use Rattle.run_watch.specs.Searches.{IsPart};

use crate::idle::first_in;
use crate::watched::{Stretch, Watched, stops_of, stretches_of, turns_in, turns_of};
use crate::windows::put_in_order;
use fraction128::{Frac, is_less};
use std::alloc::{AllocError, Global};
use upp_curve::Curve;

/// Whether t is `until` or later; where there is no such time it never is.
fn is_late(until: &Option<Frac>, t: Frac) -> bool
    ensures { IsTrue result ↔ IsPastEnd until.now t }
{
    match until {
        None => false,
        Some(end) => !is_less(t, *end),
    }
}

/// A stretch as far as its first turn at a time or later.
fn part_from(sorted: &[Frac], s: &Stretch, start: Frac) -> Stretch
    requires { (from : ℚ) × RiseFrom from sorted.now }
    ensures { IsPart (Some start) sorted.now s.now result }
{
    let rest = Stretch { start, end: s.end };
    let late = turns_in(sorted, &rest);
    if late.is_empty() {
        return *s;
    }
    Stretch {
        start: s.start,
        end: late[0],
    }
}

/// A stretch as far as its first turn at `until` or later.
fn part_of(sorted: &[Frac], s: &Stretch, until: &Option<Frac>) -> Stretch
    requires { (from : ℚ) × RiseFrom from sorted.now }
    ensures { IsPart until.now sorted.now s.now result }
{
    match until {
        None => *s,
        Some(start) => part_from(sorted, s, *start),
    }
}

/// The turns in order, each once.
fn in_order(alloc: Global, turns: &[Frac]) -> Result<Vec<Frac>, AllocError>
    ensures same { IfOk result (λ v. HaveSameTimes turns.now v.items) }
    ensures rise { IfOk result (λ v. (from : ℚ) × RiseFrom from v.items) }
{
    let mut sorted = Vec::from_slice(alloc, turns)?;
    put_in_order(&mut sorted)?;
    Ok(sorted)
}

/// The first window between two watch points of a stretch in which the server works less than its curve, along all of
/// its stretches: `turned` are its turns, and `sorted` the same times in order.
fn first_along(
    alloc: Global,
    w: &Watched,
    curve: &Curve,
    until: &Option<Frac>,
    along: &[Stretch],
    turned: &[Frac],
    sorted: &[Frac],
) -> Result<Option<(Frac, Frac)>, AllocError>
    requires held { IsHeld w.now curve.now }
    requires some { int (pos 0) <ℚ w.now.end }
    requires along { along.now ≡ watching.stretches w.now }
    requires turned { turned.now ≡ watching.turns w.now (watching.stretches w.now) }
    requires same { HaveSameTimes turned.now sorted.now }
    requires rise { (from : ℚ) × RiseFrom from sorted.now }
    ensures { (server : servers.Server) (V : List ServerStep) → IsSightOf server w.now.end V w.now → MayServe curve.now
        → IfOk result (FindsIdle until.now w.now.end V curve.now) }
{
    for s in along {
        if is_late(until, s.start) {
            return Ok(None);
        }
        let part = part_of(sorted, s, until);
        let own = turns_in(sorted, &part);
        if let Some(found) = first_in(alloc, w, curve, &part, own, turned)? {
            return Ok(Some(found));
        }
        if is_late(until, part.end) {
            return Ok(None);
        }
    }
    Ok(None)
}

/// The first window between two watch points of a stretch in which the server works less than its curve: with the
/// least end, and of those with the least start. None, where none ends before `until`: then no stretch is looked at
/// further than to its first turn at that time or later.
pub fn first_idle(
    alloc: Global,
    w: &Watched,
    curve: &Curve,
    until: &Option<Frac>,
) -> Result<Option<(Frac, Frac)>, AllocError>
    requires { IsHeld w.now curve.now }
    ensures { (server : servers.Server) (V : List ServerStep) → IsSightOf server w.now.end V w.now → MayServe curve.now
        → IfOk result (FindsIdle until.now w.now.end V curve.now) }
{
    if !is_less(Frac::zero(), w.end) {
        return Ok(None);
    }
    let stops = stops_of(alloc, w)?;
    let stretches = stretches_of(alloc, w, &stops)?;
    let turns = turns_of(alloc, w, &stretches)?;
    let sorted = in_order(alloc, &turns)?;
    first_along(alloc, w, curve, until, &stretches, &turns, &sorted)
}
