//! The stretches through which a server has work, and its turns.

ghost use Rattle.std.specs.Prelude.{◌≡◌, ◌++◌, ℕ, pos, [], length, IfOk, OnOk};
ghost use Rattle.rational.specs.Rational.{ℚ, int, le_q};
ghost use Rattle.flow_watch.specs.watch_laws.Affine.{EachTime};
ghost use Rattle.run_watch.specs.Ramps.{EachRamp, RampsFit, AreRamps, TakeTime, spans_of, EndsBefore};
ghost use Rattle.run_watch.specs.Seen.{works_at, arrivals_at};
ghost use Rattle.run_watch.specs.Watching.{is_caught_up, ReadsAt, stops, RiseFrom, next_after, stretch_from, stretches_in, change_at, turns, HoldsTimes, Sees, AreReached};

use crate::ramps::{amount_past, ended, ended_by, pace_after, pace_before, ramps_of};
use crate::seen::{arrivals_of, leaves_of, works_of};
use crate::span::Ramp;
use flow_watch::step_lines::{is_at_most, is_under};
use fraction128::{Frac, is_less};
use run_laws::Step;
use std::alloc::{AllocError, Global};

/// What one server sees of a run that ends at `end`.
#[derive(Drop)]
pub struct Watched {
    pub arrivals: Vec<Ramp>,
    pub works: Vec<Ramp>,
    /// When packets leave.
    pub leaves: Vec<Frac>,
    pub end: Frac,
}

/// From `start` to `end` the server has work all the time.
#[derive(Clone, Copy)]
pub struct Stretch {
    pub start: Frac,
    pub end: Frac,
}

/// How much of what a server sees ends before a time.
#[derive(Clone, Copy)]
pub struct Progress {
    pub arrived: usize,
    pub worked: usize,
}

/// What a server sees of the steps of a run. `firsts` has for each flow the first server of its path.
pub fn watch(
    alloc: Global,
    steps: &[Step],
    firsts: &[u32],
    server: u32,
    end: Frac,
) -> Result<Watched, AllocError>
    requires arrivals { RampsFit (int (pos 0)) (arrivals_at firsts.now server [] steps.now) }
    requires works { RampsFit (int (pos 0)) (works_at server steps.now) }
    ensures { IfOk result (λ w. Sees w firsts.now server steps.now end) }
{
    let arrivals = arrivals_of(alloc, steps, firsts, server)?;
    let works = works_of(alloc, steps, server)?;
    Ok(Watched {
        arrivals: ramps_of(alloc, &arrivals)?,
        works: ramps_of(alloc, &works)?,
        leaves: leaves_of(alloc, steps, server)?,
        end,
    })
}

/// How much of what it sees ends before t, near how much did before.
fn reached(w: &Watched, t: Frac, near: &Progress) -> Progress
    requires { ReadsAt w.now t }
    ensures { AreReached w.now t result }
{
    Progress {
        arrived: ended(&w.arrivals, t, near.arrived),
        worked: ended(&w.works, t, near.worked),
    }
}

/// Whether all that arrived before t is worked.
fn is_caught_up(w: &Watched, t: Frac, at: &Progress) -> bool
    requires reads { ReadsAt w.now t }
    requires at { AreReached w.now t at.now }
    ensures { result ≡ is_caught_up w.now t }
{
    is_at_most(
        amount_past(&w.arrivals, t, at.arrived),
        amount_past(&w.works, t, at.worked),
    )
}

/// The times at which a packet leaves and all that arrived before is worked.
pub(crate) fn stops_of(alloc: Global, w: &Watched) -> Result<Vec<Frac>, AllocError>
    requires { EachTime (ReadsAt w.now) w.now.leaves.items }
    ensures { IfOk result (λ v. v.items ≡ stops w.now) }
{
    let mut found = Vec::new(alloc);
    let mut at = Progress {
        arrived: 0,
        worked: 0,
    };
    for t in &w.leaves {
        at = reached(w, *t, &at);
        if is_caught_up(w, *t, &at) {
            found.push(*t)?;
        }
    }
    Ok(found)
}

fn is_by(t: &Frac, u: Frac) -> bool
    ensures { result ≡ le_q t.now u }
{
    is_at_most(*t, u)
}

/// The first of some times that is after u, or the end.
fn stop_after(stops: &[Frac], u: Frac, end: Frac) -> Frac
    requires { (from : ℚ) × RiseFrom from stops.now }
    ensures { result ≡ next_after u end stops.now }
{
    let past = stops.partition_point(|t| is_by(t, u));
    if past < stops.len() {
        return stops[past];
    }
    end
}

/// Those of some times that are in a stretch, by binary search.
pub(crate) fn turns_in<'a>(sorted: &'a [Frac], s: &Stretch) -> &'a [Frac]
    requires { (from : ℚ) × RiseFrom from sorted.now }
    ensures holds { HoldsTimes s.now sorted.now result.now }
    ensures rise { (from : ℚ) × RiseFrom from result.now }
{
    let start = s.start;
    let end = s.end;
    let from = sorted.partition_point(|t| is_under(t, start));
    let rest = &sorted[from..];
    let count = rest.partition_point(|t| is_by(t, end));
    &rest[..count]
}

/// The stretch that begins with a packet, if one does.
fn stretch_from(w: &Watched, stops: &[Frac], r: &Ramp, at: &Progress) -> Option<Stretch>
    requires reads { ReadsAt w.now r.now.span.start }
    requires at { AreReached w.now r.now.span.start at.now }
    requires rise { (from : ℚ) × RiseFrom from stops.now }
    ensures { result ≡ stretch_from w.now stops.now r.now }
{
    let start = r.span.start;
    if is_less(start, w.end) && is_at_most(r.before, amount_past(&w.works, start, at.worked)) {
        Some(Stretch {
            start,
            end: stop_after(stops, start, w.end),
        })
    } else {
        None
    }
}

/// The stretches, in their order.
pub(crate) fn stretches_of(
    alloc: Global,
    w: &Watched,
    stops: &[Frac],
) -> Result<Vec<Stretch>, AllocError>
    requires reads { EachRamp (λ r. ReadsAt w.now r.span.start) w.now.arrivals.items }
    requires rise { (from : ℚ) × RiseFrom from stops.now }
    ensures { IfOk result (λ v. v.items ≡ stretches_in w.now stops.now w.now.arrivals.items) }
{
    let mut found = Vec::new(alloc);
    let mut at = Progress {
        arrived: 0,
        worked: 0,
    };
    for r in &w.arrivals {
        at = reached(w, r.span.start, &at);
        if let Some(stretch) = stretch_from(w, stops, r, &at) {
            found.push(stretch)?;
        }
    }
    Ok(found)
}

/// One time more, where the pace changes there; `past` works end before it.
fn push_change(turns: &mut Vec<Frac>, w: &Watched, t: Frac, past: usize) -> Result<(), AllocError>
    requires ramps { AreRamps w.now.works.items }
    requires time { TakeTime (spans_of w.now.works.items) }
    requires ended { EndsBefore t w.now.works.items past }
    ensures { OnOk result (turns.new.items ≡ turns.old.items ++ change_at w.now t) }
{
    let later = ended_by(&w.works, t, past);
    if pace_before(&w.works, t, past) != pace_after(&w.works, t, later) {
        turns.push(t)?;
    }
    Ok(())
}

/// The ends of the stretches and the times at which the pace changes.
pub(crate) fn turns_of(
    alloc: Global,
    w: &Watched,
    stretches: &[Stretch],
) -> Result<Vec<Frac>, AllocError>
    requires ramps { AreRamps w.now.works.items }
    requires time { TakeTime (spans_of w.now.works.items) }
    ensures { IfOk result (λ v. v.items ≡ turns w.now stretches.now) }
{
    let mut turns = Vec::new(alloc);
    for s in stretches {
        turns.push(s.start)?;
        turns.push(s.end)?;
    }
    let mut past = 0;
    for r in &w.works {
        past = ended(&w.works, r.span.start, past);
        push_change(&mut turns, w, r.span.start, past)?;
        past = ended(&w.works, r.span.end, past);
        push_change(&mut turns, w, r.span.end, past)?;
    }
    Ok(turns)
}
