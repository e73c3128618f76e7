//! Spans one after another, with the bits that they have up to a time.

ghost use Rattle.std.specs.Prelude.{◌≡◌, ◌<◌, ◌≤◌, pos, length, IfOk, IsTrue};
ghost use Rattle.rational.specs.Rational.{int, ◌≤ℚ◌, ◌<ℚ◌, lt_q, le_q};
ghost use Rattle.run_watch.specs.Ramps.{amount, rate_before, rate_after, pace_in, TakeTime, ramps_after, AreRamps, spans_of, part, all_done, paced_before, paced_after, PaceFits, RampsFit, PartFits, ReadsRamp, EachRamp, EndBefore, EndsBefore, EndsBy};

use crate::span::{Ramp, Span};
use flow_watch::step_lines::is_at_most;
use fraction128::{Frac, difference, is_less, product, quotient, sum};
use std::alloc::{AllocError, Global};

/// The pace of a span.
fn pace_of(s: &Span) -> Frac
    requires { s.now.start <ℚ s.now.end → PaceFits s.now }
    ensures { result ≡ pace_in s.now }
{
    if is_less(s.start, s.end) {
        quotient(s.bits, difference(s.end, s.start))
    } else {
        Frac::zero()
    }
}

/// The ramps of spans.
pub(crate) fn ramps_of(alloc: Global, spans: &[Span]) -> Result<Vec<Ramp>, AllocError>
    requires { RampsFit (int (pos 0)) spans.now }
    ensures { IfOk result (λ v. v.items ≡ ramps_after (int (pos 0)) spans.now) }
{
    let mut ramps = Vec::new(alloc);
    let mut done = Frac::zero();
    for s in spans {
        let after = sum(done, s.bits);
        ramps.push(Ramp {
            span: *s,
            before: done,
            after,
            pace: pace_of(s),
        })?;
        done = after;
    }
    Ok(ramps)
}

fn ends_before(r: &Ramp, t: Frac) -> bool
    ensures { result ≡ lt_q r.now.span.end t }
{
    is_less(r.span.end, t)
}

fn ends_by(r: &Ramp, t: Frac) -> bool
    ensures { result ≡ le_q r.now.span.end t }
{
    is_at_most(r.span.end, t)
}

/// The bits of the ramps before one, and of its own those up to t.
fn partly(r: &Ramp, t: Frac) -> Frac
    requires { r.now.span.start <ℚ t → PartFits t r.now }
    ensures { result ≡ part r.now t }
{
    if is_less(r.span.start, t) {
        sum(r.before, product(r.pace, difference(t, r.span.start)))
    } else {
        r.before
    }
}

/// The bits of all.
fn all_done(ramps: &[Ramp]) -> Frac
    ensures { result ≡ all_done ramps.now }
{
    let count = ramps.len();
    if count == 0 {
        return Frac::zero();
    }
    ramps[count - 1].after
}

/// Whether the first of the ramps, so many, end before t.
fn are_ended(ramps: &[Ramp], t: Frac, count: usize) -> bool
    requires ramps { AreRamps ramps.now }
    requires few { count ≤ length ramps.now }
    ensures { IsTrue result → EndBefore t ramps.now count }
{
    if count == 0 {
        return true;
    }
    ends_before(&ramps[count - 1], t)
}

/// Whether so many of the ramps end before t.
fn is_ended(ramps: &[Ramp], t: Frac, count: usize) -> bool
    requires { AreRamps ramps.now }
    ensures { IsTrue result → EndsBefore t ramps.now count }
{
    if count > ramps.len() {
        return false;
    }
    if !are_ended(ramps, t, count) {
        return false;
    }
    if count == ramps.len() {
        return true;
    }
    if ends_before(&ramps[count], t) {
        false
    } else {
        true
    }
}

/// How many of the ramps end before t, by binary search.
fn found_ended(ramps: &[Ramp], t: Frac) -> usize
    requires { AreRamps ramps.now }
    ensures { EndsBefore t ramps.now result }
{
    ramps.partition_point(|r| ends_before(r, t))
}

/// How many of the ramps end before t: `near` or one more, where that is right, else by binary search.
pub(crate) fn ended(ramps: &[Ramp], t: Frac, near: usize) -> usize
    requires { AreRamps ramps.now }
    ensures { EndsBefore t ramps.now result }
{
    if is_ended(ramps, t, near) {
        return near;
    }
    if near < ramps.len() {
        let next = near + 1;
        if is_ended(ramps, t, next) {
            return next;
        }
    }
    found_ended(ramps, t)
}

/// How many of the ramps end at t or before, where `past` end before t.
pub(crate) fn ended_by(ramps: &[Ramp], t: Frac, past: usize) -> usize
    requires ramps { AreRamps ramps.now }
    requires time { TakeTime (spans_of ramps.now) }
    requires ended { EndsBefore t ramps.now past }
    ensures { EndsBy t ramps.now result }
{
    if past >= ramps.len() {
        return past;
    }
    if ends_by(&ramps[past], t) {
        past + 1
    } else {
        past
    }
}

/// The bits up to t, where `past` ramps end before t.
pub(crate) fn amount_past(ramps: &[Ramp], t: Frac, past: usize) -> Frac
    requires ramps { AreRamps ramps.now }
    requires fits { EachRamp (ReadsRamp t) ramps.now }
    requires ended { EndsBefore t ramps.now past }
    ensures { result ≡ amount (spans_of ramps.now) t }
{
    if past < ramps.len() {
        return partly(&ramps[past], t);
    }
    all_done(ramps)
}

/// The bits up to t, by binary search.
pub(crate) fn amount_at(ramps: &[Ramp], t: Frac) -> Frac
    requires ramps { AreRamps ramps.now }
    requires fits { EachRamp (ReadsRamp t) ramps.now }
    ensures { result ≡ amount (spans_of ramps.now) t }
{
    amount_past(ramps, t, found_ended(ramps, t))
}

/// The pace just before t of a ramp that ends at t or later.
fn paced_before(r: &Ramp, t: Frac) -> Frac
    ensures { result ≡ paced_before r.now t }
{
    if is_less(r.span.start, t) {
        r.pace
    } else {
        Frac::zero()
    }
}

/// The pace just before t, where `past` ramps end before t.
pub(crate) fn pace_before(ramps: &[Ramp], t: Frac, past: usize) -> Frac
    requires ramps { AreRamps ramps.now }
    requires time { TakeTime (spans_of ramps.now) }
    requires ended { EndsBefore t ramps.now past }
    ensures { result ≡ rate_before (spans_of ramps.now) t }
{
    if past < ramps.len() {
        return paced_before(&ramps[past], t);
    }
    Frac::zero()
}

/// The pace just after t of a ramp that ends later.
fn paced_after(r: &Ramp, t: Frac) -> Frac
    ensures { result ≡ paced_after r.now t }
{
    if is_at_most(r.span.start, t) {
        r.pace
    } else {
        Frac::zero()
    }
}

/// The pace just after t, where `past` ramps end at t or before.
pub(crate) fn pace_after(ramps: &[Ramp], t: Frac, past: usize) -> Frac
    requires ramps { AreRamps ramps.now }
    requires time { TakeTime (spans_of ramps.now) }
    requires ended { EndsBy t ramps.now past }
    ensures { result ≡ rate_after (spans_of ramps.now) t }
{
    if past < ramps.len() {
        return paced_after(&ramps[past], t);
    }
    Frac::zero()
}
