//! How many packets keep a stair, by the steps that their bits fill against a line under the stair.

ghost use Rattle.std.specs.Prelude.{◌≡◌, ℕ, ◌<◌, pos, length, drop, IfOk, IfSome, IsTrue};
ghost use Rattle.rational.specs.Rational.{int, ◌+ℚ◌, ◌*ℚ◌, ◌≤ℚ◌, ◌<ℚ◌};
ghost use Rattle.upp_curve.specs.Curve.{value_at};
ghost use Rattle.flow_watch.specs.Flows.{FlowReads, NoneCrowded};
ghost use Rattle.flow_watch.specs.Stairs.{IsCount, HasSteps, IsStep, IsStepAt, IsStair, RisesWith};

use crate::ends::{cycle_of, next_start};
use crate::flows::bucket_of;
use crate::step_lines::{is_at_most, seen_upto};
use crate::watch_laws::Entering;
use fraction128::{Frac, Wide, is_less, lesser};
use std::alloc::Global;
use upp_curve::Curve;
use upp_curve::affine_segment::Piece;

/// Steps of a height, and a line: how many of them it has, in steps.
#[derive(Clone, Copy)]
struct Stair {
    height: Frac,
    slack: Frac,
    rate: Frac,
}

/// How many steps of a height fit under a value, if that is seen.
fn count_under(height: Frac, value: Frac) -> Option<Frac>
    requires { int (pos 0) <ℚ height }
    ensures { IfSome result (IsCount height value) }
{
    let Ok(ratio) = Frac::div(value, height) else {
        return None;
    };
    let count = ratio.whole_part();
    let Ok(all) = Frac::mul(count, height) else {
        return None;
    };
    if is_less(value, all) {
        return None;
    }
    Some(count)
}

/// How many steps a piece has wherever it is read, if it is flat and that is seen.
fn steps_of(height: Frac, piece: &Piece) -> Option<Frac>
    requires { int (pos 0) <ℚ height }
    ensures { IfSome result (HasSteps height piece.now) }
{
    let Some(bucket) = bucket_of(piece) else {
        return None;
    };
    if bucket.rate == Frac::zero() {
        return count_under(height, bucket.burst);
    }
    None
}

/// The line at d, if its steps fit.
fn line_at(stair: &Stair, d: Frac) -> Result<Frac, Wide>
    ensures { IfOk result (λ v. v ≡ stair.now.slack +ℚ stair.now.rate *ℚ d) }
{
    let risen = Frac::mul(stair.rate, d)?;
    Frac::add(stair.slack, risen)
}

/// Whether the line is seen to have at most `count` steps by the end of a piece.
fn is_line_up_to(stair: &Stair, count: Frac, end: Frac) -> bool
    ensures { IsTrue result → stair.now.slack +ℚ stair.now.rate *ℚ end ≤ℚ count }
{
    match line_at(stair, end) {
        Ok(value) => is_at_most(value, count),
        Err(_) => false,
    }
}

/// Whether a piece that ends at `end` is seen to have a step for each of the line, and one more.
fn is_step(stair: &Stair, piece: &Piece, end: Frac) -> bool
    requires { int (pos 0) <ℚ stair.now.height }
    ensures { IsTrue result → IsStep stair.now.height stair.now.slack stair.now.rate piece.now end }
{
    match steps_of(stair.height, piece) {
        Some(count) => is_line_up_to(stair, count, end),
        None => false,
    }
}

/// Whether all pieces are; the last one ends at `end`.
fn are_steps(stair: &Stair, end: Frac, pieces: &[Piece]) -> bool
    requires { int (pos 0) <ℚ stair.now.height }
    ensures { IsTrue result → (i : ℕ) → i < length pieces.now
        → IsStepAt stair.now.height stair.now.slack stair.now.rate end (drop i pieces.now) }
{
    for i in 0..pieces.len() {
        if !is_step(stair, &pieces[i], next_start(pieces, i + 1).unwrap_or(end)) {
            return false;
        }
    }
    true
}

/// How much slack a line may have to be at most the steps of a piece by its end, if that is seen.
fn room_under(height: Frac, rate: Frac, piece: &Piece, end: Frac) -> Option<Frac>
    requires { int (pos 0) <ℚ height }
{
    let count = steps_of(height, piece)?;
    let risen = Frac::mul(rate, end).ok()?;
    Frac::sub(count, risen).ok()
}

/// The lesser of a number and of one that may be missing.
fn lesser_of(least: Option<Frac>, room: Frac) -> Frac {
    match least {
        Some(least) => lesser(least, room),
        None => room,
    }
}

/// The most slack of a line under all pieces, if that is seen.
fn slack_under(height: Frac, rate: Frac, end: Frac, pieces: &[Piece]) -> Option<Frac>
    requires { int (pos 0) <ℚ height }
{
    let mut least = None;
    for i in 0..pieces.len() {
        let room = room_under(
            height,
            rate,
            &pieces[i],
            next_start(pieces, i + 1).unwrap_or(end),
        )?;
        least = Some(lesser_of(least, room));
    }
    least
}

/// The highest line under pieces that repeat, with a step more in each period, if one is found: it is tried whether it is under them.
fn stair_of(pieces: &[Piece], end: Frac, period: Frac, rise: Frac) -> Option<Stair>
    ensures { IfSome result (λ s. RisesWith s.height s.rate period rise) }
{
    if !is_less(Frac::zero(), rise) {
        return None;
    }
    if !is_less(Frac::zero(), period) {
        return None;
    }
    let Ok(rate) = Frac::div(Frac::one(), period) else {
        return None;
    };
    let Some(slack) = slack_under(rise, rate, end, pieces) else {
        return None;
    };
    Some(Stair {
        height: rise,
        slack,
        rate,
    })
}

/// Whether all pieces have the stair's steps, whose numbers make sense.
fn is_stair(stair: &Stair, end: Frac, pieces: &[Piece]) -> bool
    ensures { IsTrue result → IsStair stair.now.height stair.now.slack stair.now.rate end pieces.now }
{
    if !is_less(Frac::zero(), stair.height) {
        return false;
    }
    if !is_less(Frac::zero(), stair.rate) {
        return false;
    }
    if is_less(stair.slack, Frac::zero()) {
        return false;
    }
    are_steps(stair, end, pieces)
}

/// How many of the first packets are seen to keep a stair, if that is looked at: where a curve rises by one step in each period, in
/// n log n steps for n packets, and no period is written out. The next packet may keep it all the same.
pub(crate) fn kept_upto(alloc: Global, entries: &[Entering], arrival: &Curve) -> Option<usize>
    requires { FlowReads arrival.now entries.now }
    ensures { IfSome result (NoneCrowded (value_at arrival.now) entries.now) }
{
    let Some(cycle) = cycle_of(arrival) else {
        return None;
    };
    let pieces = arrival.pieces();
    let Some(stair) = stair_of(pieces, cycle.end, cycle.period, cycle.rise) else {
        return None;
    };
    if !is_stair(&stair, cycle.end, pieces) {
        return None;
    }
    let spare = Frac::zero();
    seen_upto(alloc, entries, stair.height, spare, stair.slack, stair.rate)
}
