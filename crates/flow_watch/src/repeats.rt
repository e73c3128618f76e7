//! How many packets keep a curve that repeats, by its pieces one by one: a flat piece that repeats lets in as many bits as it has in each
//! window that is shorter than its end, and the rise of a period more for each period that the window is longer.

ghost use Rattle.std.specs.Prelude.{ℕ, ◌<◌, pos, length, drop, IfSome};
ghost use Rattle.rational.specs.Rational.{int, ◌<ℚ◌};
ghost use Rattle.upp_curve.specs.Curve.{value_at};
ghost use Rattle.flow_watch.specs.Flows.{FlowReads, NoneCrowded, TimesRiseIn};
ghost use Rattle.flow_watch.specs.Repeats.{IsCover, IsLineTo, HasAtLeast, KeepsSteps, HoldsPiece, HoldsAt};

use crate::ends::{Cycle, cycle_of, next_start};
use crate::flows::{bucket_of, fewer, piece_upto};
use crate::step_lines::seen_upto;
use crate::watch_laws::Entering;
use fraction128::{Frac, is_less};
use std::alloc::Global;
use upp_curve::Curve;
use upp_curve::affine_segment::Piece;

/// Steps that hold a value, and what they hold more.
#[derive(Clone, Copy)]
struct Cover {
    count: Frac,
    spare: Frac,
}

/// A line.
#[derive(Clone, Copy)]
struct Climb {
    slack: Frac,
    rate: Frac,
}

/// The steps of a height that hold a value, and at most one more, if their numbers fit.
fn cover_of(height: Frac, value: Frac) -> Option<Cover>
    requires { int (pos 0) <ℚ height }
    ensures { IfSome result (IsCover height value) }
{
    let Ok(ratio) = Frac::div(value, height) else {
        return None;
    };
    let Ok(count) = Frac::add(ratio.whole_part(), Frac::one()) else {
        return None;
    };
    let Ok(all) = Frac::mul(count, height) else {
        return None;
    };
    let Ok(spare) = Frac::sub(all, value) else {
        return None;
    };
    if is_less(spare, Frac::zero()) {
        return None;
    }
    Some(Cover { count, spare })
}

/// The line that rises by one in each period and has so many at `end`, if it begins at 0 or above and its numbers fit.
fn climb_to(count: Frac, end: Frac, period: Frac) -> Option<Climb>
    requires { int (pos 0) <ℚ period }
    ensures { IfSome result (IsLineTo count end period) }
{
    let Ok(rate) = Frac::div(Frac::one(), period) else {
        return None;
    };
    if !is_less(Frac::zero(), rate) {
        return None;
    }
    let Ok(risen) = Frac::mul(rate, end) else {
        return None;
    };
    let Ok(slack) = Frac::sub(count, risen) else {
        return None;
    };
    if is_less(slack, Frac::zero()) {
        return None;
    }
    Some(Climb { slack, rate })
}

/// How many of the first packets are seen to bring at most a value in each window that is shorter than `end`, and a rise more for each
/// period that it is longer, if that is looked at: in n log n steps for n packets.
fn steps_upto(
    alloc: Global,
    entries: &[Entering],
    value: Frac,
    end: Frac,
    period: Frac,
    rise: Frac,
) -> Option<usize>
    ensures { IfSome result (KeepsSteps value end period rise entries.now) }
{
    if !is_less(Frac::zero(), rise) {
        return None;
    }
    if !is_less(Frac::zero(), period) {
        return None;
    }
    let Some(cover) = cover_of(rise, value) else {
        return None;
    };
    let Some(climb) = climb_to(cover.count, end, period) else {
        return None;
    };
    seen_upto(alloc, entries, rise, cover.spare, climb.slack, climb.rate)
}

/// What a piece has wherever it is read, if it is flat.
fn flat_value(piece: &Piece) -> Option<Frac>
    ensures { IfSome result (HasAtLeast piece.now) }
{
    let Some(bucket) = bucket_of(piece) else {
        return None;
    };
    if bucket.rate == Frac::zero() {
        return Some(bucket.burst);
    }
    None
}

/// How many are seen to keep a piece that ends at `end`, and what repeats of it.
fn cycled_upto(
    alloc: Global,
    entries: &[Entering],
    cycle: &Cycle,
    piece: &Piece,
    end: Frac,
) -> Option<usize>
    requires { TimesRiseIn entries.now }
    ensures { IfSome result (HoldsPiece cycle.now.rank cycle.now.period cycle.now.rise entries.now piece.now end) }
{
    if !is_less(cycle.rank, end) {
        return Some(piece_upto(entries, piece, Some(end)));
    }
    let Some(value) = flat_value(piece) else {
        return None;
    };
    steps_upto(alloc, entries, value, end, cycle.period, cycle.rise)
}

/// How many are seen to keep all pieces so; the last one ends at `end`.
fn cycle_upto(
    alloc: Global,
    entries: &[Entering],
    cycle: &Cycle,
    end: Frac,
    pieces: &[Piece],
) -> Option<usize>
    requires { TimesRiseIn entries.now }
    ensures { IfSome result (λ n. (i : ℕ) → i < length pieces.now
        → HoldsAt cycle.now.rank cycle.now.period cycle.now.rise entries.now end n (drop i pieces.now)) }
{
    let mut least = entries.len();
    for i in 0..pieces.len() {
        let until = next_start(pieces, i + 1).unwrap_or(end);
        let Some(count) = cycled_upto(alloc, entries, cycle, &pieces[i], until) else {
            return None;
        };
        least = fewer(least, count);
    }
    Some(least)
}

/// How many of the first packets are seen to keep a curve that repeats, if that is looked at: where all pieces that repeat are flat, in
/// n log n steps for each piece and n packets. The next packet may keep it all the same.
pub(crate) fn repeated_upto(alloc: Global, entries: &[Entering], arrival: &Curve) -> Option<usize>
    requires { FlowReads arrival.now entries.now }
    ensures { IfSome result (NoneCrowded (value_at arrival.now) entries.now) }
{
    let Some(cycle) = cycle_of(arrival) else {
        return None;
    };
    cycle_upto(alloc, entries, &cycle, cycle.end, arrival.pieces())
}
