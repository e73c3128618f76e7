//! The pieces of a curve that start before a time, its periods written out.

ghost use Rattle.std.specs.Prelude.{◌≡◌, ◌<◌, ◌≤◌, ◌^◌, ◌++◌, [], length, pos, OnOk, IfOk, IfErr, Err};
ghost use Rattle.rational.specs.Rational.{ℚ, int, ◌*ℚ◌, ◌≤ℚ◌, ◌<ℚ◌};
ghost use Rattle.upp_curve.specs.declared.curve.Tail.TheVariants.{Periodic};
ghost use Rattle.upp_curve.specs.affine_segment.Reading.{read};
ghost use Rattle.upp_curve.specs.Curve.{value_at};
ghost use Rattle.upp_curve.specs.affine_segment.Pieces.{StartsAtZero};
ghost use Rattle.upp_curve.specs.Normal.{FitsPeriod};
ghost use Rattle.upp_curve.specs.Unrolled.{each_later, from, unroll, unrolled, upto};
ghost use Rattle.upp_limits.specs.Gauges.{gauge_over, tally_over};
ghost use Rattle.upp_normal.specs.Unrolling.{IsOperandTo, TurnFits, TurnsFit};

use crate::least_period::turn_of;
use crate::two_periods::{count_before, with_room};
use fraction128::{Frac, difference, is_less, product};
use std::alloc::{AllocError, Global};
use upp_curve::affine_segment::Piece;
use upp_curve::fitting::later;
use upp_curve::{Curve, Tail};
use upp_limits::{OpFault, OpKind, gauge, start_counts, tally, within_limits};

// The pieces that start before x, of pieces whose starts rise.
fn before(pieces: &[Piece], x: Frac) -> &[Piece]
    ensures { result.now ≡ upto x pieces.now }
{
    &pieces[..count_before(pieces, x)]
}

// The pieces that start at x or later, of pieces whose starts rise.
fn from_start(pieces: &[Piece], x: Frac) -> &[Piece]
    ensures { result.now ≡ from x pieces.now }
{
    turn_of(pieces, count_before(pieces, x))
}

// The n-th copies of a period's pieces that start before `end`, after those kept.
fn push_copies(
    kept: &mut Vec<Piece>,
    turn: &[Piece],
    n: u128,
    period: Frac,
    rise: Frac,
    end: Frac,
) -> Result<(), AllocError>
    requires { TurnFits n period rise end turn.now }
    ensures { OnOk result (kept.new.items ≡ kept.old.items
        ++ upto end (each_later (int (pos n) *ℚ period) (int (pos n) *ℚ rise) turn.now)) }
{
    let times = Frac::from_whole(n as i128);
    let by = product(times, period);
    let height = product(times, rise);
    let left = difference(end, by);
    for p in turn {
        if !is_less(p.x, left) {
            break;
        }
        kept.push(later(by, height, p))?;
    }
    Ok(())
}

// The pieces below `end` of a curve that repeats from the rank on.
fn with_copies(
    alloc: Global,
    pieces: &[Piece],
    rank: Frac,
    period: Frac,
    rise: Frac,
    end: Frac,
) -> Result<Vec<Piece>, AllocError>
    requires starts { StartsAtZero pieces.now }
    requires tail { FitsPeriod pieces.now rank period }
    requires fits { TurnsFit pieces.now rank period rise end }
    ensures { IfOk result (λ v. v.items ≡ unrolled pieces.now (Periodic rank period rise) end) }
{
    let turn = from_start(pieces, rank);
    let copies = start_counts::count_before(rank, period, end);
    let room = turn
        .len()
        .saturating_mul(copies.min(u64::MAX as u128) as usize);
    let mut kept = with_room(alloc, before(before(pieces, rank), end), room)?;
    for n in 0..copies {
        push_copies(&mut kept, turn, n, period, rise, end)?;
    }
    Ok(kept)
}

/// The pieces that start before `end`, in the order of their starts, with the periods of a periodic tail written
/// out: each copy is made from its piece by one move. It needs numbers of a gauge below 2^120 for a window that
/// ends there.
pub fn unrolled(c: &Curve, end: Frac) -> Result<Vec<Piece>, AllocError>
    requires { IsOperandTo end c.now }
    ensures { IfOk result (λ v. v.items ≡ unroll c.now end) }
{
    let alloc = c.allocator();
    match *c.tail() {
        Tail::Periodic { rank, period, rise } => {
            with_copies(alloc, c.pieces(), rank, period, rise, end)
        }
        _ => Vec::from_slice(alloc, before(c.pieces(), end)),
    }
}

/// The pieces that start before h, its periods written out; none where h is 0 or less. From 0 on and before h they
/// have the curve's values. They are as many as the tally of the curve by itself counts below h. Refused with
/// TooWide exactly where the gauge of the curve for a window that ends at h is 2^120 or more, and with TooMany
/// exactly where that is not so and more than 2^20 pieces start before h.
pub fn pieces_to(c: &Curve, h: Frac) -> Result<Vec<Piece>, OpFault>
    ensures pieces { IfOk result (λ v. v.items ≡ unroll c.now h) }
    ensures reads { IfOk result (λ v. (t : ℚ) → int (pos 0) ≤ℚ t → t <ℚ h → read v.items t ≡ value_at c.now t) }
    ensures number { IfOk result (λ v. length v.items ≡ tally_over OpKind.Itself c.now c.now h) }
    ensures none { h ≤ℚ int (pos 0) → IfOk result (λ v. v.items ≡ []) }
    ensures wide { 2 ^ 120 ≤ gauge_over OpKind.Itself c.now c.now h → result ≡ Err OpFault.TooWide }
    ensures many { gauge_over OpKind.Itself c.now c.now h < 2 ^ 120
        → 2 ^ 20 < tally_over OpKind.Itself c.now c.now h
        → result ≡ Err OpFault.TooMany }
    ensures inside { gauge_over OpKind.Itself c.now c.now h < 2 ^ 120
        → tally_over OpKind.Itself c.now c.now h ≤ 2 ^ 20
        → IfErr result (λ e. e ≡ OpFault.NoMemory) }
{
    let Some(size) = gauge(OpKind::Itself, c, c, Some(h)) else {
        return Err(OpFault::TooWide);
    };
    within_limits(size, tally(OpKind::Itself, c, c, Some(h)))?;
    let alloc = c.allocator();
    if is_less(h, Frac::zero()) {
        return Ok(Vec::new(alloc));
    }
    Ok(unrolled(c, h)?)
}
