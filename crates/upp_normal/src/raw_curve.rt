//! The normal form of any curve.

ghost use Rattle.std.specs.Prelude.{◌≡◌, ◌<◌, ◌≤◌, ◌^◌, IfOk, IfErr, Err};
ghost use Rattle.upp_curve.specs.affine_segment.Reading.{read};
ghost use Rattle.upp_curve.specs.Curve.{repeated, value_at, HasSameValues};
ghost use Rattle.upp_curve.specs.affine_segment.Pieces.{StartsAtZero};
ghost use Rattle.upp_curve.specs.Normal.{NoMerge, FitsPeriod, IsRaw};
ghost use Rattle.upp_curve.specs.Readable.{EachFits};
ghost use Rattle.upp_limits.specs.Limits.{own_gauge, own_tally};
ghost use Rattle.upp_normal.specs.Normalising.{HasValues, IsTwoPeriods, IsTurning, AreGrids, OnGrids, OnGridsUnlessLine, TailOnGrids, cycle_values, raw_curve};
ghost use Rattle.upp_normal.specs.Room.{Room, PiecesHaveRoom, TwoHaveRoom, CycleHasRoom, TurnHasRoom, TailHasRoom};

use crate::cycle::{Cycle, Shape, shape_of};
use crate::least_period::least_period;
use crate::lowest_rank::lowest_rank;
use crate::merging::merged;
use crate::two_periods::{ended, two_periods};
use fraction128::Frac;
use std::alloc::AllocError;
use upp_curve::affine_segment::Piece;
use upp_curve::{Curve, Tail};
use upp_limits::{OpFault, own_within};

/// A curve in any form: its first piece starts at 0, starts rise, and the rank is 0 or more. Of a periodic tail the
/// period is above 0 and all starts are below rank + period; of any other tail all starts are at most the rank.
#[derive(Drop)]
pub struct RawCurve {
    /// The pieces in the order of their starts.
    pub pieces: Vec<Piece>,
    /// What follows them.
    pub tail: Tail,
}

// Pieces that go on with their last line.
fn unending(pieces: Vec<Piece>) -> Curve
    requires starts { StartsAtZero pieces.items }
    requires none { NoMerge pieces.items }
    requires fits { EachFits None pieces.items }
    ensures { HasValues result (read pieces.items) }
{
    let last = pieces[pieces.len() - 1];
    let tail = match last.line {
        None => Tail::Infinite { rank: last.x },
        Some(_) => Tail::Affine { rank: last.x },
    };
    Curve::from_normal(pieces, tail)
}

// The curve of pieces that go on with their last line.
fn of_pieces(pieces: Vec<Piece>) -> Curve
    requires starts { StartsAtZero pieces.items }
    requires room { (m : Room) × PiecesHaveRoom m 4 pieces.items }
    ensures { HasValues result (read pieces.items) }
{
    unending(merged(pieces))
}

// A period between breaks, made the least, from the least rank on.
fn repeating(cycle: Cycle, times: u128, values: u128) -> Curve
    requires turning { IsTurning cycle (cycle_values cycle) }
    requires numbers { AreGrids times values }
    requires grids { OnGrids times values (cycle_values cycle) cycle.rank cycle.period cycle.rise }
    requires room { (m : Room) × CycleHasRoom m times values cycle.pieces.items cycle.rank cycle.period cycle.rise }
    ensures { HasValues result (cycle_values cycle) }
{
    let found = lowest_rank(least_period(cycle, times, values));
    let tail = Tail::Periodic {
        rank: found.rank,
        period: found.period,
        rise: found.rise,
    };
    Curve::from_normal(found.pieces, tail)
}

// The periodic curve whose pieces are given below rank + 2 period.
fn of_two_periods(
    pieces: Vec<Piece>,
    rank: Frac,
    period: Frac,
    rise: Frac,
    times: u128,
    values: u128,
) -> Curve
    requires two { IsTwoPeriods pieces.items rank period rise }
    requires numbers { AreGrids times values }
    requires grids { OnGridsUnlessLine times values (repeated (read pieces.items) rank period rise) rank period rise }
    requires room { (m : Room) × TwoHaveRoom m times values pieces.items rank period rise }
    ensures { HasValues result (repeated (read pieces.items) rank period rise) }
{
    match shape_of(pieces, rank, period, rise) {
        Shape::Straight(kept) => unending(kept),
        Shape::Turns(cycle) => repeating(cycle, times, values),
    }
}

// The periodic curve of pieces in any form.
fn of_periodic(
    given: Vec<Piece>,
    rank: Frac,
    period: Frac,
    rise: Frac,
    times: u128,
    values: u128,
) -> Result<Curve, AllocError>
    requires starts { StartsAtZero given.items }
    requires tail { FitsPeriod given.items rank period }
    requires numbers { AreGrids times values }
    requires grids { OnGridsUnlessLine times values (repeated (read given.items) rank period rise) rank period rise }
    requires room { (m : Room) × TurnHasRoom m times values given.items rank period rise }
    ensures { IfOk result (λ r. HasValues r (repeated (read given.items) rank period rise)) }
{
    let longer = two_periods(given, rank, period, rise)?;
    let pieces = merged(longer);
    Ok(of_two_periods(pieces, rank, period, rise, times, values))
}

/// The normal form of a curve each of whose periods, unless its tail is one line, is a whole multiple of 1 / times, and
/// its rise of 1 / values.
pub fn normalise_on(raw: RawCurve, times: u128, values: u128) -> Result<Curve, AllocError>
    requires raw { IsRaw (raw_curve raw) }
    requires some_times { 0 < times }
    requires some_values { 0 < values }
    requires times { times < 2 ^ 127 }
    requires values { values < 2 ^ 127 }
    requires grids { TailOnGrids times values raw.tail (value_at (raw_curve raw)) }
    requires room { TailHasRoom times values raw.pieces.items raw.tail }
    ensures { IfOk result (λ r. HasSameValues r (raw_curve raw)) }
{
    let tail = raw.tail;
    let pieces = raw.pieces;
    match tail {
        Tail::Affine { rank: _ } => Ok(of_pieces(pieces)),
        Tail::Infinite { rank } => {
            let kept = ended(pieces, rank)?;
            Ok(of_pieces(kept))
        }
        Tail::Periodic { rank, period, rise } => {
            of_periodic(pieces, rank, period, rise, times, values)
        }
    }
}

/// The normal form of a curve in any form: the one curve that has its values. Refused with TooWide exactly where the
/// curve's gauge, by itself as it is given, is 2^120 or more, and with TooMany exactly where that is not so and its
/// tally is above 2^20.
pub fn normalise(raw: RawCurve) -> Result<Curve, OpFault>
    requires { IsRaw (raw_curve raw) }
    ensures kept { IfOk result (λ c. HasSameValues c (raw_curve raw)) }
    ensures wide { 2 ^ 120 ≤ own_gauge (raw_curve raw) → result ≡ Err OpFault.TooWide }
    ensures many { own_gauge (raw_curve raw) < 2 ^ 120 → 2 ^ 20 < own_tally (raw_curve raw)
        → result ≡ Err OpFault.TooMany }
    ensures inside { own_gauge (raw_curve raw) < 2 ^ 120 → own_tally (raw_curve raw) ≤ 2 ^ 20
        → IfErr result (λ e. e ≡ OpFault.NoMemory) }
{
    let own = own_within(&raw.pieces, &raw.tail)?;
    Ok(normalise_on(raw, own.times, own.values)?)
}
