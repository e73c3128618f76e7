//! Where a periodic curve's tail has its breaks.

ghost use Rattle.rational.specs.Rational.{◌+ℚ◌, ◌≤ℚ◌};
ghost use Rattle.rational.specs.Ratio.{SumFits};
ghost use Rattle.upp_curve.specs.affine_segment.Pieces.{Each};
ghost use Rattle.upp_normal.specs.Normalising.{IsTwoPeriods, IsShape};

use crate::two_periods::{count_before, first_past};
use fraction128::{Frac, sum};
use std::cmp::Ordering;
use upp_curve::affine_segment::Piece;

/// A periodic curve none of whose pieces goes on with the one before it: `first` pieces start before the rank, and one
/// at it.
#[derive(Drop)]
pub(crate) struct Cycle {
    pub pieces: Vec<Piece>,
    pub first: usize,
    pub rank: Frac,
    pub period: Frac,
    pub rise: Frac,
}

/// What a periodic curve is found to be.
#[derive(Drop)]
pub(crate) enum Shape {
    /// Its pieces, the last of which goes on for ever.
    Straight(Vec<Piece>),
    /// A curve whose period begins and ends at a break.
    Turns(Cycle),
}

/// The shape of a periodic curve whose pieces are given below rank + 2 period.
pub(crate) fn shape_of(pieces: Vec<Piece>, rank: Frac, period: Frac, rise: Frac) -> Shape
    requires two { IsTwoPeriods pieces.items rank period rise }
    requires end { SumFits rank period }
    requires until { Each (λ p. p.x ≤ℚ rank +ℚ period → SumFits p.x period) pieces.items }
    ensures { IsShape pieces.items rank period rise result }
{
    let mut kept = pieces;
    let Some(start) = first_past(&kept, rank) else {
        return Shape::Straight(kept);
    };
    let first = count_before(&kept, start);
    let end = sum(rank, period);
    match start.cmp(&end) {
        Ordering::Greater => {
            kept.truncate(first);
            return Shape::Straight(kept);
        }
        _ => {}
    }
    let until = sum(start, period);
    let count = count_before(&kept, until);
    kept.truncate(count);
    Shape::Turns(Cycle {
        pieces: kept,
        first,
        rank: start,
        period,
        rise,
    })
}
