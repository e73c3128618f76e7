//! The curves that an element's closure is convolved with and lowered by.

ghost use Rattle.std.specs.Prelude.{◌≡◌, IfOk};
ghost use Rattle.rational.specs.Rational.{◌<ℚ◌, ◌/ℚ◌};
ghost use Rattle.rational.specs.Ratio.{IsSmall};
ghost use Rattle.min_plus.specs.Functions.{zero_q};
ghost use Rattle.subadd_closure.specs.Lattices.{lattice_curve, origin_curve};

use fraction128::Frac;
use rational::Extended;
use std::alloc::{AllocError, Global};
use upp_curve::affine_segment::Piece;
use upp_curve::{Curve, Tail};

/// n times the rise at n times the period for each natural n, and infinity elsewhere. The period is above 0, and rise /
/// period fits, as of each curve with that tail.
pub fn lattice(alloc: Global, period: Frac, rise: Frac) -> Result<Curve, AllocError>
    requires some { zero_q <ℚ period }
    requires rate { IsSmall (rise /ℚ period) }
    ensures { IfOk result (λ c. c ≡ lattice_curve period rise) }
{
    let _sizes = (period.numerator(), period.denominator());
    let _more = (rise.numerator(), rise.denominator());
    let rank = Frac::zero();
    let only = Piece {
        x: rank,
        at: Extended::Fin(rank),
        line: None,
    };
    let pieces = Vec::from_slice(alloc, &[only])?;
    let tail = Tail::Periodic { rank, period, rise };
    Ok(Curve::from_normal(pieces, tail))
}

/// 0 at 0, and infinity elsewhere.
pub fn origin(alloc: Global) -> Result<Curve, AllocError>
    ensures { IfOk result (λ c. c ≡ origin_curve) }
{
    let rank = Frac::zero();
    let only = Piece {
        x: rank,
        at: Extended::Fin(rank),
        line: None,
    };
    let pieces = Vec::from_slice(alloc, &[only])?;
    let tail = Tail::Infinite { rank };
    Ok(Curve::from_normal(pieces, tail))
}
