//! The closure of a point.

ghost use Rattle.rational.specs.Rational.{◌≤ℚ◌, ◌<ℚ◌};
ghost use Rattle.upp_curve.specs.declared.affine_segment.element.Element.TheVariants.{Point};
ghost use Rattle.min_plus.specs.Functions.{zero_q};
ghost use Rattle.subadd_closure.specs.ElementCurves.{point_closure, point_at_zero};
ghost use Rattle.subadd_closure.specs.ElementAnswers.{ClosureAnswer};
ghost use Rattle.subadd_closure.specs.PieceFits.{IsMade};

use crate::segments::made;
use fraction128::{Frac, is_less};
use rational::Extended;
use std::alloc::Global;
use upp_curve::affine_segment::Piece;
use upp_curve::{Curve, Tail};
use upp_limits::OpFault;
use upp_normal::RawCurve;

// n v at n x, x after 0.
fn repeating(alloc: Global, x: Frac, v: Frac) -> Result<Curve, OpFault>
    requires { zero_q <ℚ x }
    ensures { IsMade (point_closure x v) result }
{
    let first = Piece {
        x: Frac::zero(),
        at: Extended::Inf,
        line: None,
    };
    let second = Piece {
        x,
        at: Extended::Fin(v),
        line: None,
    };
    let tail = Tail::Periodic {
        rank: x,
        period: x,
        rise: v,
    };
    let pieces = Vec::from_slice(alloc, &[first, second])?;
    made(RawCurve { pieces, tail })
}

// v at 0 alone.
fn at_zero(alloc: Global, v: Frac) -> Result<Curve, OpFault>
    ensures { IsMade (point_at_zero v) result }
{
    let rank = Frac::zero();
    let only = Piece {
        x: rank,
        at: Extended::Fin(v),
        line: None,
    };
    let pieces = Vec::from_slice(alloc, &[only])?;
    let tail = Tail::Infinite { rank };
    Ok(Curve::from_normal(pieces, tail))
}

/// The closure of the value v at the time x: n v at n x for each whole n from 1 on, and infinity elsewhere; at 0 it is
/// v at 0 (Bouillard, Boyer and Le Corronc). Both are at least 0. Refused with TooWide only where no call within the
/// limits could take that curve, and for want of memory.
pub fn point_closure(alloc: Global, x: Frac, v: Frac) -> Result<Curve, OpFault>
    requires time { zero_q ≤ℚ x }
    requires value { zero_q ≤ℚ v }
    ensures { ClosureAnswer (Point x v) result }
{
    if is_less(Frac::zero(), x) {
        return repeating(alloc, x, v);
    }
    at_zero(alloc, v)
}
