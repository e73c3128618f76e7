//! Curves whose fields are known to be a normal form.

ghost use Rattle.std.specs.Prelude.{◌≡◌, MatchResult};
ghost use Rattle.upp_curve.specs.Curve.{SpecCurve};
ghost use Rattle.min_plus.specs.Functions.{zero_q};
ghost use Rattle.upp_curve.specs.Kinds.{piece, flat, bucket};
ghost use Rattle.upp_curve.specs.Normal.{IsNormal};
ghost use Rattle.upp_normal.specs.Normalising.{raw_curve};
ghost use Rattle.upp_limits.specs.OwnLimits.{IsWithinOwn};
ghost use Rattle.curve_library.specs.Causes.{KeepsOwnLimits};

use crate::fault::CurveFault;
use fraction128::Frac;
use rational::Extended;
use std::alloc::Global;
use upp_curve::affine_segment::{Line, Piece};
use upp_curve::{Curve, Tail};
use upp_limits::over_own_limit;
use upp_normal::{RawCurve, normalise};

/// A piece at x with a value and the line after it, by its value at 0 and its slope.
pub(crate) fn piece(x: Frac, at: Frac, icept: Frac, slope: Frac) -> Piece
    ensures { result ≡ piece x at icept slope }
{
    Piece {
        x,
        at: Extended::Fin(at),
        line: Some(Line { icept, slope }),
    }
}

/// A piece of one value.
pub(crate) fn flat(x: Frac, at: Frac) -> Piece
    ensures { result ≡ flat x at }
{
    piece(x, at, at, Frac::zero())
}

// The curve of a normal form that is under the limits.
fn unchanged(raw: RawCurve) -> Result<Curve, CurveFault>
    requires normal { IsNormal (raw_curve raw) }
    requires within { IsWithinOwn (raw_curve raw) }
    ensures { MatchResult result (λ c. c ≡ raw_curve raw) (λ e. e ≡ CurveFault.NoMemory) }
{
    match normalise(raw) {
        Ok(c) => {
            c.keeps();
            Ok(c)
        }
        Err(_) => Err(CurveFault::NoMemory),
    }
}

/// The curve of a normal form. The limits are looked at before memory is taken.
pub(crate) fn of_normal(alloc: Global, pieces: &[Piece], tail: Tail) -> Result<Curve, CurveFault>
    requires { let c : SpecCurve = record { pieces = pieces.now; tail = tail } in IsNormal c }
    ensures { let c : SpecCurve = record { pieces = pieces.now; tail = tail } in KeepsOwnLimits c result }
{
    match over_own_limit(pieces, &tail) {
        Some(limit) => Err(CurveFault::Op(limit)),
        None => match Vec::from_slice(alloc, pieces) {
            Ok(pieces) => unchanged(RawCurve { pieces, tail }),
            Err(_) => Err(CurveFault::NoMemory),
        },
    }
}

/// The line of this slope from 0 at 0.
pub(crate) fn straight(alloc: Global, rate: Frac) -> Result<Curve, CurveFault>
    ensures { KeepsOwnLimits (bucket zero_q rate) result }
{
    let zero = Frac::zero();
    let pieces = [piece(zero, zero, zero, rate)];
    of_normal(alloc, &pieces, Tail::Affine { rank: zero })
}
