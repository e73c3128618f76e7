//! Whole multiples, and the pieces that are made of them, where the steps fit.

ghost use Rattle.std.specs.Prelude.{◌≡◌, ◌<◌, ◌^◌, suc, Some, IfSome, IsSome};
ghost use Rattle.rational.specs.Rational.{◌-ℚ◌, neg_ℚ};
ghost use Rattle.rational.specs.Ratio.{IsSmall, SumFits};
ghost use Rattle.upp_curve.specs.affine_segment.Values.{line_at};
ghost use Rattle.upp_curve.specs.affine_segment.Fits.{LineFitsAt};
ghost use Rattle.subadd_closure.specs.ElementCurves.{line_times, stretch, turn};
ghost use Rattle.min_plus.specs.closure_laws.Star.{nat_times};
ghost use Rattle.subadd_closure.specs.PieceFits.{PieceFits};

use fraction128::Frac;
use rational::Extended;
use upp_curve::affine_segment::{Line, Piece, value};

/// n times x.
pub(crate) fn whole_times(n: u64, x: Frac) -> Option<Frac>
    ensures value { IfSome result (λ y. y ≡ nat_times n x) }
    ensures fits { IsSmall (nat_times n x) → IsSome result }
{
    Frac::mul(Frac::from_whole(i128::from(n)), x).ok()
}

/// The line of the sums of n values of a line.
pub(crate) fn line_times(n: u64, line: &Line) -> Option<Line>
    ensures value { IfSome result (λ l. l ≡ line_times n line.now) }
    ensures fits { IsSmall (nat_times n line.now.icept) → IsSome result }
{
    let icept = whole_times(n, line.icept)?;
    Some(Line {
        icept,
        slope: line.slope,
    })
}

/// The value of a line at x.
pub(crate) fn value_on(line: &Line, x: Frac) -> Option<Frac>
    ensures value { IfSome result (λ y. y ≡ line_at line.now x) }
    ensures fits { LineFitsAt x (Some line.now) → IsSome result }
{
    value(line, x).ok()
}

/// a - b.
pub(crate) fn less(a: Frac, b: Frac) -> Option<Frac>
    ensures value { IfSome result (λ y. y ≡ a -ℚ b) }
    ensures fits { SumFits a (neg_ℚ b) → IsSome result }
{
    Frac::sub(a, b).ok()
}

/// The opening of the sums of n values.
pub(crate) fn stretch(a: Frac, line: &Line, n: u64) -> Option<Piece>
    ensures value { IfSome result (λ p. p ≡ stretch a line.now n) }
    ensures fits { PieceFits (stretch a line.now n) → IsSome result }
{
    let x = whole_times(n, a)?;
    let next = line_times(n, line)?;
    Some(Piece {
        x,
        at: Extended::Inf,
        line: Some(next),
    })
}

/// At n b the sums of one value more, which go on from there.
pub(crate) fn rising_turn(b: Frac, line: &Line, n: u64) -> Option<Piece>
    requires { n < 2 ^ 32 }
    ensures value { IfSome result (λ p. p ≡ turn (nat_times n b) line.now (suc n) (suc n)) }
    ensures fits { PieceFits (turn (nat_times n b) line.now (suc n) (suc n)) → IsSome result }
{
    let x = whole_times(n, b)?;
    let next = line_times(n + 1, line)?;
    let at = value_on(&next, x)?;
    Some(Piece {
        x,
        at: Extended::Fin(at),
        line: Some(next),
    })
}

/// At (n + 1) a the sums of n values, and then those of one value more.
pub(crate) fn falling_turn(a: Frac, line: &Line, n: u64) -> Option<Piece>
    requires { n < 2 ^ 32 }
    ensures value { IfSome result (λ p. p ≡ turn (nat_times (suc n) a) line.now n (suc n)) }
    ensures fits { PieceFits (turn (nat_times (suc n) a) line.now n (suc n)) → IsSome result }
{
    let x = whole_times(n + 1, a)?;
    let next = line_times(n + 1, line)?;
    let after = value_on(&next, x)?;
    let at = less(after, line.icept)?;
    Some(Piece {
        x,
        at: Extended::Fin(at),
        line: Some(next),
    })
}
