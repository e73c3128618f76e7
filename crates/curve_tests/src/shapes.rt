//! Numbers, pieces and curves for the tests of the crates above: short to write, and read by hand.

ghost use Rattle.std.specs.Prelude.{◌≡◌, ◌≢◌, pos, IfOk, IfSome};
ghost use Rattle.rational.specs.Rational.{int};
ghost use Rattle.rational.specs.Ratio.{IsSmall, ratio};
ghost use Rattle.rational.specs.declared.Extended.TheVariants.{Fin};
ghost use Rattle.upp_curve.specs.Curve.{HasSameValues, value_at};
ghost use Rattle.upp_curve.specs.declared.curve.Tail.TheVariants.{Periodic};

use fraction128::{Ext, Frac, is_less};
use rational::Extended;
use std::alloc::Global;
use upp_curve::affine_segment::{Line, Piece};
use upp_curve::{Curve, Tail};
use upp_limits::OpFault;
use upp_normal::{RawCurve, normalise};

/// num / den, and 0 where that is no `Frac`.
pub fn ratio(num: i128, den: i128) -> Frac
    ensures { den ≢ pos 0 → IsSmall (ratio num den) → result ≡ ratio num den }
{
    match Frac::new(num, den) {
        Ok(f) => f,
        Err(_) => Frac::zero(),
    }
}

/// n, and 0 for -2^127, which is no `Frac`.
pub fn whole(n: i128) -> Frac
    ensures { IsSmall (ratio n (pos 1)) → result ≡ ratio n (pos 1) }
{
    ratio(n, 1)
}

/// The line with a value at 0 and a slope.
pub fn line(icept: i128, slope: i128) -> Line {
    Line {
        icept: whole(icept),
        slope: whole(slope),
    }
}

/// From x on the line with a value at 0 and a slope, or infinity where there is none; and `at` at x.
pub fn piece(x: i128, at: Ext, line: Option<(i128, i128)>) -> Piece
    ensures { result.at ≡ at }
{
    Piece {
        x: whole(x),
        at,
        line: match line {
            None => None,
            Some((icept, slope)) => Some(Line {
                icept: whole(icept),
                slope: whole(slope),
            }),
        },
    }
}

/// From x on the line with a value at 0 and a slope, and `at` at x.
pub fn fraction_piece(x: Frac, at: Frac, icept: Frac, slope: Frac) -> Piece
    ensures { result ≡ record { x = x; at = Fin at; line = Some record { icept = icept; slope = slope } } }
{
    Piece {
        x,
        at: Extended::Fin(at),
        line: Some(Line { icept, slope }),
    }
}

/// The same of whole numbers.
pub fn line_piece(x: i128, at: i128, icept: i128, slope: i128) -> Piece
    ensures { IsSmall (ratio at (pos 1)) → result.at ≡ Fin (ratio at (pos 1)) }
{
    fraction_piece(whole(x), whole(at), whole(icept), whole(slope))
}

/// The normal form of a curve. Refused with TooMany also where the pieces and the tail make none.
pub fn curve(alloc: Global, list: &[Piece], tail: Tail) -> Result<Curve, OpFault>
    ensures { IfOk result (λ c. HasSameValues c record { pieces = list.now; tail = tail }) }
{
    let Ok(pieces) = Vec::from_slice(alloc, list) else {
        return Err(OpFault::NoMemory);
    };
    let raw = RawCurve { pieces, tail };
    if raw.is_raw() {
        normalise(raw)
    } else {
        Err(OpFault::TooMany)
    }
}

/// A burst, and then the rate.
pub fn bucket(alloc: Global, burst: i128, rate: i128) -> Result<Curve, OpFault> {
    let list = [line_piece(0, burst, burst, rate)];
    curve(alloc, &list, Tail::Affine { rank: Frac::zero() })
}

/// A curve that repeats from 0 on with one piece: `at` at 0, and then the line.
pub fn repeating(
    alloc: Global,
    at: i128,
    line: Option<(i128, i128)>,
    period: i128,
    rise: i128,
) -> Result<Curve, OpFault> {
    let list = [piece(0, Extended::Fin(whole(at)), line)];
    let tail = Tail::Periodic {
        rank: Frac::zero(),
        period: whole(period),
        rise: whole(rise),
    };
    curve(alloc, &list, tail)
}

/// The value at a time from 0 on; nothing where it is infinite, or a step does not fit.
pub fn value(c: &Curve, t: Frac) -> Option<Frac>
    ensures { IfSome result (λ v. value_at c.now t ≡ Fin v) }
{
    if is_less(t, Frac::zero()) {
        return None;
    }
    match c.value_at(t) {
        Ok(Extended::Fin(v)) => Some(v),
        _ => None,
    }
}

/// The rank, the period and the rise of a periodic curve.
pub fn repeats(c: &Curve) -> Option<(Frac, Frac, Frac)>
    ensures { IfSome result (λ r. c.now.tail ≡ Periodic r.0 r.1 r.2) }
{
    match c.tail() {
        Tail::Periodic { rank, period, rise } => Some((*rank, *period, *rise)),
        _ => None,
    }
}
