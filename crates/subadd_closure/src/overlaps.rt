//! How many stretches of the sums of a segment end before the next begins, where that is within the limits of a
//! closure's fold: so a closure of too many pieces is never made.

ghost use Rattle.std.specs.Prelude.{◌≡◌, ◌+◌, ◌*◌, ◌<◌, ◌≤◌, ◌^◌, IfOk, IfErr, IsTrue};
ghost use Rattle.rational.specs.Rational.{◌-ℚ◌, ◌/ℚ◌, ◌<ℚ◌};
ghost use Rattle.rational.specs.Whole.{whole_part};
ghost use Rattle.upp_curve.specs.declared.affine_segment.element.Element.TheVariants.{Open};
ghost use Rattle.min_plus.specs.Functions.{zero_q};
ghost use Rattle.subadd_closure.specs.Folds.{segment_number, SegmentWithin, SegmentCause};
ghost use Rattle.subadd_closure.specs.SegmentLimits.{IsElementOf, IsOwnGauge, LengthsFit, IsOverLimit, IsOverlap};

use curve_call::first_window;
use fraction128::{Ext, Frac, difference, is_less, quotient};
use rational::Extended;
use upp_curve::Curve;
use upp_curve::affine_segment::{Element, Line};
use upp_limits::{OpFault, OpKind, call_numbers};

/// The gauge of a curve by itself; None where it is 2^120 or more. No memory is taken.
pub(crate) fn own_gauge(f: &Curve) -> Option<u128>
    ensures { IsOwnGauge f.now result }
{
    match first_window(&OpKind::Itself, f, f) {
        Ok(window) => match call_numbers(&OpKind::Itself, f, f, window.end) {
            Some(numbers) => Some(numbers.gauge),
            None => None,
        },
        Err(_) => None,
    }
}

// How often the length from a up to b goes whole into a.
fn lengths_before(a: Frac, b: Frac) -> u128
    requires late { zero_q <ℚ a }
    requires room { a <ℚ b }
    requires fits { LengthsFit a b }
    ensures value { result ≡ whole_part (a /ℚ (b -ℚ a)) }
    ensures size { result < 2 ^ 127 }
{
    let length = difference(b, a);
    quotient(a, length).floor().unsigned_abs()
}

// m, where m + 3 times the gauge and m + 3 are within the limits.
fn within_limits(gauge: u128, m: u128) -> Result<u64, OpFault>
    requires { m < 2 ^ 127 }
    ensures same { IfOk result (λ k. k ≡ m) }
    ensures narrow { IfOk result (λ _. (m + 3) * gauge < 2 ^ 120) }
    ensures few { IfOk result (λ _. m + 3 ≤ 2 ^ 19) }
    ensures over { IfErr result (IsOverLimit gauge (m + 3)) }
{
    let n = m + 3;
    if n.saturating_mul(gauge) >= 1 << 120 {
        return Err(OpFault::TooWide);
    }
    if n > 1 << 19 {
        return Err(OpFault::TooMany);
    }
    Ok(m as u64)
}

/// How many of the stretches of the sums of a segment of f, from n a up to n b, end before the next begins, or just
/// there. Of a segment from a > 0 up to an end, with n the least whole number above a / (b - a), it is refused with
/// TooWide exactly where n + 2 times the gauge of f by itself is 2^120 or more, else with TooMany exactly where 2 n + 4
/// is above 2^20. No memory is taken.
pub(crate) fn overlap(
    f: &Curve,
    gauge: Option<u128>,
    a: Frac,
    b: Ext,
    line: &Line,
) -> Result<u64, OpFault>
    requires part { IsElementOf f.now (Open a b line.now) }
    requires gauge { IsOwnGauge f.now gauge }
    ensures within { IfOk result (IsOverlap f.now a b line.now) }
    ensures over { IfErr result (SegmentCause f.now (segment_number (Open a b line.now))) }
{
    // Its type keeps that f is a curve.
    f.keeps();
    let Extended::Fin(end) = b else {
        return Ok(0);
    };
    if !is_less(Frac::zero(), a) {
        return Ok(0);
    }
    match gauge {
        None => Err(OpFault::TooWide),
        Some(own) => within_limits(own, lengths_before(a, end)),
    }
}

/// Whether the operator of an element of f is known to be over no limit: a point has none, and of a segment `overlap` is
/// asked. No memory is taken.
pub(crate) fn is_within(f: &Curve, gauge: Option<u128>, e: &Element) -> bool
    requires part { IsElementOf f.now e.now }
    requires gauge { IsOwnGauge f.now gauge }
    ensures { IsTrue result → SegmentWithin f.now (segment_number e.now) }
{
    match e {
        Element::Point { x: _, v: _ } => true,
        Element::Open { from, to, line } => match overlap(f, gauge, *from, *to, line) {
            Ok(_) => true,
            Err(_) => false,
        },
    }
}
