//! The gauge of a call.

ghost use Rattle.std.specs.Prelude.{ℕ, ◌≡◌, ◌<◌, ◌≤◌, ◌*◌, ◌^◌, pos, nat_abs, IsTrue, IfSome, IfNone, MatchOption};
ghost use Rattle.rational.specs.Rational.{ℚ, int, ◌*ℚ◌, ◌≤ℚ◌};
ghost use Rattle.rational.specs.Gauge.{Kept};
ghost use Rattle.min_plus.specs.WholeUp.{whole_up};
ghost use Rattle.upp_limits.specs.Limits.{Numbers, joined, time_alone, sizes_of, gauge_of};
ghost use Rattle.upp_limits.specs.Gathered.{Gathers};

use crate::gathered::Gathered;
use crate::starts::sizes;
use fraction128::{Frac, is_less};

/// steepness times `end`, rounded up, and 0 below 0. None where it is past the largest number before it is divided.
pub fn reach(steepness: u128, end: Frac) -> Option<u128>
    ensures value { IfSome result (λ r. r ≡ whole_up (int (pos steepness) *ℚ end)) }
    ensures big { IfNone result (2 ^ 128 ≤ steepness * nat_abs end.num) }
    ensures nonneg { IfNone result (int (pos 0) ≤ℚ end) }
{
    if is_less(end, Frac::zero()) {
        return Some(0);
    }
    let (top, bottom) = sizes(end);
    match steepness.checked_mul(top) {
        Some(product) if product % bottom == 0 => Some(product / bottom),
        Some(product) => Some(product / bottom + 1),
        None => None,
    }
}

/// 64 v s dv dt ds ds, of numbers that are right up to the largest. None where it is 2^128 or more.
pub fn product(v: u128, s: u128, dv: u128, dt: u128, ds: u128) -> Option<u128>
    ensures { (V S DV DT DS : ℕ) → Kept v V → Kept s S → Kept dv DV → Kept dt DT → Kept ds DS
        → MatchOption result (2 ^ 128 ≤ 64 * (V * S * DV * DT * DS * DS)) (λ g. g ≡ 64 * (V * S * DV * DT * DS * DS)) }
{
    let product = v
        .saturating_mul(s)
        .saturating_mul(dv)
        .saturating_mul(dt)
        .saturating_mul(ds)
        .saturating_mul(ds);
    let whole = product.saturating_mul(64);
    if whole == u128::MAX {
        None
    } else {
        Some(whole)
    }
}

/// Whether 64 a b c is below 2^120, told by how long the three numbers are; not for each that is.
#[inline]
pub(crate) fn is_narrow(a: u128, b: u128, c: u128) -> bool
    ensures { IsTrue result → 64 * (a * b * c) < 2 ^ 120 }
{
    let first = a.leading_zeros();
    let second = b.leading_zeros();
    let third = c.leading_zeros();
    // Together they have at most 113 digits.
    if first + second + third < 3 * 128 - 113 {
        return false;
    }
    true
}

/// The gauge of the numbers gathered, the window's end first. None where it is 2^128 or more.
pub(crate) fn gauge_of(g: Gathered, end: Frac) -> Option<u128>
    ensures { (n : Numbers) → Gathers g (joined (time_alone end) n)
        → MatchOption result (2 ^ 128 ≤ gauge_of (sizes_of end n)) (λ k. k ≡ gauge_of (sizes_of end n)) }
{
    if g.steepness == u128::MAX {
        return None;
    }
    match reach(g.steepness, end) {
        Some(far) => product(g.largest.max(far), g.steepness, g.dv, g.dt, g.ds),
        None => None,
    }
}
