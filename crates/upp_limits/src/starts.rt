//! Whether the copies of a start come before a time, exactly, also where no step on the way fits a fraction.

ghost use Rattle.std.specs.Prelude.{ℕ, ◌≡◌, ◌↔◌, ◌<◌, ◌^◌, ◌+◌, ◌*◌, pos, nat_abs, IsTrue};
ghost use Rattle.rational.specs.Rational.{ℚ, den, int, ◌+ℚ◌, ◌*ℚ◌, ◌≤ℚ◌, ◌<ℚ◌, lt_q};
ghost use Rattle.upp_limits.specs.Long.{long_value};

use crate::long::Long;
use fraction128::{Frac, is_less};

/// a / b + n p / q over the denominator b q, times v.
fn cross_sum(a: u128, b: u128, n: u128, p: u128, q: u128, v: u128) -> Long
    requires a { a < 2 ^ 127 }
    requires b { b < 2 ^ 127 }
    requires p { p < 2 ^ 127 }
    requires q { q < 2 ^ 127 }
    requires v { v < 2 ^ 127 }
    ensures { long_value result ≡ (a * q + n * p * b) * v }
{
    let moved = Long::of(n).times(p).times(b);
    Long::of(a).times(q).plus(moved).times(v)
}

/// u times b q.
fn cross_end(u: u128, b: u128, q: u128) -> Long
    requires u { u < 2 ^ 127 }
    requires b { b < 2 ^ 127 }
    requires q { q < 2 ^ 127 }
    ensures { long_value result ≡ u * b * q }
{
    Long::of(u).times(b).times(q)
}

/// The size of the numerator, and the denominator.
#[inline]
pub(crate) fn sizes(x: Frac) -> (u128, u128)
    ensures top { result.0 ≡ nat_abs x.num }
    ensures bottom { result.1 ≡ den x }
    ensures top_size { result.0 < 2 ^ 127 }
    ensures bottom_size { result.1 < 2 ^ 127 }
{
    (x.numerator().unsigned_abs(), x.denominator())
}

/// x + n d and `end`, each times the same number.
fn crossed(x: Frac, n: u128, d: Frac, end: Frac) -> (Long, Long)
    requires start { int (pos 0) ≤ℚ x }
    requires step { int (pos 0) ≤ℚ d }
    requires late { int (pos 0) ≤ℚ end }
    ensures before { (long_value result.0 < long_value result.1) ↔ (x +ℚ int (pos n) *ℚ d <ℚ end) }
    ensures after { (long_value result.1 < long_value result.0) ↔ (end <ℚ x +ℚ int (pos n) *ℚ d) }
{
    let (u, v) = sizes(end);
    let (a, b) = sizes(x);
    let (p, q) = sizes(d);
    (cross_sum(a, b, n, p, q, v), cross_end(u, b, q))
}

/// Whether x + n d is before `end`, for x and d of at least 0.
pub fn is_before(x: Frac, n: u128, d: Frac, end: Frac) -> bool
    requires start { int (pos 0) ≤ℚ x }
    requires step { int (pos 0) ≤ℚ d }
    ensures { IsTrue result ↔ (x +ℚ int (pos n) *ℚ d <ℚ end) }
{
    if is_less(end, Frac::zero()) {
        return false;
    }
    let (there, last) = crossed(x, n, d, end);
    there.is_less(last)
}

/// Whether x + n d is after `end`, for x and d of at least 0.
pub fn is_after(x: Frac, n: u128, d: Frac, end: Frac) -> bool
    requires start { int (pos 0) ≤ℚ x }
    requires step { int (pos 0) ≤ℚ d }
    ensures { IsTrue result ↔ (end <ℚ x +ℚ int (pos n) *ℚ d) }
{
    if is_less(end, Frac::zero()) {
        return true;
    }
    let (there, last) = crossed(x, n, d, end);
    last.is_less(there)
}
