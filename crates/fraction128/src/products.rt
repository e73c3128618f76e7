//! Products of numbers and of fractions.

ghost use Rattle.std.specs.Prelude.{◌≡◌, ◌<◌, ◌≤◌, ◌^◌, ◌*◌, ◌/◌, ℤ, pos, ◌*ℤ◌, unsigned_abs, MatchOption, IsTrue, ◌↔◌};
ghost use Rattle.rational.specs.Gcd.{gcd};
ghost use Rattle.rational.specs.Rational.{◌*ℚ◌};
ghost use Rattle.rational.specs.Ratio.{ratio, IsSmall};
ghost use Rattle.fraction128.specs.Parts.{AreLowest};

use crate::division::{gcd_of, quotient, short_divisor, short_quotient};
use crate::fraction::{Frac, LARGEST, with_sign};

/// Two numbers below this have a product below 2^126.
pub(crate) const SHORT: u128 = 1 << 63;

/// The product, where it is at most 2^127 - 1.
#[inline]
pub(crate) fn product(a: u128, b: u128) -> Option<u128>
    ensures { MatchOption result (2 ^ 127 ≤ a * b) (λ n. (n ≡ a * b) × (n < 2 ^ 127)) }
{
    if a < SHORT && b < SHORT {
        return Some(a * b);
    }
    match a.checked_mul(b) {
        Some(n) if n <= LARGEST => Some(n),
        _ => None,
    }
}

/// The product, where it is at least -2^127 and below 2^127.
#[inline]
pub(crate) fn signed_product(a: i128, b: u128) -> Option<i128>
    requires { b < 2 ^ 127 }
    ensures { MatchOption result (2 ^ 127 ≤ unsigned_abs (a *ℤ pos b)) (λ z. z ≡ a *ℤ pos b) }
{
    if a.unsigned_abs() < SHORT && b < SHORT {
        return Some(a * b as i128);
    }
    a.checked_mul(b as i128)
}

/// (a / d) (b / e), of fractions in lowest terms.
#[inline]
pub(crate) fn product_of(a: i128, d: u128, b: i128, e: u128) -> Option<Frac>
    requires left { AreLowest a d }
    requires right { AreLowest b e }
    ensures { let exact = ratio a (pos d) *ℚ ratio b (pos e) in
        MatchOption result (¬ (IsSmall exact)) (λ f. (f ≡ exact) × IsSmall exact) }
{
    if d == 1 && e == 1 && is_short(a) && is_short(b) {
        return Some(Frac::from_whole(a * b));
    }
    product_across(a, d, b, e)
}

/// Whether the number is below 2^63 in size.
#[inline]
pub(crate) fn is_short(n: i128) -> bool
    ensures { IsTrue result ↔ (unsigned_abs n < 2 ^ 63) }
{
    n.unsigned_abs() < SHORT
}

/// The product of two numbers below 2^63.
#[inline(always)]
fn short_product(x: u64, y: u64) -> u128
    requires left { x < 2 ^ 63 }
    requires right { y < 2 ^ 63 }
    ensures value { result ≡ x * y }
    ensures size { result < 2 ^ 127 }
{
    x as u128 * y as u128
}

/// The numbers of the product of left / d and right / e in lowest terms, where all four are below 2^63.
#[inline(always)]
fn short_parts(left: u64, d: u64, right: u64, e: u64) -> (u128, u128)
    requires top { left < 2 ^ 63 }
    requires bottom { d < 2 ^ 63 }
    requires other_top { right < 2 ^ 63 }
    requires other_bottom { e < 2 ^ 63 }
    requires some { 0 < d }
    requires other_some { 0 < e }
    ensures top { result.0 ≡ left / gcd left e * (right / gcd right d) }
    ensures bottom { result.1 ≡ d / gcd right d * (e / gcd left e) }
    ensures top_size { result.0 < 2 ^ 127 }
    ensures bottom_size { result.1 < 2 ^ 127 }
{
    let first = short_divisor(left, e);
    let second = short_divisor(right, d);
    let x = short_quotient(left, first);
    let y = short_quotient(right, second);
    let u = short_quotient(d, second);
    let v = short_quotient(e, first);
    (short_product(x, y), short_product(u, v))
}

/// (a / d) (b / e). Numbers below 2^63 need no look at whether a step fits.
#[inline(never)]
fn product_across(a: i128, d: u128, b: i128, e: u128) -> Option<Frac>
    requires left { AreLowest a d }
    requires right { AreLowest b e }
    ensures { let exact = ratio a (pos d) *ℚ ratio b (pos e) in
        MatchOption result (¬ (IsSmall exact)) (λ f. (f ≡ exact) × IsSmall exact) }
{
    let (left, right) = (a.unsigned_abs(), b.unsigned_abs());
    if left < SHORT && right < SHORT && d < SHORT && e < SHORT {
        let (size, bottom) = short_parts(left as u64, d as u64, right as u64, e as u64);
        return Some(Frac::from_lowest(with_sign(a, b, size), bottom));
    }
    product_wide(a, d, b, e)
}

/// (a / d) (b / e). Each numerator is first divided by what it has in common with the other's
/// denominator: then the products are in lowest terms.
#[cold]
#[inline(never)]
fn product_wide(a: i128, d: u128, b: i128, e: u128) -> Option<Frac>
    requires left { AreLowest a d }
    requires right { AreLowest b e }
    ensures { let exact = ratio a (pos d) *ℚ ratio b (pos e) in
        MatchOption result (¬ (IsSmall exact)) (λ f. (f ≡ exact) × IsSmall exact) }
{
    let (left, right) = (a.unsigned_abs(), b.unsigned_abs());
    let first = gcd_of(left, e);
    let second = gcd_of(right, d);
    let size = product(quotient(left, first), quotient(right, second))?;
    let bottom = product(quotient(d, second), quotient(e, first))?;
    Some(Frac::from_lowest(with_sign(a, b, size), bottom))
}
