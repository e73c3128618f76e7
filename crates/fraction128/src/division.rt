//! Division and greatest common divisors of plain numbers. Numbers that fit 64 bits are divided
//! as such, since a 128-bit division takes many times as long.

ghost use Rattle.std.specs.Prelude.{◌≡◌, ◌<◌, ◌≤◌, ◌/◌, ◌%◌, ◌^◌, MatchOption};
ghost use Rattle.rational.specs.Gcd.{gcd};
ghost use Rattle.rational.specs.Gauge.{lcm};

/// The largest number of 64 bits.
const SHORT: u128 = u64::MAX as u128;

/// The quotient and the rest.
#[inline]
pub(crate) fn divide(n: u128, by: u128) -> (u128, u128)
    requires { 0 < by }
    ensures whole { result.0 ≡ n / by }
    ensures rest { result.1 ≡ n % by }
{
    if n <= SHORT && by <= SHORT {
        let (short, short_by) = (n as u64, by as u64);
        return ((short / short_by) as u128, (short % short_by) as u128);
    }
    (n / by, n % by)
}

/// The quotient.
#[inline]
pub(crate) fn quotient(n: u128, by: u128) -> u128
    requires { 0 < by }
    ensures { result ≡ n / by }
{
    if by == 1 { n } else { divide(n, by).0 }
}

/// The greatest common divisor, by Euclid's steps; that of 0 and 0 is 0.
pub fn gcd_of(a: u128, b: u128) -> u128
    ensures { result ≡ gcd a b }
{
    if a == 1 || b == 1 {
        return 1;
    }
    if a == b {
        return a;
    }
    let mut x = a;
    let mut y = b;
    while y > SHORT {
        let rest = x % y;
        x = y;
        y = rest;
    }
    if y == 0 {
        return x;
    }
    let rest = divide(x, y).1;
    short_gcd(y as u64, rest as u64) as u128
}

/// The least common multiple; `None` where it is above 2^128 - 1.
pub fn least_common_multiple(a: u128, b: u128) -> Option<u128>
    requires { 0 < b }
    ensures { MatchOption result (2 ^ 128 ≤ lcm a b) (λ m. m ≡ lcm a b) }
{
    quotient(a, gcd_of(a, b)).checked_mul(b)
}

/// The greatest common divisor of numbers of 64 bits.
#[inline]
pub(crate) fn short_divisor(a: u64, b: u64) -> u64
    ensures { result ≡ gcd a b }
{
    if a == 1 || b == 1 {
        return 1;
    }
    short_gcd(a, b)
}

/// The same, where both are often equal.
#[inline]
pub(crate) fn short_common(a: u64, b: u64) -> u64
    ensures { result ≡ gcd a b }
{
    if a == b {
        return a;
    }
    short_divisor(a, b)
}

/// The quotient of numbers of 64 bits.
#[inline]
pub(crate) fn short_quotient(n: u64, by: u64) -> u64
    requires { 0 < by }
    ensures { result ≡ n / by }
{
    if by == 1 { n } else { n / by }
}

fn short_gcd(a: u64, b: u64) -> u64
    ensures { result ≡ gcd a b }
{
    let mut x = a;
    let mut y = b;
    while y != 0 {
        let rest = x % y;
        x = y;
        y = rest;
    }
    x
}
