//! Steps of arithmetic that are known to fit, so that none is refused; which of two fractions is the less.

ghost use Rattle.std.specs.Prelude.{◌≡◌, ◌≢◌, ◌↔◌, pos, IsTrue};
ghost use Rattle.rational.specs.Rational.{int, ◌+ℚ◌, ◌-ℚ◌, ◌*ℚ◌, ◌/ℚ◌, ◌<ℚ◌, neg_ℚ, lt_q};
ghost use Rattle.rational.specs.Ratio.{IsSmall, SumFits};
ghost use Rattle.rational.specs.MinMax.{min_q, max_q};
ghost use Rattle.rational.specs.Extended.{min_ext, max_ext};

use crate::fraction::{Ext, Frac};
use rational::Extended;
use std::cmp::Ordering;

/// a + b, where it fits. Whole numbers need no look at whether they fit.
#[inline]
pub fn sum(a: Frac, b: Frac) -> Frac
    requires { SumFits a b }
    ensures { result ≡ a +ℚ b }
{
    let d = a.denominator();
    let e = b.denominator();
    if d == 1 && e == 1 {
        let left = a.numerator();
        let right = b.numerator();
        return Frac::from_whole(left + right);
    }
    sum_apart(a, b)
}

// Its two numbers are taken from the call's answer, so that the sum of whole numbers needs no place in memory.
#[inline(always)]
fn sum_apart(a: Frac, b: Frac) -> Frac
    requires { SumFits a b }
    ensures { result ≡ a +ℚ b }
{
    let found = sum_of_parts(a, b);
    let top = found.numerator();
    let bottom = found.denominator();
    Frac::from_lowest(top, bottom)
}

// A call of its own, so that only the sum of whole numbers is written out where it is called.
#[inline(never)]
fn sum_of_parts(a: Frac, b: Frac) -> Frac
    requires { SumFits a b }
    ensures { result ≡ a +ℚ b }
{
    Frac::add(a, b).unwrap()
}

/// a - b, where it fits.
#[inline]
pub fn difference(a: Frac, b: Frac) -> Frac
    requires { SumFits a (neg_ℚ b) }
    ensures { result ≡ a -ℚ b }
{
    sum(a, b.negated())
}

/// a b, where it fits. Whole numbers need no look at whether they fit.
#[inline]
pub fn product(a: Frac, b: Frac) -> Frac
    requires { IsSmall (a *ℚ b) }
    ensures { result ≡ a *ℚ b }
{
    let d = a.denominator();
    let e = b.denominator();
    if d == 1 && e == 1 {
        let left = a.numerator();
        let right = b.numerator();
        return Frac::from_whole(left * right);
    }
    product_apart(a, b)
}

// As that of a sum.
#[inline(always)]
fn product_apart(a: Frac, b: Frac) -> Frac
    requires { IsSmall (a *ℚ b) }
    ensures { result ≡ a *ℚ b }
{
    let found = product_of_parts(a, b);
    let top = found.numerator();
    let bottom = found.denominator();
    Frac::from_lowest(top, bottom)
}

// A call of its own, as that of a sum.
#[inline(never)]
fn product_of_parts(a: Frac, b: Frac) -> Frac
    requires { IsSmall (a *ℚ b) }
    ensures { result ≡ a *ℚ b }
{
    Frac::mul(a, b).unwrap()
}

/// a / b, where b is not 0 and it fits.
pub fn quotient(a: Frac, b: Frac) -> Frac
    requires some { b ≢ int (pos 0) }
    requires fits { IsSmall (a /ℚ b) }
    ensures { result ≡ a /ℚ b }
{
    Frac::div(a, b).unwrap()
}

/// Whether a is less than b.
#[inline]
pub fn is_less(a: Frac, b: Frac) -> bool
    ensures test { result ≡ lt_q a b }
    ensures less { IsTrue result ↔ (a <ℚ b) }
{
    match a.cmp(&b) {
        Ordering::Less => true,
        _ => false,
    }
}

/// The lesser of two.
pub fn lesser(a: Frac, b: Frac) -> Frac
    ensures { result ≡ min_q a b }
{
    match a.cmp(&b) {
        Ordering::Greater => b,
        _ => a,
    }
}

/// The greater of two.
pub fn greater(a: Frac, b: Frac) -> Frac
    ensures { result ≡ max_q a b }
{
    match a.cmp(&b) {
        Ordering::Greater => a,
        _ => b,
    }
}

/// The lesser of two values.
pub fn lesser_value(a: Ext, b: Ext) -> Ext
    ensures { result ≡ min_ext a b }
{
    match a {
        Extended::Inf => b,
        Extended::Fin(x) => match b {
            Extended::Inf => a,
            Extended::Fin(y) => Extended::Fin(lesser(x, y)),
        },
    }
}

/// The greater of two values.
pub fn greater_value(a: Ext, b: Ext) -> Ext
    ensures { result ≡ max_ext a b }
{
    match a {
        Extended::Inf => Extended::Inf,
        Extended::Fin(x) => match b {
            Extended::Inf => Extended::Inf,
            Extended::Fin(y) => Extended::Fin(greater(x, y)),
        },
    }
}
