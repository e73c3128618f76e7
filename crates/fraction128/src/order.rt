//! The order of fractions: by cross products that fit, else by whole parts and reciprocals. Nothing is too wide.

ghost use Rattle.std.specs.Prelude.{◌≡◌, ◌<◌, ◌≤◌, ◌*◌, pos, ◌*ℤ◌, unsigned_abs, ◌^◌};
ghost use Rattle.std.specs.Ordering.{nat_cmp, int_cmp};
ghost use Rattle.rational.specs.Floor.{IsWholeAndRest};

use crate::division::divide;
use crate::products::{SHORT, is_short};
use std::cmp::Ordering;

/// The largest whole number that is at most num / den, and what is left over it, as a numerator.
#[inline]
pub(crate) fn whole_and_rest(num: i128, den: u128) -> (i128, u128)
    requires some { 0 < den }
    requires top { unsigned_abs num < 2 ^ 127 }
    ensures parts { IsWholeAndRest num den result.0 result.1 }
    ensures size { unsigned_abs result.0 ≤ unsigned_abs num }
{
    if num >= 0 {
        let (whole, rest) = divide(num as u128, den);
        return (whole as i128, rest);
    }
    let (past, over) = divide(num.unsigned_abs() - 1, den);
    (-1 - past as i128, den - 1 - over)
}

/// a / d against b / e.
#[inline]
pub(crate) fn compare_signed(a: i128, d: u128, b: i128, e: u128) -> Ordering
    requires left { 0 < d }
    requires right { 0 < e }
    requires left_top { unsigned_abs a < 2 ^ 127 }
    requires right_top { unsigned_abs b < 2 ^ 127 }
    ensures { result ≡ int_cmp (a *ℤ pos e) (b *ℤ pos d) }
{
    if d == e {
        return a.cmp(&b);
    }
    compare_apart(a, d, b, e)
}

/// a / d against b / e, by the cross products where they are known to fit, else by whole parts.
#[inline(never)]
fn compare_apart(a: i128, d: u128, b: i128, e: u128) -> Ordering
    requires left { 0 < d }
    requires right { 0 < e }
    requires left_top { unsigned_abs a < 2 ^ 127 }
    requires right_top { unsigned_abs b < 2 ^ 127 }
    ensures { result ≡ int_cmp (a *ℤ pos e) (b *ℤ pos d) }
{
    if is_short(a) && is_short(b) && d < SHORT && e < SHORT {
        return (a * e as i128).cmp(&(b * d as i128));
    }
    let (left, over) = whole_and_rest(a, d);
    let (right, rest) = whole_and_rest(b, e);
    if left != right {
        return left.cmp(&right);
    }
    compare_rests(over, d, rest, e)
}

/// a / d against b / e. Where the whole parts are equal, the parts left over are compared by their
/// reciprocals, turned round.
fn compare_rests(a: u128, d: u128, b: u128, e: u128) -> Ordering
    requires left { 0 < d }
    requires right { 0 < e }
    ensures { result ≡ nat_cmp (a * e) (b * d) }
{
    let (mut p, mut q, mut r, mut s) = (a, d, b, e);
    'steps: loop {
        let (left, over) = divide(p, q);
        let (right, rest) = divide(r, s);
        if left != right {
            return left.cmp(&right);
        }
        if over == 0 || rest == 0 {
            return over.cmp(&rest);
        }
        (p, q, r, s) = (s, rest, q, over);
    }
}
