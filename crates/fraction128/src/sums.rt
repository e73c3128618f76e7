//! Sums of fractions.

ghost use Rattle.std.specs.Prelude.{◌≡◌, ◌<◌, ◌≤◌, ◌^◌, ◌*◌, ℤ, pos, ◌+ℤ◌, ◌*ℤ◌, unsigned_abs, MatchOption};
ghost use Rattle.rational.specs.Rational.{int, ◌+ℚ◌};
ghost use Rattle.rational.specs.Ratio.{ratio, PartsFit};
ghost use Rattle.fraction128.specs.Parts.{AreLowest};

use crate::division::{gcd_of, quotient, short_common, short_quotient};
use crate::fraction::{Frac, LARGEST, with_sign};
use crate::products::{SHORT, is_short, product, signed_product};

/// a / d + b / e, of fractions in lowest terms.
#[inline]
pub(crate) fn sum_of(a: i128, d: u128, b: i128, e: u128) -> Option<Frac>
    requires left { AreLowest a d }
    requires right { AreLowest b e }
    ensures { MatchOption result (¬ (PartsFit a d b e)) (λ f. f ≡ ratio a (pos d) +ℚ ratio b (pos e)) }
{
    if d == 1 && e == 1 {
        return whole_sum(a, b);
    }
    sum_over_both(a, d, b, e)
}

/// a + b, of whole numbers.
#[inline]
fn whole_sum(a: i128, b: i128) -> Option<Frac>
    ensures { MatchOption result (2 ^ 127 ≤ unsigned_abs (a +ℤ b)) (λ f. f ≡ int (a +ℤ b)) }
{
    let sum = a.checked_add(b)?;
    if sum == i128::MIN {
        return None;
    }
    Some(Frac::from_whole(sum))
}

/// a v + b u, of numbers below 2^63.
#[inline(always)]
fn short_cross(a: i128, v: u64, b: i128, u: u64) -> i128
    requires left { unsigned_abs a < 2 ^ 63 }
    requires left_factor { v < 2 ^ 63 }
    requires right { unsigned_abs b < 2 ^ 63 }
    requires right_factor { u < 2 ^ 63 }
    ensures value { result ≡ a *ℤ pos v +ℤ b *ℤ pos u }
    ensures size { unsigned_abs result < 2 ^ 127 }
{
    a * v as i128 + b * u as i128
}

/// a / d + b / e, where all four are below 2^63.
#[inline(always)]
fn short_sum(a: i128, d: u64, b: i128, e: u64) -> Frac
    requires left { AreLowest a d }
    requires right { AreLowest b e }
    requires left_short { unsigned_abs a < 2 ^ 63 }
    requires right_short { unsigned_abs b < 2 ^ 63 }
    requires bottom { d < 2 ^ 63 }
    requires other_bottom { e < 2 ^ 63 }
    ensures { result ≡ ratio a (pos d) +ℚ ratio b (pos e) }
{
    let common = short_common(d, e);
    let share = short_quotient(d, common);
    let other = short_quotient(e, common);
    let sum = short_cross(a, other, b, share);
    let again = gcd_of(sum.unsigned_abs(), common as u128);
    let size = quotient(sum.unsigned_abs(), again);
    let rest = quotient(e as u128, again);
    Frac::from_lowest(with_sign(sum, 1, size), share as u128 * rest)
}

/// a / d + b / e. Numbers below 2^63 need no look at whether a step fits.
#[inline(never)]
fn sum_over_both(a: i128, d: u128, b: i128, e: u128) -> Option<Frac>
    requires left { AreLowest a d }
    requires right { AreLowest b e }
    ensures { MatchOption result (¬ (PartsFit a d b e)) (λ f. f ≡ ratio a (pos d) +ℚ ratio b (pos e)) }
{
    if is_short(a) && is_short(b) && d < SHORT && e < SHORT {
        return Some(short_sum(a, d as u64, b, e as u64));
    }
    sum_wide(a, d, b, e)
}

/// a / d + b / e, over the least common denominator.
#[cold]
#[inline(never)]
fn sum_wide(a: i128, d: u128, b: i128, e: u128) -> Option<Frac>
    requires left { AreLowest a d }
    requires right { AreLowest b e }
    ensures { MatchOption result (¬ (PartsFit a d b e)) (λ f. f ≡ ratio a (pos d) +ℚ ratio b (pos e)) }
{
    let common = gcd_of(d, e);
    let share = quotient(d, common);
    let other = quotient(e, common);
    let left = signed_product(a, other)?;
    let right = signed_product(b, share)?;
    let sum = left.checked_add(right)?;
    // What the sum still has in common with the least common denominator divides `common`.
    let again = gcd_of(sum.unsigned_abs(), common);
    let size = quotient(sum.unsigned_abs(), again);
    let bottom = product(share, quotient(e, again))?;
    if size > LARGEST {
        return None;
    }
    Some(Frac::from_lowest(with_sign(sum, 1, size), bottom))
}
