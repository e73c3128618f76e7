//! How many copies of a piece start before a time.

ghost use Rattle.std.specs.Prelude.{ℕ, ◌≡◌, ◌<◌, pos, nat_abs, IfSome};
ghost use Rattle.rational.specs.Rational.{ℚ, den, int, ◌-ℚ◌, ◌/ℚ◌, ◌≤ℚ◌, ◌<ℚ◌};
ghost use Rattle.rational.specs.Gauge.{cap};
ghost use Rattle.min_plus.specs.WholeUp.{whole_up};

use crate::starts::is_before;
use fraction128::{Frac, is_less};

/// The least whole number that is at least x, and 0 below 0.
pub(crate) fn whole_up(x: Frac) -> u128
    ensures { result ≡ whole_up x }
{
    if is_less(x, Frac::zero()) {
        0
    } else {
        x.size_up()
    }
}

// The quotient of two whole numbers, rounded up, and 0 below 0: in place of a fraction one division.
fn whole_count(gap: Frac, period: Frac) -> u128
    requires some { int (pos 0) <ℚ period }
    requires size { 0 < nat_abs period.num }
    requires whole { den gap ≡ 1 }
    requires period { den period ≡ 1 }
    ensures { result ≡ whole_up (gap /ℚ period) }
{
    if !is_less(Frac::zero(), gap) {
        return 0;
    }
    let top = gap.numerator_size();
    let bottom = period.numerator_size();
    if top % bottom == 0 {
        top / bottom
    } else {
        top / bottom + 1
    }
}

/// How many of x, x + period, x + 2 period and so on are before `end`, where the steps of that quotient fit.
fn quick_count(x: Frac, period: Frac, end: Frac) -> Option<u128>
    requires { int (pos 0) <ℚ period }
    ensures { IfSome result (λ n. n ≡ whole_up ((end -ℚ x) /ℚ period)) }
{
    let Ok(gap) = Frac::sub(end, x) else {
        return None;
    };
    let d = gap.denominator();
    let e = period.denominator();
    if d == 1 && e == 1 {
        return Some(whole_count(gap, period));
    }
    match Frac::div(gap, period) {
        Ok(ratio) => Some(whole_up(ratio)),
        Err(_) => None,
    }
}

/// The same by halving, up to the largest number.
fn searched_count(x: Frac, period: Frac, end: Frac) -> u128
    requires start { int (pos 0) ≤ℚ x }
    requires period { int (pos 0) <ℚ period }
    ensures { result ≡ cap (whole_up ((end -ℚ x) /ℚ period)) }
{
    if is_before(x, u128::MAX, period, end) {
        return u128::MAX;
    }
    let mut low: u128 = 0;
    let mut high = u128::MAX;
    while low < high {
        let middle = low + (high - low) / 2;
        if is_before(x, middle, period, end) {
            low = middle + 1;
        } else {
            high = middle;
        }
    }
    low
}

/// How many of x, x + period, x + 2 period and so on are before `end`, up to the largest number.
pub fn count_before(x: Frac, period: Frac, end: Frac) -> u128
    requires start { int (pos 0) ≤ℚ x }
    requires period { int (pos 0) <ℚ period }
    ensures { result ≡ cap (whole_up ((end -ℚ x) /ℚ period)) }
{
    match quick_count(x, period, end) {
        Some(n) => n,
        None => searched_count(x, period, end),
    }
}
