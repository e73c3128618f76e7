//! A time as a whole number of periods and what is left of it, exactly, also where the quotient of the two does not
//! fit.

ghost use Rattle.std.specs.Prelude.{◌≡◌, ◌+◌, ◌*◌, ◌/◌, ◌-◌, ◌<◌, ◌≤◌, ◌^◌, pos, nat_abs, MatchOption};
ghost use Rattle.rational.specs.Rational.{int, den, ◌*ℚ◌, ◌≤ℚ◌, ◌<ℚ◌};
ghost use Rattle.min_plus.specs.Functions.{zero_q};
ghost use Rattle.curve_library.specs.Shares.{IsQuotient, SharesFit, AreShares};

use fraction128::{Frac, least_common_multiple};

/// 2^127.
pub(crate) const PAST_LARGEST: u128 = 1 << 127;

/// How many whole periods lie in a time, and the rest, which is shorter than a period.
#[derive(Clone, Copy)]
pub(crate) struct Share {
    pub count: u128,
    pub rest: Frac,
}

/// A quotient and a rest of at most twice the divisor, with one more taken off where it can be.
fn carried(whole: u128, rest: u128, by: u128) -> (u128, u128)
    requires room { whole < 2 ^ 128 - 1 }
    requires rest { rest < 2 * by }
    ensures is { result.0 * by + result.1 ≡ whole * by + rest }
    ensures below { result.1 < by }
    ensures size { result.0 ≤ whole + 1 }
{
    if rest < by {
        (whole, rest)
    } else {
        (whole + 1, rest - by)
    }
}

/// Quotient and rest of n m by a number above m, by doubling for each binary digit of n.
fn product_over(n: u128, m: u128, by: u128) -> (u128, u128)
    requires times { n < 2 ^ 127 }
    requires factor { m < by }
    requires size { by < 2 ^ 127 }
    ensures is { result.0 * by + result.1 ≡ n * m }
    ensures below { result.1 < by }
    ensures most { result.0 ≤ n }
{
    if n == 0 {
        return (0, 0);
    }
    let (half, half_rest) = product_over(n / 2, m, by);
    let (whole, rest) = carried(2 * half, 2 * half_rest, by);
    if n % 2 == 0 {
        (whole, rest)
    } else {
        carried(whole, rest + m, by)
    }
}

/// Quotient and rest of n m by a number above 0; None where the quotient is 2^127 or more.
fn product_quotient(n: u128, m: u128, by: u128) -> Option<(u128, u128)>
    requires times { n < 2 ^ 127 }
    requires some { 0 < by }
    requires size { by < 2 ^ 127 }
    ensures { MatchOption result (2 ^ 127 ≤ n * m / by) (IsQuotient (n * m) by) }
{
    let (low, rest) = product_over(n, m % by, by);
    let Some(high) = n.checked_mul(m / by) else {
        return None;
    };
    match high.checked_add(low) {
        Some(count) if count < PAST_LARGEST => Some((count, rest)),
        _ => None,
    }
}

/// How many whole periods lie in a time from 0 on, and the rest. None exactly where their common grid, the period
/// on it, or the count is past 2^127 - 1.
pub(crate) fn whole_periods(time: Frac, period: Frac) -> Option<Share>
    requires time { zero_q ≤ℚ time }
    requires period { zero_q <ℚ period }
    ensures { MatchOption result (¬ (SharesFit time period)) (AreShares time period) }
{
    let grid = least_common_multiple(time.denominator(), period.denominator())?;
    if grid >= PAST_LARGEST {
        return None;
    }
    let step = numerator_on(period, grid)?;
    let finer = grid / time.denominator();
    let (count, rest) = product_quotient(time.numerator_size(), finer, step)?;
    Some(Share {
        count,
        rest: on_grid(rest, grid),
    })
}

/// A whole number.
pub(crate) fn whole(n: u128) -> Frac
    requires { n < 2 ^ 127 }
    ensures { result ≡ int (pos n) }
{
    Frac::from_whole(n as i128)
}

/// The size of a fraction in steps of 1 / grid; None where it is 2^127 or more.
fn numerator_on(x: Frac, grid: u128) -> Option<u128>
    ensures { let n = nat_abs x.num * (grid / den x) in MatchOption result (2 ^ 127 ≤ n)
        (λ k. (k ≡ n) × (k < 2 ^ 127)) }
{
    match x.numerator_size().checked_mul(grid / x.denominator()) {
        Some(n) if n < PAST_LARGEST => Some(n),
        _ => None,
    }
}

/// n / grid.
fn on_grid(n: u128, grid: u128) -> Frac
    requires some { 0 < grid }
    requires top { n < 2 ^ 127 }
    requires bottom { grid < 2 ^ 127 }
    ensures { result *ℚ int (pos grid) ≡ int (pos n) }
{
    match Frac::div(whole(n), whole(grid)) {
        Ok(x) => x,
        Err(_) => Frac::zero(),
    }
}
