//! Exact numbers from 0 on.

ghost use Rattle.std.specs.Prelude.{◌≡◌, ◌+◌, ◌*◌, ◌-◌, ◌/◌, ◌^◌, ◌<◌, ◌≤◌, length, option_map, IfSome, nat_le, ◌==◌};
ghost use Rattle.std.specs.List.{position};
ghost use Rattle.fraction128.specs.Text.{is_slash};
ghost use Rattle.table_cells.specs.Amounts as spec;

use fraction128::read_digits;

/// How many digits a number has at most: on each side of a slash, or in all.
const MOST_DIGITS: usize = 18;

/// A number from 0 on, exact: `top` over `bottom`, which is not 0.
#[derive(Clone, Copy)]
pub struct Amount {
    pub top: u64,
    pub bottom: u64,
}

// The number that 1 to 18 digits write.
fn few_digits(digits: &[u8]) -> Option<u64>
    ensures value { result ≡ spec.few_digits digits.now }
    ensures short { IfSome result (λ n. n < 10 ^ length digits.now) }
    ensures range { IfSome result (λ n. n < 10 ^ spec.most_digits) }
{
    if digits.len() > MOST_DIGITS {
        return None;
    }
    let n = read_digits(digits)?;
    Some(n as u64)
}

// `top/bottom`.
fn fraction(top: &[u8], bottom: &[u8]) -> Option<Amount>
    ensures value { result ≡ spec.fraction top.now bottom.now }
    ensures range { IfSome result spec.IsAmount }
{
    let top = few_digits(top)?;
    let bottom = few_digits(bottom)?;
    if bottom == 0 {
        return None;
    }
    Some(Amount { top, bottom })
}

// `whole.after`, where nothing may stand after the point.
fn decimal(whole: &[u8], after: &[u8]) -> Option<Amount>
    ensures value { result ≡ spec.decimal whole.now after.now }
    ensures range { IfSome result spec.IsAmount }
{
    if after.len() > MOST_DIGITS || whole.len() + after.len() > MOST_DIGITS {
        return None;
    }
    let front = few_digits(whole)?;
    if after.is_empty() {
        return Some(Amount {
            top: front,
            bottom: 1,
        });
    }
    let back = few_digits(after)?;
    let bottom = 10u64.pow(after.len() as u32);
    Some(Amount {
        top: front * bottom + back,
        bottom,
    })
}

fn find_slash(text: &[u8]) -> Option<usize>
    ensures value { result ≡ position is_slash text.now }
    ensures within { IfSome result (λ at. at < length text.now) }
{
    text.iter().position(|b| *b == b'/')
}

fn find_point(text: &[u8]) -> Option<usize>
    ensures value { result ≡ position spec.is_point text.now }
    ensures within { IfSome result (λ at. at < length text.now) }
{
    text.iter().position(|b| *b == b'.')
}

impl Amount {
    /// The number that a text writes: digits, digits with a point behind or between them, or a fraction of digits; at
    /// most 18 digits on each side of the slash, or in all. Nothing where it is no such number or over 0.
    pub fn parse(text: &[u8]) -> Option<Amount>
        ensures value { result ≡ spec.amount_in text.now }
        ensures range { IfSome result spec.IsAmount }
    {
        if let Some(at) = find_slash(text) {
            return fraction(&text[..at], &text[at + 1..]);
        }
        match find_point(text) {
            Some(at) => decimal(&text[..at], &text[at + 1..]),
            None => decimal(text, b""),
        }
    }

    /// A whole number.
    pub fn whole(top: u64) -> Amount
        ensures { result ≡ spec.whole top }
    {
        Amount { top, bottom: 1 }
    }

    /// Whether it is at most a whole number.
    pub fn is_at_most(self, most: u64) -> bool
        ensures { result ≡ spec.is_at_most self most }
    {
        self.top as u128 <= most as u128 * self.bottom as u128
    }

    /// Whether so many of it are at least one: a thousandth is, at a thousand.
    pub fn reaches_one(self, times: u64) -> bool
        ensures { result ≡ spec.reaches_one self times }
    {
        self.top as u128 * times as u128 >= self.bottom as u128
    }

    /// Whether it is at most another.
    pub fn is_within(self, other: Amount) -> bool
        ensures { result ≡ spec.is_within self other }
    {
        self.top as u128 * other.bottom as u128 <= other.top as u128 * self.bottom as u128
    }

    /// Whether the two are one number.
    pub fn equals(self, other: Amount) -> bool
        ensures { result ≡ spec.equals self other }
    {
        self.top as u128 * other.bottom as u128 == other.top as u128 * self.bottom as u128
    }

    /// Whether so many of it are a whole number.
    pub fn is_whole(self, times: u64) -> bool
        requires { 0 < self.bottom }
        ensures { result ≡ spec.is_whole times self }
    {
        self.top as u128 * times as u128 % self.bottom as u128 == 0
    }

    /// So many of it, rounded down.
    pub fn rounded_down(self, times: u64) -> u64
        requires some { 0 < self.bottom }
        requires fits { spec.rounded_down times self < 2 ^ 64 }
        ensures { result ≡ spec.rounded_down times self }
    {
        (self.top as u128 * times as u128 / self.bottom as u128) as u64
    }

    /// So many of it, rounded up.
    pub fn rounded_up(self, times: u64) -> u64
        requires some { 0 < self.bottom }
        requires fits { spec.rounded_up times self < 2 ^ 64 }
        ensures { result ≡ spec.rounded_up times self }
    {
        ((self.top as u128 * times as u128 + (self.bottom as u128 - 1))
            / self.bottom as u128) as u64
    }
}

/// The whole number that 1 to 18 digits write.
pub fn whole_in(text: &[u8]) -> Option<u64>
    ensures value { result ≡ spec.few_digits text.now }
    ensures range { IfSome result (λ n. n < 10 ^ spec.most_digits) }
{
    few_digits(text)
}
