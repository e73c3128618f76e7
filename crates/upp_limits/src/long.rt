//! Whole numbers below 2^512, for comparisons whose products do not fit 128 bits.

ghost use Rattle.std.specs.Prelude.{ℕ, ◌≡◌, ◌+◌, ◌*◌, ◌<◌, ◌≤◌, ◌^◌, ◌↔◌, IsTrue};
ghost use Rattle.upp_limits.specs.Long.{long_value};

/// A whole number by its digits to the base 2^128, the lowest first.
#[derive(Clone, Copy)]
pub(crate) struct Long {
    pub ones: u128,
    pub twos: u128,
    pub threes: u128,
    pub fours: u128,
}

/// 2^64.
const HALF: u128 = 1 << 64;

/// The low and the high 64 bits.
#[inline]
fn halves(x: u128) -> (u64, u64)
    ensures { result.0 + 2 ^ 64 * result.1 ≡ x }
{
    ((x % HALF) as u64, (x / HALF) as u64)
}

/// a m + c + d, by its low and its high 64 bits.
#[inline]
fn short_step(a: u64, m: u64, c: u64, d: u64) -> (u64, u64)
    ensures { result.0 + 2 ^ 64 * result.1 ≡ a * m + c + d }
{
    let product = u128::from(a) * u128::from(m) + u128::from(c) + u128::from(d);
    halves(product)
}

/// low + 2^64 high.
#[inline]
fn whole(low: u64, high: u64) -> u128
    ensures { result ≡ low + 2 ^ 64 * high }
{
    u128::from(low) + HALF * u128::from(high)
}

/// a m + c, by its low and its high 128 bits.
fn long_step(a: u128, m: u128, c: u128) -> (u128, u128)
    ensures { result.0 + 2 ^ 128 * result.1 ≡ a * m + c }
{
    let (a_low, a_high) = halves(a);
    let (m_low, m_high) = halves(m);
    let (c_low, c_high) = halves(c);
    let (first, over) = short_step(a_low, m_low, c_low, 0);
    let (middle, above) = short_step(a_low, m_high, over, c_high);
    let (second, more) = short_step(a_high, m_low, middle, 0);
    let (third, fourth) = short_step(a_high, m_high, above, more);
    (whole(first, second), whole(third, fourth))
}

/// a + b + c for a c of at most 1, by its low 128 bits and what is carried.
fn sum_step(a: u128, b: u128, c: u128) -> (u128, u128)
    requires { c ≤ 1 }
    ensures sum { result.0 + 2 ^ 128 * result.1 ≡ a + b + c }
    ensures carry { result.1 ≤ 1 }
{
    let room = u128::MAX - a;
    if b < room {
        (a + b + c, 0)
    } else if b > room {
        (b - room - 1 + c, 1)
    } else if c == 0 {
        (u128::MAX, 0)
    } else {
        (0, 1)
    }
}

impl Long {
    /// The number x.
    pub(crate) fn of(x: u128) -> Long
        ensures { long_value result ≡ x }
    {
        Long {
            ones: x,
            twos: 0,
            threes: 0,
            fours: 0,
        }
    }

    /// The product with m, where that is below 2^512.
    pub(crate) fn times(self, m: u128) -> Long
        ensures { long_value self * m < 2 ^ 512 → long_value result ≡ long_value self * m }
    {
        let (ones, over) = long_step(self.ones, m, 0);
        let (twos, over) = long_step(self.twos, m, over);
        let (threes, over) = long_step(self.threes, m, over);
        let (fours, _) = long_step(self.fours, m, over);
        Long {
            ones,
            twos,
            threes,
            fours,
        }
    }

    /// The sum, where that is below 2^512.
    pub(crate) fn plus(self, other: Long) -> Long
        ensures { long_value self + long_value other < 2 ^ 512
            → long_value result ≡ long_value self + long_value other }
    {
        let (ones, over) = sum_step(self.ones, other.ones, 0);
        let (twos, over) = sum_step(self.twos, other.twos, over);
        let (threes, over) = sum_step(self.threes, other.threes, over);
        let (fours, _) = sum_step(self.fours, other.fours, over);
        Long {
            ones,
            twos,
            threes,
            fours,
        }
    }

    /// Whether this is the lesser one.
    pub(crate) fn is_less(self, other: Long) -> bool
        ensures { IsTrue result ↔ (long_value self < long_value other) }
    {
        if self.fours != other.fours {
            return self.fours < other.fours;
        }
        if self.threes != other.threes {
            return self.threes < other.threes;
        }
        if self.twos != other.twos {
            return self.twos < other.twos;
        }
        self.ones < other.ones
    }
}
