//! The exact fraction.

ghost use Rattle.std.specs.Prelude.{refl, ◌≡◌, ◌≢◌, ◌↔◌, ◌<◌, ◌≤◌, ◌^◌, ℤ, pos, unsigned_abs, nat_abs, IsOk, IsErr, IfOk, IfErr, IsTrue, ◌++◌, OnOk, OnErr};
ghost use Rattle.std.specs.Ordering.{MatchOrdering, is_eq, as_partial_cmp};
ghost use Rattle.rational.specs.Rational.{ℚ, den, int, ◌+ℚ◌, ◌-ℚ◌, ◌*ℚ◌, ◌/ℚ◌, ◌≤ℚ◌, ◌<ℚ◌, neg_ℚ, inv_ℚ};
ghost use Rattle.rational.specs.Ratio.{ratio, with_sign, IsSmall, SumFits, cmp_q};
ghost use Rattle.fraction128.specs.Parts.{AreLowest};
ghost use Rattle.fraction128.specs.Fits.{wide_step};
ghost use Rattle.fraction128.specs.Text.{text_of, parse_of};
ghost use Rattle.fraction128.specs.Multiple.{common_multiple, IsLeastMultiple};
ghost use Rattle.rational.specs.Floor.{floor, ceil};
ghost use Rattle.rational.specs.Whole.{whole_part};
ghost use Rattle.rational.specs.Gauge.{size_up};
ghost use Rattle.fraction128.specs.declared.fault.Op.TheVariants.{Add, Sub, Mul, Div, Lcm};

use crate::division::{divide, gcd_of, quotient};
use crate::fault::{FracFault, FracText, Op, Wide};
use crate::multiple::multiple_of;
use crate::order::{compare_signed, whole_and_rest};
use crate::products::product_of;
use crate::sums::sum_of;
use crate::text::{parse_text, print_parts};
use rational::Extended;
use std::alloc::AllocError;
use std::cmp::Ordering;
use std::marker::Model;

/// The largest size of a numerator or denominator.
pub(crate) const LARGEST: u128 = i128::MAX as u128;

/// An exact fraction in lowest terms. The denominator is at least 1, and both numbers are at most
/// 2^127 - 1 in size. Contracts see it as a rational number.
#[derive(Debug, Clone, Copy)]
pub struct Frac {
    num: i128,
    den: u128,
}

impl Model for Frac {
    ghost use Rattle.rational.specs.Rational.{ℚ};
    ghost use Rattle.rational.specs.Ratio.{ℚ_code};

    ghost Value = { ℚ };

    ghost coded = { ℚ_code };

    ghost use Rattle.fraction128.specs.Inside.{IsLowest, value_of, fields_of, fields-value};

    ghost view = { value_of };

    ghost invariant = { IsLowest };

    ghost inverse = { fields_of };

    ghost inverse_ok = { fields-value };
}

/// A fraction, or infinity above all fractions.
pub type Ext = Extended<Frac>;

impl Frac {
    /// The fraction num / den. Refused where den is 0, and where a number of the lowest terms is too big.
    pub fn new(num: i128, den: i128) -> Result<Frac, FracFault>
        ensures zero { (result ≡ Err FracFault.ZeroDen) ↔ (den ≡ pos 0) }
        ensures big { (result ≡ Err FracFault.TooBig) ↔ ((den ≢ pos 0) × ¬ (IsSmall (ratio num den))) }
        ensures value { IfOk result (λ f. f ≡ ratio num den) }
    {
        if den == 0 {
            return Err(FracFault::ZeroDen);
        }
        let top = num.unsigned_abs();
        let bottom = den.unsigned_abs();
        let common = gcd_of(top, bottom);
        let size = quotient(top, common);
        let whole = quotient(bottom, common);
        if size > LARGEST || whole > LARGEST {
            return Err(FracFault::TooBig);
        }
        Ok(Frac {
            num: with_sign(num, den, size),
            den: whole,
        })
    }

    /// num / den in lowest terms.
    pub(crate) fn reduced(num: i128, den: u128) -> Frac
        requires some { 0 < den }
        requires top { unsigned_abs num < 2 ^ 127 }
        requires bottom { den < 2 ^ 127 }
        ensures { result ≡ ratio num (pos den) }
    {
        let size = num.unsigned_abs();
        let common = gcd_of(size, den);
        Frac {
            num: with_sign(num, 1, quotient(size, common)),
            den: quotient(den, common),
        }
    }

    /// The fraction of two numbers in lowest terms.
    #[inline]
    pub(crate) fn from_lowest(num: i128, den: u128) -> Frac
        requires { AreLowest num den }
        ensures { result ≡ ratio num (pos den) }
    {
        Frac { num, den }
    }

    /// The fraction that a text writes: `p` or `p/q`, where p is an optional minus
    /// sign and digits, and q is digits. Leading zeros are read.
    pub fn parse(text: &[u8]) -> Result<Frac, FracText>
        ensures { result ≡ parse_of text.now }
    {
        parse_text(text)
    }

    /// Appends `p`, or `p/q` where q is above 1, in lowest terms. After an error the vector is as it was.
    pub fn print(&self, into: &mut Vec<u8>) -> Result<(), AllocError>
        ensures ok { OnOk result (into.new.items ≡ into.old.items ++ text_of self.now) }
        ensures err { OnErr result (into.new.items ≡ into.old.items) }
    {
        print_parts(self.num, self.den, into)
    }

    /// 0.
    #[inline]
    pub fn zero() -> Frac
        ensures { result ≡ int (pos 0) }
    {
        Frac { num: 0, den: 1 }
    }

    /// 1.
    #[inline]
    pub fn one() -> Frac
        ensures { result ≡ int (pos 1) }
    {
        Frac { num: 1, den: 1 }
    }

    /// The whole number n.
    #[inline]
    pub fn from_whole(n: i128) -> Frac
        requires { unsigned_abs n < 2 ^ 127 }
        ensures { result ≡ int n }
    {
        Frac { num: n, den: 1 }
    }

    /// The numerator in lowest terms. It has the fraction's sign.
    #[inline]
    pub fn numerator(&self) -> i128
        ensures value { result ≡ self.now.num }
        ensures size { unsigned_abs result < 2 ^ 127 }
    {
        self.num
    }

    /// The size of the numerator in lowest terms.
    #[inline]
    pub fn numerator_size(&self) -> u128
        ensures value { result ≡ nat_abs self.now.num }
        ensures size { result < 2 ^ 127 }
    {
        self.numerator().unsigned_abs()
    }

    /// The denominator in lowest terms.
    #[inline]
    pub fn denominator(&self) -> u128
        ensures value { result ≡ den self.now }
        ensures some { 0 < result }
        ensures size { result < 2 ^ 127 }
    {
        self.den
    }

    /// The largest whole number that is at most this.
    #[inline]
    pub fn floor(self) -> i128
        ensures value { result ≡ floor self }
        ensures size { unsigned_abs result < 2 ^ 127 }
    {
        whole_and_rest(self.num, self.den).0
    }

    /// The least whole number that is at least this.
    #[inline]
    pub fn ceil(self) -> i128
        ensures value { result ≡ ceil self }
        ensures size { unsigned_abs result < 2 ^ 127 }
    {
        -self.negated().floor()
    }

    /// The largest whole number that is at most this, and 0 below 0, as a fraction.
    pub fn whole_part(self) -> Frac
        ensures { result ≡ int (pos (whole_part self)) }
    {
        if self.num < 0 {
            return Frac::zero();
        }
        Frac::from_whole(self.floor())
    }

    /// The least whole number that is at least the fraction's size.
    #[inline(always)]
    pub fn size_up(self) -> u128
        ensures { result ≡ size_up self }
    {
        if self.den == 1 {
            return self.num.unsigned_abs();
        }
        self.parts_up()
    }

    // A call of its own, so that only the size of a whole number is written out where it is called.
    #[inline(never)]
    fn parts_up(self) -> u128
        ensures { result ≡ size_up self }
    {
        let (whole, rest) = divide(self.num.unsigned_abs(), self.den);
        if rest == 0 { whole } else { whole + 1 }
    }

    /// The exact sum. Refused only where a cross product over the least common denominator, their
    /// sum or that denominator is above 2^127 - 1 in size.
    #[inline]
    pub fn add(a: Frac, b: Frac) -> Result<Frac, Wide>
        ensures value { IfOk result (λ f. f ≡ a +ℚ b) }
        ensures fits { SumFits a b → IsOk result }
        ensures step { IfErr result (λ w. w ≡ wide_step Add a b) }
    {
        match sum_of(a.num, a.den, b.num, b.den) {
            Some(f) => Ok(f),
            None => Err(Wide { op: Op::Add, a, b }),
        }
    }

    /// The exact difference. Refused as a sum is.
    #[inline]
    pub fn sub(a: Frac, b: Frac) -> Result<Frac, Wide>
        ensures value { IfOk result (λ f. f ≡ a -ℚ b) }
        ensures fits { SumFits a (neg_ℚ b) → IsOk result }
        ensures step { IfErr result (λ w. w ≡ wide_step Sub a b) }
    {
        let turned = b.negated();
        match sum_of(a.num, a.den, turned.num, turned.den) {
            Some(f) => Ok(f),
            None => Err(Wide { op: Op::Sub, a, b }),
        }
    }

    /// The exact product. Refused exactly where its lowest terms do not fit.
    #[inline]
    pub fn mul(a: Frac, b: Frac) -> Result<Frac, Wide>
        ensures value { IfOk result (λ f. f ≡ a *ℚ b) }
        ensures fits { IsOk result ↔ IsSmall (a *ℚ b) }
        ensures step { IfErr result (λ w. w ≡ wide_step Mul a b) }
    {
        match product_of(a.num, a.den, b.num, b.den) {
            Some(f) => Ok(f),
            None => Err(Wide { op: Op::Mul, a, b }),
        }
    }

    /// The exact quotient. Refused exactly where its lowest terms do not fit.
    pub fn div(a: Frac, b: Frac) -> Result<Frac, Wide>
        requires { b ≢ int (pos 0) }
        ensures value { IfOk result (λ f. f ≡ a /ℚ b) }
        ensures fits { IsOk result ↔ IsSmall (a /ℚ b) }
        ensures step { IfErr result (λ w. w ≡ wide_step Div a b) }
    {
        let turned = b.recip();
        match product_of(a.num, a.den, turned.num, turned.den) {
            Some(f) => Ok(f),
            None => Err(Wide { op: Op::Div, a, b }),
        }
    }

    /// The least fraction above 0 that is a whole multiple of both. Refused exactly where it does not fit.
    pub fn lcm_of(a: Frac, b: Frac) -> Result<Frac, Wide>
        requires left { int (pos 0) <ℚ a }
        requires right { int (pos 0) <ℚ b }
        ensures value { IfOk result (λ f. f ≡ common_multiple a b) }
        ensures least { IfOk result (IsLeastMultiple a b) }
        ensures fits { IsOk result ↔ IsSmall (common_multiple a b) }
        ensures step { IfErr result (λ w. w ≡ wide_step Lcm a b) }
    {
        match multiple_of(a.num.unsigned_abs(), a.den, b.num.unsigned_abs(), b.den) {
            Some(f) => Ok(f),
            None => Err(Wide { op: Op::Lcm, a, b }),
        }
    }

    /// The fraction below 0 as far as this is above.
    #[inline]
    pub fn negated(self) -> Frac
        ensures { result ≡ neg_ℚ self }
    {
        Frac {
            num: -self.num,
            den: self.den,
        }
    }

    /// One over this.
    pub fn recip(self) -> Frac
        requires { self ≢ int (pos 0) }
        ensures { result ≡ inv_ℚ self }
    {
        Frac {
            num: with_sign(self.num, 1, self.den),
            den: self.num.unsigned_abs(),
        }
    }
}

impl From<i64> for Frac {
    ghost from_gives = { λ n f. f ≡ int n };

    fn from(n: i64) -> Frac {
        Frac::from_whole(n as i128)
    }
}

impl From<u64> for Frac {
    ghost from_gives = { λ n f. f ≡ int (pos n) };

    fn from(n: u64) -> Frac {
        Frac::from_whole(n as i128)
    }
}

/// The size with the sign of num / den.
#[inline]
pub(crate) fn with_sign(num: i128, den: i128, size: u128) -> i128
    requires { size < 2 ^ 127 }
    ensures { result ≡ with_sign num den size }
{
    if (num < 0) == (den < 0) {
        size as i128
    } else {
        -(size as i128)
    }
}

#[inline]
fn are_same(a: i128, d: u128, b: i128, e: u128) -> bool
    ensures { IsTrue result ↔ ((a ≡ b) × (d ≡ e)) }
{
    a == b && d == e
}

impl PartialEq for Frac {
    ghost use Rattle.rational.specs.Compared.{same_q};
    ghost use Rattle.rational.proofs.OrderLaws.{same_q_partial};

    ghost eq = { same_q };

    ghost laws = { same_q_partial };

    #[inline]
    fn eq(&self, other: &Frac) -> bool
        ensures is { result ≡ same_q self.now other.now }
        ensures same { IsTrue result ↔ (self.now ≡ other.now) }
    {
        are_same(self.num, self.den, other.num, other.den)
    }
}

impl Eq for Frac {
    ghost use Rattle.rational.proofs.OrderLaws.{same_q_equivalence};

    ghost laws = { same_q_equivalence };
}

impl PartialOrd for Frac {
    ghost use Rattle.rational.specs.Compared.{partial_cmp_q};
    ghost use Rattle.rational.proofs.OrderLaws.{partial_cmp_q_order};

    ghost partial_cmp = { partial_cmp_q };

    ghost laws = { partial_cmp_q_order };

    fn partial_cmp(&self, other: &Frac) -> Option<Ordering> {
        Some(self.cmp(other))
    }
}

impl Ord for Frac {
    ghost use Rattle.rational.proofs.OrderLaws.{cmp_q_total};

    ghost cmp = { cmp_q };

    ghost total = { cmp_q_total };

    ghost matches_partial_cmp = { λ x y. refl };

    ghost matches_eq = { λ x y. refl };

    /// The order of the two: by the cross products where these fit, else by whole parts and reciprocals.
    #[inline]
    fn cmp(&self, other: &Frac) -> Ordering
        ensures is { result ≡ cmp_q self.now other.now }
        ensures ranks { MatchOrdering result (self.now <ℚ other.now) (self.now ≡ other.now) (other.now <ℚ self.now) }
    {
        compare_signed(self.num, self.den, other.num, other.den)
    }
}
