//! Sums of products.

ghost use Rattle.std.specs.Prelude.{◌≡◌, ◌<◌, ◌≤◌, ◌+◌, MatchOption, length, pos};
ghost use Rattle.std.specs.List.{AllByRecursion};
ghost use Rattle.arrayvec.specs.ArrayVec.{array_vec_len};
ghost use Rattle.rational.specs.Rational.{ℚ, int, ◌+ℚ◌, ◌*ℚ◌, ◌≤ℚ◌};
ghost use Rattle.rational.specs.Ratio.{IsSmall};
ghost use Rattle.fraction128.specs.wide_sums.Factors.{IsFactor};
ghost use Rattle.fraction128.specs.wide_sums.Sums.{IsFromZero, sum_of_products, IsSumOf, HasRoom};

use crate::wide_sums::lowest::reduce;
use crate::wide_sums::words::{Words, small_number, times_both_plus};
use crate::{Frac, quotient};
use arrayvec::ArrayVec;

/// How many products a sum may have: a network has at most so many servers.
pub const MOST_PRODUCTS: usize = 64;

/// How many factors the denominators of so many products are: two of each.
const MOST_FACTORS: usize = 2 * MOST_PRODUCTS;

/// Two factors of a product.
#[derive(Debug, Clone, Copy)]
pub struct Product {
    /// The one.
    pub left: Frac,
    /// The other.
    pub right: Frac,
}

impl Default for Product {
    ghost is_default = { λ p. (p.left ≡ int (pos 0)) × (p.right ≡ int (pos 0)) };

    fn default() -> Product {
        Product {
            left: Frac::zero(),
            right: Frac::zero(),
        }
    }
}

/// A sum, as a wide number over the product of factors.
#[derive(Drop)]
struct WideSum {
    /// The number.
    top: Words,
    /// The product of the factors.
    bottom: Words,
    /// The factors.
    factors: ArrayVec<u128, MOST_FACTORS>,
}

/// Nothing yet.
fn nothing() -> WideSum
    ensures sum { IsSumOf (int (pos 0)) result }
    ensures room { HasRoom result }
    ensures none { array_vec_len result.factors ≡ 0 }
{
    let mut bottom = Words::new();
    bottom.push(1);
    WideSum {
        top: Words::new(),
        bottom,
        factors: ArrayVec::new(),
    }
}

/// Adds a product. One whose first factor is 0 takes no work.
fn add_product(sum: &mut WideSum, product: Product)
    requires from_zero { IsFromZero product }
    requires room { HasRoom sum.old }
    requires few { array_vec_len sum.old.factors + 2 ≤ MOST_FACTORS }
    ensures sum { (s : ℚ) → IsSumOf s sum.old → IsSumOf (product.left *ℚ product.right +ℚ s) sum.new }
    ensures room { HasRoom sum.new }
    ensures more { array_vec_len sum.new.factors ≤ array_vec_len sum.old.factors + 2 }
{
    let (left, right) = (product.left, product.right);
    if left == Frac::zero() {
        return;
    }
    let (below, under) = (left.denominator(), right.denominator());
    let own = times_both_plus(
        &sum.bottom,
        left.numerator_size(),
        right.numerator_size(),
        &[],
    );
    let top = times_both_plus(&sum.top, below, under, &own);
    let bottom = times_both_plus(&sum.bottom, below, under, &[]);
    sum.top = top;
    sum.bottom = bottom;
    sum.factors.push(below);
    sum.factors.push(under);
}

/// The fraction, where it has one.
fn total(sum: WideSum) -> Option<Frac>
    requires { AllByRecursion IsFactor sum.factors.items }
    ensures { (s : ℚ) → IsSumOf s sum → MatchOption result (¬ (IsSmall s)) (λ f. f ≡ s) }
{
    let lowest = reduce(sum.top, &sum.factors);
    match small_number(&lowest.top) {
        Some(top) => {
            if lowest.bottom >= 1 << 127 {
                return None;
            }
            Some(quotient(
                Frac::from_whole(top as i128),
                Frac::from_whole(lowest.bottom as i128),
            ))
        }
        None => None,
    }
}

/// The sum of at most 64 products of fractions that are at least 0, exactly, however wide the numbers on the way: None
/// exactly where the sum itself, in lowest terms, has a numerator or a denominator above 2^127 - 1. It takes no memory.
/// (Own choice.)
pub fn sum_of_products(products: &[Product]) -> Option<Frac>
    requires from_zero { AllByRecursion IsFromZero products.now }
    requires few { length products.now ≤ MOST_PRODUCTS }
    ensures { let sum = sum_of_products products.now in
        MatchOption result (¬ (IsSmall sum)) (λ f. f ≡ sum) }
{
    let mut sum = nothing();
    for place in (0..products.len()).rev() {
        add_product(&mut sum, products[place]);
    }
    total(sum)
}
