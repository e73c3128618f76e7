//! A wide number over a product of factors, in lowest terms.

ghost use Rattle.std.specs.Prelude.{◌≡◌, ◌<◌, ◌^◌, ◌*◌, ◌≤◌};
ghost use Rattle.std.specs.List.{AllByRecursion};
ghost use Rattle.fraction128.specs.wide_sums.Words.{number};
ghost use Rattle.fraction128.specs.wide_sums.Factors.{IsFactor, product, IsReduced};

use crate::gcd_of;
use crate::wide_sums::words::{Words, divide};

/// The two numbers of a fraction in lowest terms.
#[derive(Drop)]
pub(crate) struct Lowest {
    /// The numerator, as its words.
    pub top: Words,
    /// The denominator, and the largest number where it is past that.
    pub bottom: u128,
}

/// The number over the product of the factors. What each factor has in common with the number is taken out of both.
pub(crate) fn reduce(whole: Words, factors: &[u128]) -> Lowest
    requires { AllByRecursion IsFactor factors.now }
    ensures { IsReduced (number whole.items) (product factors.now) (number result.top.items) result.bottom }
{
    let mut top = whole;
    let mut bottom: u128 = 1;
    for factor in factors {
        let common = gcd_of(divide(&top, *factor).rest, *factor);
        top = divide(&top, common).quotient;
        bottom = bottom.saturating_mul(*factor / common);
    }
    Lowest { top, bottom }
}
