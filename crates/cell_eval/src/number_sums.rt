//! Sums of numbers, with limits of their own.

ghost use Rattle.std.specs.Prelude.{◌≡◌, ◌≤◌, ◌^◌, ◌++◌, List, [], ◌∷◌, length, IfSome, IfNone, IfOk, IsOk, IsSome};
ghost use Rattle.std.specs.Prelude.{MatchBool, false};
ghost use Rattle.rational.specs.Rational.{ℚ};
ghost use Rattle.rational.specs.Extended.{Ext};
ghost use Rattle.net_cells.specs.NumberSums.{Sums, has_infinite, finite};
ghost use Rattle.cell_eval.specs.Tallies.{Tallies, IsTallied, AreAdded, IsNarrow, size_of};

use fraction128::{Ext, Frac, Wide, least_common_multiple};
use rational::Extended;
use std::cmp::Ordering;
use upp_limits::OpFault;

/// Of the numbers so far: their least common denominator, their sizes together, and their sum.
#[derive(Clone, Copy)]
pub struct Tally {
    pub den: u128,
    pub sizes: Frac,
    pub sum: Frac,
}

// The size of a number.
fn size(x: Frac) -> Frac
    ensures { result ≡ size_of x }
{
    let none = Frac::zero();
    match none.cmp(&x) {
        Ordering::Greater => x.negated(),
        _ => x,
    }
}

// The parts of a tally, where both sums fit.
fn joined(den: u128, sizes: Result<Frac, Wide>, sum: Result<Frac, Wide>) -> Option<Tally>
    ensures some { (s p : ℚ) → IfOk sizes (λ q. q ≡ s) → IfOk sum (λ q. q ≡ p) →
        IfSome result (λ t. (t.den ≡ den) × (t.sizes ≡ s) × (t.sum ≡ p)) }
    ensures none { IsOk sizes → IsOk sum → IsSome result }
{
    match sizes {
        Ok(together) => match sum {
            Ok(plain) => Some(Tally {
                den,
                sizes: together,
                sum: plain,
            }),
            Err(_) => None,
        },
        Err(_) => None,
    }
}

// One number more; none only where the gauge of all is too large.
fn with_number(so_far: Tally, x: Frac) -> Option<Tally>
    ensures some { (xs : List ℚ) → Tallies xs so_far → IfSome result (Tallies (xs ++ x ∷ [])) }
    ensures none { (xs rest : List ℚ) → Tallies xs so_far → IfNone result (¬ (IsNarrow (xs ++ x ∷ rest))) }
{
    let sizes = Frac::add(so_far.sizes, size(x));
    let sum = Frac::add(so_far.sum, x);
    match least_common_multiple(so_far.den, x.denominator()) {
        Some(den) => joined(den, sizes, sum),
        None => None,
    }
}

// The same, where the gauge was not too large before.
fn with_finite(so_far: Option<Tally>, x: Frac) -> Option<Tally>
    ensures { (xs : List ℚ) → IsTallied xs so_far → IsTallied (xs ++ x ∷ []) result }
{
    match so_far {
        Some(tally) => with_number(tally, x),
        None => None,
    }
}

/// Numbers that are added up: whether one is infinite, and the others together, while their gauge may be over no limit.
#[derive(Clone, Copy)]
pub struct Added {
    pub infinite: bool,
    pub tally: Option<Tally>,
}

/// No number.
pub fn no_number() -> Added
    ensures { AreAdded [] result }
{
    Added {
        infinite: false,
        tally: Some(Tally {
            den: 1,
            sizes: Frac::zero(),
            sum: Frac::zero(),
        }),
    }
}

/// One number more.
pub fn and(so_far: Added, x: Ext) -> Added
    ensures { (xs : List Ext) → AreAdded xs so_far → AreAdded (xs ++ x ∷ []) result }
{
    match x {
        Extended::Inf => Added {
            infinite: true,
            tally: so_far.tally,
        },
        Extended::Fin(y) => Added {
            infinite: so_far.infinite,
            tally: with_finite(so_far.tally, y),
        },
    }
}

// Whether their gauge is too large.
fn is_wide(so_far: &Tally) -> bool
    ensures { (xs : List ℚ) → Tallies xs so_far.now → MatchBool result (¬ (IsNarrow xs)) (IsNarrow xs) }
{
    match so_far.sizes.size_up().max(1).checked_mul(so_far.den) {
        Some(product) => product >= 1 << 114,
        None => true,
    }
}

// The sum of numbers that are not infinite.
fn finite_sum(all: Option<Tally>) -> Result<Ext, OpFault>
    ensures { (xs : List Ext) → length xs ≤ 2 ^ 20 → has_infinite xs ≡ false → IsTallied (finite xs) all →
        Sums xs result }
{
    match all {
        Some(tally) => {
            if is_wide(&tally) {
                Err(OpFault::TooWide)
            } else {
                Ok(Extended::Fin(tally.sum))
            }
        }
        None => Err(OpFault::TooWide),
    }
}

/// The sum of at most 2^20 numbers, infinite where one of them is. Refused with TooWide exactly where 64 times their
/// sizes together, rounded up and at least 1, times their least common denominator is 2^120 or more; where one is
/// infinite it is not refused.
pub fn sum_of(all: Added) -> Result<Ext, OpFault>
    ensures { (xs : List Ext) → length xs ≤ 2 ^ 20 → AreAdded xs all → Sums xs result }
{
    if all.infinite {
        return Ok(Extended::Inf);
    }
    finite_sum(all.tally)
}
