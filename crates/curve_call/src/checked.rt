//! Steps that may not fit: none only where the step does not.

ghost use Rattle.std.specs.Prelude.{◌≡◌, ◌≢◌, pos, MatchOption};
ghost use Rattle.rational.specs.Rational.{int, ◌+ℚ◌, ◌-ℚ◌, ◌*ℚ◌, ◌/ℚ◌, neg_ℚ};
ghost use Rattle.rational.specs.Ratio.{IsSmall, SumFits};

use fraction128::Frac;

/// a + b, where it fits.
pub fn checked_sum(a: Frac, b: Frac) -> Option<Frac>
    ensures { MatchOption result (¬ (SumFits a b)) (λ s. s ≡ a +ℚ b) }
{
    match Frac::add(a, b) {
        Ok(sum) => Some(sum),
        Err(_) => None,
    }
}

/// a - b, where it fits.
pub fn checked_difference(a: Frac, b: Frac) -> Option<Frac>
    ensures { MatchOption result (¬ (SumFits a (neg_ℚ b))) (λ d. d ≡ a -ℚ b) }
{
    match Frac::sub(a, b) {
        Ok(difference) => Some(difference),
        Err(_) => None,
    }
}

/// a times b, where it fits.
pub fn checked_product(a: Frac, b: Frac) -> Option<Frac>
    ensures { MatchOption result (¬ (IsSmall (a *ℚ b))) (λ p. p ≡ a *ℚ b) }
{
    match Frac::mul(a, b) {
        Ok(product) => Some(product),
        Err(_) => None,
    }
}

/// a divided by b, where it fits.
pub fn checked_quotient(a: Frac, b: Frac) -> Option<Frac>
    requires { b ≢ int (pos 0) }
    ensures { MatchOption result (¬ (IsSmall (a /ℚ b))) (λ q. q ≡ a /ℚ b) }
{
    match Frac::div(a, b) {
        Ok(quotient) => Some(quotient),
        Err(_) => None,
    }
}
