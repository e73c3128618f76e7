//! Steps of arithmetic that may not fit.

ghost use Rattle.std.specs.Prelude.{◌≡◌, ◌≢◌, pos, IfSome, IsSome};
ghost use Rattle.rational.specs.Rational.{int, ◌+ℚ◌, ◌-ℚ◌, neg_ℚ, ◌/ℚ◌};
ghost use Rattle.rational.specs.Ratio.{IsSmall, SumFits};

use fraction128::Frac;

/// a + b, where it fits.
pub fn plus(a: Frac, b: Frac) -> Option<Frac>
    ensures value { IfSome result (λ f. f ≡ a +ℚ b) }
    ensures fits { SumFits a b → IsSome result }
{
    match Frac::add(a, b) {
        Ok(sum) => Some(sum),
        Err(_) => None,
    }
}

/// a - b, where it fits.
pub fn minus(a: Frac, b: Frac) -> Option<Frac>
    ensures value { IfSome result (λ f. f ≡ a -ℚ b) }
    ensures fits { SumFits a (neg_ℚ b) → IsSome result }
{
    match Frac::sub(a, b) {
        Ok(difference) => Some(difference),
        Err(_) => None,
    }
}

/// a / b, where it fits.
pub fn over(a: Frac, b: Frac) -> Option<Frac>
    requires { b ≢ int (pos 0) }
    ensures value { IfSome result (λ f. f ≡ a /ℚ b) }
    ensures fits { IsSmall (a /ℚ b) → IsSome result }
{
    match Frac::div(a, b) {
        Ok(quotient) => Some(quotient),
        Err(_) => None,
    }
}
