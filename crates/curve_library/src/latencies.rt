//! A rate after a latency.

ghost use Rattle.std.specs.Prelude.{◌≡◌, ◌≢◌, IfOk, Err};
ghost use Rattle.rational.specs.Rational.{ℚ, ◌≤ℚ◌, ◌<ℚ◌};
ghost use Rattle.upp_curve.specs.Curve.{value_at};
ghost use Rattle.min_plus.specs.Functions.{zero_q};
ghost use Rattle.upp_curve.specs.Kinds.{after_latency, rate_latency};
ghost use Rattle.min_plus.specs.Formulas.{rate_latency_value};
ghost use Rattle.upp_limits.specs.declared.own_limits.OverLimit.TheVariants.{TooMany};
ghost use Rattle.curve_library.specs.Causes.{OneNegative, KeepsOwnLimits, KeepsCauses, AnswersFirst};

use crate::fault::CurveFault;
use crate::formed::{flat, of_normal, piece, straight};
use crate::signs::{is_negative, is_positive};
use fraction128::Frac;
use std::alloc::Global;
use upp_curve::{Curve, Tail};
use upp_limits::OverLimit;

// A rate above 0 after a latency above 0. Where their product does not fit, the gauge is past its limit.
fn after_latency(alloc: Global, rate: Frac, latency: Frac) -> Result<Curve, CurveFault>
    requires rate { zero_q <ℚ rate }
    requires latency { zero_q <ℚ latency }
    ensures { KeepsOwnLimits (after_latency rate latency) result }
{
    let zero = Frac::zero();
    match Frac::mul(rate, latency) {
        Ok(missed) => {
            let pieces = [
                flat(zero, zero),
                piece(latency, zero, missed.negated(), rate),
            ];
            of_normal(alloc, &pieces, Tail::Affine { rank: latency })
        }
        Err(_) => Err(CurveFault::Op(OverLimit::TooWide)),
    }
}

// A rate and a latency that are both 0 or more.
fn nonneg_rate_latency(alloc: Global, rate: Frac, latency: Frac) -> Result<Curve, CurveFault>
    requires rate { zero_q ≤ℚ rate }
    requires latency { zero_q ≤ℚ latency }
    ensures { KeepsOwnLimits (rate_latency rate latency) result }
{
    if !is_positive(latency) {
        return straight(alloc, rate);
    }
    if !is_positive(rate) {
        return straight(alloc, rate);
    }
    after_latency(alloc, rate, latency)
}

// The same, of numbers of any sign.
fn tested_rate_latency(alloc: Global, rate: Frac, latency: Frac) -> Result<Curve, CurveFault>
    ensures { KeepsCauses (OneNegative rate latency) ⊥ (rate_latency rate latency) result }
{
    if is_negative(rate) {
        return Err(CurveFault::Negative);
    }
    if is_negative(latency) {
        return Err(CurveFault::Negative);
    }
    nonneg_rate_latency(alloc, rate, latency)
}

/// A rate after a latency: rate max (0, t - latency) at each time t from 0 on. Refused with Negative exactly where
/// the rate or the latency is below 0, and with TooWide exactly where that is not so and the curve's own gauge is
/// 2^120 or more.
pub fn rate_latency(alloc: Global, rate: Frac, latency: Frac) -> Result<Curve, CurveFault>
    ensures causes { KeepsCauses (OneNegative rate latency) ⊥ (rate_latency rate latency) result }
    ensures first { AnswersFirst (OneNegative rate latency) ⊥ (rate_latency rate latency) result }
    ensures value { IfOk result (λ c. (t : ℚ) → zero_q ≤ℚ t → value_at c t ≡ rate_latency_value rate latency t) }
    ensures few { result ≢ Err (CurveFault.Op TooMany) }
{
    tested_rate_latency(alloc, rate, latency)
}
