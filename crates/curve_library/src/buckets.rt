//! Token buckets.

ghost use Rattle.std.specs.Prelude.{◌≡◌, ◌⊎◌, ◌↔◌, IfOk, IfErr, Err};
ghost use Rattle.rational.specs.Rational.{ℚ, ◌≤ℚ◌};
ghost use Rattle.upp_curve.specs.Curve.{value_at};
ghost use Rattle.min_plus.specs.Functions.{zero_q};
ghost use Rattle.upp_curve.specs.Kinds.{bucket};
ghost use Rattle.min_plus.specs.Formulas.{bucket_value};
ghost use Rattle.curve_library.specs.Causes.{OneNegative};

use crate::fault::CurveFault;
use crate::formed::piece;
use crate::signs::is_negative;
use fraction128::Frac;
use std::alloc::Global;
use upp_curve::{Curve, Tail};

// A bucket whose numbers may have any sign.
fn any_bucket(alloc: Global, burst: Frac, rate: Frac) -> Result<Curve, CurveFault>
    ensures made { IfOk result (λ c. c ≡ bucket burst rate) }
    ensures refused { IfErr result (λ e. e ≡ CurveFault.NoMemory) }
{
    let _sizes = (burst.numerator(), burst.denominator());
    let pieces = [piece(Frac::zero(), burst, burst, rate)];
    match Vec::from_slice(alloc, &pieces) {
        Ok(pieces) => Ok(Curve::from_normal(pieces, Tail::Affine { rank: Frac::zero() })),
        Err(_) => Err(CurveFault::NoMemory),
    }
}

/// A token bucket: burst + rate t at each time t from 0 on. Refused with Negative exactly where the burst or the
/// rate is below 0; else only for want of memory, however wide the numbers are.
pub fn bucket(alloc: Global, burst: Frac, rate: Frac) -> Result<Curve, CurveFault>
    ensures made { IfOk result (λ c. c ≡ bucket burst rate) }
    ensures value { IfOk result (λ c. (t : ℚ) → zero_q ≤ℚ t → value_at c t ≡ bucket_value burst rate t) }
    ensures negative { (result ≡ Err CurveFault.Negative) ↔ OneNegative burst rate }
    ensures refused { IfErr result (λ e. (e ≡ CurveFault.Negative) ⊎ (e ≡ CurveFault.NoMemory)) }
{
    if is_negative(burst) {
        return Err(CurveFault::Negative);
    }
    if is_negative(rate) {
        return Err(CurveFault::Negative);
    }
    any_bucket(alloc, burst, rate)
}
