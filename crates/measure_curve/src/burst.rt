//! The least bucket of a rate above a curve.

ghost use Rattle.std.specs.Prelude.{◌≡◌, IfOk};
ghost use Rattle.rational.specs.Rational.{◌≤ℚ◌};
ghost use Rattle.rational.specs.declared.Extended.TheVariants as extended;
ghost use Rattle.min_plus.specs.Functions.{zero_q, IsFinite};
ghost use Rattle.min_plus.specs.Deviations.{IsVerticalDeviation};
ghost use Rattle.outcomes.specs.Spending.{SpendsSteps};
ghost use Rattle.outcomes.specs.Stages.{IsEqual};
ghost use Rattle.upp_curve.specs.Curve.{value_at};
ghost use Rattle.upp_curve.specs.Kinds.{bucket};
ghost use Rattle.measure_curve.specs.Bursts.{IsBounded, IsLeastBurst, KeepsBurstLimits};

use curve_deviation::vertical;
use fraction128::Frac;
use outcomes::Steps;
use rational::Extended;
use std::alloc::{AllocError, Global};
use std::sync::ledger::Ledger;
use upp_curve::Curve;
use upp_limits::OpFault;

/// The line of this slope from 0 at 0.
fn line_of(alloc: Global, rate: Frac) -> Result<Curve, AllocError>
    requires { zero_q ≤ℚ rate }
    ensures is { IfOk result (λ c. c ≡ bucket zero_q rate) }
    ensures finite { IfOk result (λ c. IsFinite (value_at c)) }
{
    match curve_library::bucket(alloc, Frac::zero(), rate) {
        Ok(line) => Ok(line),
        Err(_) => Err(AllocError),
    }
}

/// The least burst with which a bucket of this rate is nowhere below a curve that is a number at each time and stays
/// below some number: the vertical deviation of the curve and of the line of that rate. One step is counted, where
/// the line does not want memory; none where it does, and else there is no want of memory. TooMany and TooWide are those
/// of the vertical deviation.
pub fn least_burst<L: Ledger>(
    curve: &Curve,
    rate: Frac,
    steps: &mut Steps<L>,
) -> Result<Frac, OpFault>
    requires bounded { IsBounded (value_at curve.now) }
    requires rate { zero_q ≤ℚ rate }
    ensures spends { SpendsSteps (IsEqual 1) OpFault.NoMemory (IsEqual 0) steps.old steps.new result }
    ensures value { IfOk result (λ b.
        IsVerticalDeviation (value_at curve.now) (value_at (bucket zero_q rate)) (extended.Fin b)) }
    ensures least { IfOk result (IsLeastBurst (value_at curve.now) rate) }
    ensures limits { KeepsBurstLimits curve.now rate result }
{
    let line = line_of(curve.allocator(), rate)?;
    match vertical(curve, &line, steps)? {
        Extended::Fin(burst) => Ok(burst),
        Extended::Inf => unreachable!(),
    }
}
