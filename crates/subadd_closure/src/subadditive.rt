//! Whether a curve is subadditive.

ghost use Rattle.std.specs.Prelude.{◌+◌, ◌≤◌, ◌↔◌, IfOk, IsTrue};
ghost use Rattle.upp_curve.specs.Curve.{value_at};
ghost use Rattle.min_plus.specs.Convolution.{IsSubadditive};
ghost use Rattle.outcomes.specs.Stages.{IsEqual};
ghost use Rattle.outcomes.specs.Spending.{SpendsSteps};
ghost use Rattle.subadd_closure.specs.Tests.{TestsSubadditive, TestWants};

use curve_call::intact;
use curve_conv::convolve;
use outcomes::Steps;
use plain_operators::pointwise::min;
use std::alloc::Global;
use std::sync::ledger::Ledger;
use upp_curve::{Curve, equal};
use upp_limits::OpFault;

/// Whether f(s + u) is at most f(s) + f(u) for all times s and u from 0 on (Le Boudec and Thiran, chapter 3); f may be
/// infinite anywhere. Two operators, one step each: the convolution of f with itself, and the lesser of f and that,
/// which is f exactly where f is subadditive. A refusal is that of the first of the two that is over its limit, with
/// TooWide or TooMany, or want of memory, and then each call that is counted is within its limits.
pub fn is_subadditive<L: Ledger>(
    alloc: Global,
    f: &Curve,
    steps: &mut Steps<L>,
) -> Result<bool, OpFault>
    ensures value { IfOk result (λ b. IsTrue b ↔ IsSubadditive (value_at f.now)) }
    ensures limits { TestsSubadditive f.now result }
    ensures begun { steps.old + 1 ≤ steps.new }
    ensures spends { SpendsSteps (IsEqual 2) OpFault.NoMemory (TestWants f.now) steps.old steps.new result }
{
    let twice = intact(convolve(alloc, f, f, steps))?;
    let lower = min(alloc, f, &twice, steps)?;
    Ok(equal(&lower, f))
}
