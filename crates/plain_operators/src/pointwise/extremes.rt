//! The minimum, the maximum and the positive difference of two curves.

ghost use Rattle.std.specs.Prelude.{◌≡◌, ◌+◌, pos, IfOk};
ghost use Rattle.rational.specs.Rational.{ℚ, int, ◌≤ℚ◌};
ghost use Rattle.upp_curve.specs.Curve.{value_at};
ghost use Rattle.min_plus.specs.Functions.{IsFinite};
ghost use Rattle.min_plus.specs.Pointwise.{IsMinimum, IsMaximum, IsPositiveDifference};
ghost use Rattle.upp_limits.specs.Outcome.{KeepsLimits};
ghost use Rattle.upp_limits.specs.declared.op_kind.OpKind.TheVariants.{Min, Max, PosDiff};

use crate::pointwise::lattice::{Lattice, made_of_curves};
use curve_call::Answered;
use outcomes::Steps;
use std::alloc::Global;
use std::sync::ledger::Ledger;
use upp_curve::Curve;

/// The lesser of two curves at each time from 0 on (Le Boudec and Thiran, chapter 3). One step is counted. Refused
/// with TooWide or TooMany exactly where the call's gauge or tally is over that limit, or no number of periods orders
/// the curves by their rates (TooWide); else only for want of memory.
pub fn min<L: Ledger>(alloc: Global, f: &Curve, g: &Curve, steps: &mut Steps<L>) -> Answered
    ensures count { steps.new ≡ steps.old + 1 }
    ensures value { IfOk result
        (λ c. (t : ℚ) → int (pos 0) ≤ℚ t → IsMinimum (value_at f.now) (value_at g.now) t (value_at c t)) }
    ensures limits { KeepsLimits Min f.now g.now result }
{
    made_of_curves(alloc, Lattice::Lower, f, g, steps)
}

/// The greater of two curves at each time from 0 on (Le Boudec and Thiran, chapter 3). One step is counted. Refused
/// as `min`.
pub fn max<L: Ledger>(alloc: Global, f: &Curve, g: &Curve, steps: &mut Steps<L>) -> Answered
    ensures count { steps.new ≡ steps.old + 1 }
    ensures value { IfOk result
        (λ c. (t : ℚ) → int (pos 0) ≤ℚ t → IsMaximum (value_at f.now) (value_at g.now) t (value_at c t)) }
    ensures limits { KeepsLimits Max f.now g.now result }
{
    made_of_curves(alloc, Lattice::Upper, f, g, steps)
}

/// The greater of 0 and f - g at each time from 0 on, and 0 where g is infinite; f is finite (Le Boudec and Thiran,
/// chapter 3). One step is counted. Refused as `min`.
pub fn pos_diff<L: Ledger>(alloc: Global, f: &Curve, g: &Curve, steps: &mut Steps<L>) -> Answered
    requires { IsFinite (value_at f.now) }
    ensures count { steps.new ≡ steps.old + 1 }
    ensures value { IfOk result
        (λ c. (t : ℚ) → int (pos 0) ≤ℚ t → IsPositiveDifference (value_at f.now) (value_at g.now) t (value_at c t)) }
    ensures limits { KeepsLimits PosDiff f.now g.now result }
{
    made_of_curves(alloc, Lattice::Excess, f, g, steps)
}
