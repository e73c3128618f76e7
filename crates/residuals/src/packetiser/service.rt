//! The curve of whole packets.

ghost use Rattle.std.specs.Prelude.{◌≡◌, ◌+◌, IfOk};
ghost use Rattle.rational.specs.Rational.{ℚ, ◌≤ℚ◌};
ghost use Rattle.upp_limits.specs.declared.op_kind.OpKind.TheVariants.{PosMinus};
ghost use Rattle.upp_curve.specs.Curve.{value_at};
ghost use Rattle.min_plus.specs.Functions.{zero_q, IsFinite};
ghost use Rattle.min_plus.specs.Pointwise.{IsPositiveMinus};
ghost use Rattle.plain_operators.specs.CurveCalls.{AppliesTo};

use fraction128::Frac;
use outcomes::Steps;
use plain_operators::intact;
use plain_operators::pointwise::pos_minus;
use std::alloc::Global;
use std::sync::ledger::Ledger;
use upp_curve::Curve;
use upp_limits::OpFault;

/// The service of whole packets by a server whose curve is `beta`: at each time the greater of 0 and beta less `l`,
/// the bits of the longest packet (Le Boudec and Thiran, packetisers). beta is finite. One operator, one step; it is
/// refused with TooWide or TooMany exactly where the operator is over that limit, else only for want of memory.
pub fn packetised<L: Ledger>(
    alloc: Global,
    beta: &Curve,
    l: Frac,
    steps: &mut Steps<L>,
) -> Result<Curve, OpFault>
    requires { IsFinite (value_at beta.now) }
    ensures answer { AppliesTo (PosMinus l) beta.now result }
    ensures value { IfOk result (λ c. (t : ℚ) → zero_q ≤ℚ t → IsPositiveMinus (value_at beta.now) l t (value_at c t)) }
    ensures count { steps.new ≡ steps.old + 1 }
{
    intact(pos_minus(alloc, beta, l, steps))
}
