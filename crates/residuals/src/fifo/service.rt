//! What the other flows of a first in, first out queue leave to one.

ghost use Rattle.std.specs.Prelude.{◌≡◌, ◌+◌, IfOk};
ghost use Rattle.upp_limits.specs.declared.op_kind.OpKind.TheVariants.{FifoLeft};
ghost use Rattle.upp_curve.specs.Curve.{value_at};
ghost use Rattle.min_plus.specs.Deviations.{IsHorizontalDeviation};
ghost use Rattle.min_plus.specs.Functions.{IsFinite, IsRising, IsNonnegative};
ghost use Rattle.plain_operators.specs.CurveCalls.{Applies};
ghost use Rattle.residuals.specs.fifo.Laws.{IsResidual};

use fraction128::Ext;
use outcomes::Steps;
use plain_operators::intact;
use plain_operators::running::fifo_left;
use std::alloc::Global;
use std::sync::ledger::Ledger;
use upp_curve::Curve;
use upp_limits::OpFault;

/// The service of a flow of a first in, first out queue that is served by `beta`, where the other flows of the queue
/// keep the curve `cross`: what first in, first out leaves of beta, by the wait `theta` (Le Boudec and Thiran, chapter
/// 6). beta is finite, never falls and is nowhere below 0, and theta is the horizontal deviation of cross and beta. One
/// operator, one step; it is refused with TooWide or TooMany exactly where the operator is over that limit, else only
/// for want of memory.
pub fn fifo_service<L: Ledger>(
    alloc: Global,
    beta: &Curve,
    cross: &Curve,
    theta: Ext,
    steps: &mut Steps<L>,
) -> Result<Curve, OpFault>
    requires finite { IsFinite (value_at beta.now) }
    requires rising { IsRising (value_at beta.now) }
    requires nonneg { IsNonnegative (value_at beta.now) }
    requires deviation { IsHorizontalDeviation (value_at cross.now) (value_at beta.now) theta }
    ensures answer { Applies (FifoLeft theta) beta.now cross.now result }
    ensures value { IfOk result (λ c. IsResidual (value_at beta.now) (value_at cross.now) theta (value_at c)) }
    ensures count { steps.new ≡ steps.old + 1 }
{
    intact(fifo_left(alloc, beta, cross, theta, steps))
}
