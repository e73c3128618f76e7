//! The curve of a priority queue's service.

ghost use Rattle.std.specs.Prelude.{◌+◌, ◌-◌, ◌≤◌, IfOk, IfErr};
ghost use Rattle.upp_curve.specs.Curve.{value_at};
ghost use Rattle.min_plus.specs.Functions.{IsFinite};
ghost use Rattle.residuals.specs.calls.PriorityCalls.{LeavesPriority, MakesPriority};
ghost use Rattle.residual_laws.specs.PriorityLaws.{IsPriorityService};
ghost use Rattle.residuals.specs.calls.InTurn.{LeftRefused, PriorityRefused};
ghost use Rattle.outcomes.specs.Spending.{Counts};

use crate::packetiser::packetised;
use outcomes::Steps;
use plain_operators::intact;
use plain_operators::pointwise::pos_diff;
use plain_operators::running::run_sup;
use run_laws::whole;
use std::alloc::Global;
use std::sync::ledger::Ledger;
use upp_curve::Curve;
use upp_limits::OpFault;

// What the service has above the higher queues' curve, less one packet of the lower queues. Its first curve is let go
// here.
fn priority_left<L: Ledger>(
    alloc: Global,
    beta: &Curve,
    higher: &Curve,
    lower: u32,
    steps: &mut Steps<L>,
) -> Result<Curve, OpFault>
    requires { IsFinite (value_at beta.now) }
    ensures answer { LeavesPriority beta.now higher.now lower result }
    ensures refused { IfErr result (λ fault. LeftRefused beta.now higher.now lower fault (steps.new - steps.old)) }
    ensures begun { steps.old + 1 ≤ steps.new }
    ensures counts { Counts 2 steps.old steps.new result }
{
    let above = intact(pos_diff(alloc, beta, higher, steps))?;
    packetised(alloc, &above, whole(lower), steps)
}

/// The service of one queue of a priority server whose curve is `beta`: the running supremum of what beta has above
/// `higher`, the curve of the queues before it, and above one packet of the queues after it, which has at most
/// `lower` bits (Le Boudec and Thiran, non-preemptive priority). Three operators in that order, one step each; a
/// refusal is that of the first that is over its limit, with TooWide or TooMany, or want of memory; it is that of the last
/// call that is counted, so that with want of memory each of these is within its limits. beta is finite.
pub fn priority_service<L: Ledger>(
    alloc: Global,
    beta: &Curve,
    higher: &Curve,
    lower: u32,
    steps: &mut Steps<L>,
) -> Result<Curve, OpFault>
    requires { IsFinite (value_at beta.now) }
    ensures answer { MakesPriority beta.now higher.now lower result }
    ensures refused { IfErr result (λ fault. PriorityRefused beta.now higher.now lower fault (steps.new - steps.old)) }
    ensures value { IfOk result (λ c. IsPriorityService (value_at beta.now) (value_at higher.now) lower (value_at c)) }
    ensures begun { steps.old + 1 ≤ steps.new }
    ensures counts { Counts 3 steps.old steps.new result }
{
    let left = priority_left(alloc, beta, higher, lower, steps)?;
    intact(run_sup(alloc, &left, steps))
}
