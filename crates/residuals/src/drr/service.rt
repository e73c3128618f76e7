//! The curve of a deficit round robin queue's service.

ghost use Rattle.std.specs.Prelude.{◌+◌, ◌-◌, ◌<◌, ◌≤◌, length, IfOk, IfErr};
ghost use Rattle.upp_curve.specs.Curve.{value_at};
ghost use Rattle.min_plus.specs.Functions.{IsFinite};
ghost use Rattle.residuals.specs.calls.DrrCalls.{AreQueues, MakesDrr};
ghost use Rattle.residual_laws.specs.DrrLaws.{IsDrrService};
ghost use Rattle.residuals.specs.calls.InTurn.{DrrRefused};
ghost use Rattle.outcomes.specs.Spending.{Counts};

use crate::drr::turn::turn_of;
use outcomes::Steps;
use plain_operators::intact;
use plain_operators::pointwise::{pos_minus, scale};
use std::alloc::Global;
use std::sync::ledger::Ledger;
use upp_curve::Curve;
use upp_limits::OpFault;

/// The service of one queue of a deficit round robin server whose curve is `beta`: with the queue's quantum Q, the
/// sum F of the quanta, the queue's longest packet l and the sum L of all queues' longest packets, at each time the
/// greater of 0 and (Q beta - Q (L - l) - (F - Q) (Q + l)) / F (Bouillard, Boyer and Le Corronc). All are bits. Two
/// operators, `scale` and then `pos_minus`, one step each; a refusal is that of the first that is over its limit,
/// with TooWide or TooMany, or want of memory; it is that of the last call that is counted, so that with want of memory
/// each of these is within its limits. beta is finite; there are 1 to 8 quanta of 1 to 2^24 bits, as many longest packets,
/// and the queue is one of them.
pub fn drr_service<L: Ledger>(
    alloc: Global,
    beta: &Curve,
    quanta: &[u64],
    longest: &[u32],
    queue: u32,
    steps: &mut Steps<L>,
) -> Result<Curve, OpFault>
    requires finite { IsFinite (value_at beta.now) }
    requires queues { AreQueues quanta.now longest.now }
    requires queue { queue < length quanta.now }
    ensures answer { MakesDrr beta.now quanta.now longest.now queue result }
    ensures refused { IfErr result (λ fault.
        DrrRefused beta.now quanta.now longest.now queue fault (steps.new - steps.old)) }
    ensures value { IfOk result (λ c. IsDrrService (value_at beta.now) quanta.now longest.now queue (value_at c)) }
    ensures begun { steps.old + 1 ≤ steps.new }
    ensures counts { Counts 2 steps.old steps.new result }
{
    let turn = turn_of(quanta, longest, queue as usize);
    let scaled = intact(scale(alloc, beta, turn.share, steps))?;
    intact(pos_minus(alloc, &scaled, turn.owed, steps))
}
