//! Arrival curves, and their closures where they are asked for.

ghost use Rattle.std.specs.Prelude.{Ok, IfOk, IfErr};
ghost use Rattle.std.specs.String.{string_bytes};
ghost use Rattle.upp_curve.specs.Curve.{value_at};
ghost use Rattle.upp_curve.specs.Curves.{IsCurve};
ghost use Rattle.min_plus.specs.Functions.{IsFinite, IsNonnegative};
ghost use Rattle.outcomes.specs.Stages.{IsEqual};
ghost use Rattle.outcomes.specs.Spending.{SpendsSteps};
ghost use Rattle.net_draft.specs.CurveTexts.{text_of};
ghost use Rattle.net_draft.specs.Kept.{IsArrivalDraft};
ghost use Rattle.net_text.specs.Becoming.{Becomes, FailsAt};
ghost use Rattle.net_text.specs.Closing.{Closes};
ghost use Rattle.net_text.specs.Folds.{FoldOf};
ghost use Rattle.net_text.specs.Wants.{ArrivalWants};
ghost use Rattle.subadd_closure.specs.FoldMemory.{CloseWants};
ghost use Rattle.subadd_closure.specs.FoldWork.{fold_work};

use crate::closing::closed;
use crate::limits::limit_fault;
use crate::services::copy_of;
use net_draft::{DraftFault, FlowDraft};
use outcomes::Steps;
use std::alloc::Global;
use std::sync::ledger::Ledger;
use upp_curve::Curve;
use upp_limits::{OpFault, OverLimit};

/// The closure of the arrival curve at a place.
fn closure_of<L: Ledger>(
    alloc: Global,
    place: String,
    curve: &Curve,
    steps: &mut Steps<L>,
) -> Result<Curve, DraftFault>
    requires finite { IsFinite (value_at curve.now) }
    requires nonneg { IsNonnegative (value_at curve.now) }
    ensures own { IsCurve curve.now }
    ensures closed { IfOk result (λ c. Closes curve.now (Ok c)) }
    ensures over { IfErr result (FailsAt (Closes curve.now) (string_bytes place)) }
    ensures spends { SpendsSteps (IsEqual (fold_work curve.now)) DraftFault.NoMemory (CloseWants curve.now)
        steps.old steps.new result }
{
    curve.keeps();
    match closed(alloc, curve, steps) {
        Ok(closed) => Ok(closed),
        Err(OpFault::TooMany) => Err(limit_fault(OverLimit::TooMany, place)),
        Err(OpFault::TooWide) => Err(limit_fault(OverLimit::TooWide, place)),
        Err(OpFault::NoMemory) => Err(DraftFault::NoMemory),
    }
}

/// The arrival curve of a flow, which stands at a place: what was made of its text, or the closure of that. Want of
/// memory says that the curve, or the call of its closure that was under way, is over no limit.
pub(crate) fn arrival_of<L: Ledger>(
    alloc: Global,
    place: String,
    flow: &FlowDraft,
    steps: &mut Steps<L>,
) -> Result<Curve, DraftFault>
    requires { IsArrivalDraft flow.now.packet flow.now.arrival }
    ensures becomes { IfOk result (λ c. Becomes flow.now.closes (text_of flow.now.arrival.text) (Ok c)) }
    ensures over { IfErr result
        (FailsAt (Becomes flow.now.closes (text_of flow.now.arrival.text)) (string_bytes place)) }
    ensures spends { SpendsSteps (FoldOf flow.now.closes (text_of flow.now.arrival.text)) DraftFault.NoMemory
        (ArrivalWants flow.now.closes (text_of flow.now.arrival.text)) steps.old steps.new result }
{
    match &flow.arrival.made {
        Ok(curve) => {
            if flow.closes {
                closure_of(alloc, place, curve, steps)
            } else {
                Ok(copy_of(curve)?)
            }
        }
        Err(limit) => Err(limit_fault(*limit, place)),
    }
}
