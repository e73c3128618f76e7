//! Flows.

ghost use Rattle.std.specs.Prelude.{◌≡◌, map, All, IfOk, IfErr};
ghost use Rattle.std.specs.List.{AllZip};
ghost use Rattle.outcomes.specs.Spending.{SpendsSteps};
ghost use Rattle.net_model.specs.Views.{flow_of, flows_of};
ghost use Rattle.net_draft.specs.CurveTexts.{text_of};
ghost use Rattle.net_draft.specs.Kept.{IsArrivalDraft};
ghost use Rattle.net_draft.specs.Views.{flow_text};
ghost use Rattle.net_text.specs.Built.{IsFlowOf, IsLiveFlowOf};
ghost use Rattle.net_text.specs.Folds.{FoldOf, FoldsOf};
ghost use Rattle.net_text.specs.Firsts.{arrivals_from, FailsArrival, FailsFirst};
ghost use Rattle.net_text.specs.Wants.{FlowWants, FlowsWant};

use crate::arrivals::arrival_of;
use crate::limits::place_of;
use net_draft::{DraftFault, FlowDraft, Hop};
use net_model::Flow;
use outcomes::Steps;
use std::alloc::{AllocError, Global};
use std::sync::ledger::Ledger;

fn path_of(alloc: Global, hops: &[Hop]) -> Result<Vec<u32>, AllocError>
    ensures { IfOk result (λ v. v.items ≡ map (λ h. h.server) hops.now) }
{
    hops.iter().map(|hop| hop.server).collect(alloc)
}

fn queues_of(alloc: Global, hops: &[Hop]) -> Result<Vec<u32>, AllocError>
    ensures { IfOk result (λ v. v.items ≡ map (λ h. h.queue) hops.now) }
{
    hops.iter().map(|hop| hop.queue).collect(alloc)
}

/// The flow of a number. All else is allocated before its closure is made.
fn flow_of<L: Ledger>(
    alloc: Global,
    number: usize,
    draft: &FlowDraft,
    steps: &mut Steps<L>,
) -> Result<Flow, DraftFault>
    requires { IsArrivalDraft draft.now.packet draft.now.arrival }
    ensures built { IfOk result (λ f. IsFlowOf (flow_text draft.now) (flow_of f)) }
    ensures over { IfErr result (FailsArrival draft.now.closes (text_of draft.now.arrival.text) number) }
    ensures spends { SpendsSteps (FoldOf draft.now.closes (text_of draft.now.arrival.text)) DraftFault.NoMemory
        (FlowWants draft.now.closes (text_of draft.now.arrival.text)) steps.old steps.new result }
{
    let name = draft.name.clone()?;
    let path = path_of(alloc, &draft.path)?;
    let queues = queues_of(alloc, &draft.path)?;
    let place = place_of(alloc, "flow", number, "arrival")?;
    let arrival = arrival_of(alloc, place, draft, steps)?;
    Ok(Flow {
        name,
        path,
        queues,
        packet: draft.packet,
        arrival,
    })
}

/// The flows of a draft, or the fault of the first whose curve, or its closure, is over a limit. Want of memory says
/// where it was: the flows before have been made, and of a closure that was under way each call that is counted is within
/// its limits.
pub(crate) fn flows_of<L: Ledger>(
    alloc: Global,
    drafts: &[FlowDraft],
    steps: &mut Steps<L>,
) -> Result<Vec<Option<Flow>>, DraftFault>
    requires { All (λ f. IsArrivalDraft f.packet f.arrival) drafts.now }
    ensures built { IfOk result (λ v. AllZip IsLiveFlowOf (map flow_text drafts.now) (flows_of v.items)) }
    ensures over { IfErr result (FailsFirst (arrivals_from 0 (map flow_text drafts.now))) }
    ensures spends { SpendsSteps (FoldsOf (map flow_text drafts.now)) DraftFault.NoMemory
        (FlowsWant (map flow_text drafts.now)) steps.old steps.new result }
{
    let mut flows = Vec::with_capacity(alloc, drafts.len())?;
    for (number, draft) in drafts.iter().enumerate() {
        let flow = flow_of(alloc, number, draft, steps)?;
        flows.push(Some(flow))?;
    }
    Ok(flows)
}
