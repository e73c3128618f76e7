//! The closures of files.

ghost use Rattle.upp_curve.specs.Curve.{value_at};
ghost use Rattle.min_plus.specs.Functions.{IsFinite, IsNonnegative};
ghost use Rattle.outcomes.specs.Stages.{IsEqual};
ghost use Rattle.outcomes.specs.Spending.{SpendsSteps};
ghost use Rattle.net_text.specs.Closing.{KeepsClosing};
ghost use Rattle.subadd_closure.specs.FoldMemory.{CloseWants};
ghost use Rattle.subadd_closure.specs.FoldWork.{fold_work};

use outcomes::Steps;
use std::alloc::Global;
use std::sync::ledger::Ledger;
use subadd_closure::close;
use upp_curve::Curve;
use upp_limits::OpFault;

/// The subadditive closure of a finite curve that is nowhere below 0, by the fold of the closures of its parts, and
/// then that fold is over no limit; refused for the limit that the fold is over, or where there is no memory, and then
/// each of its calls that is counted is within its limits. It takes at most a step an operator of the fold.
pub(crate) fn closed<L: Ledger>(
    alloc: Global,
    f: &Curve,
    steps: &mut Steps<L>,
) -> Result<Curve, OpFault>
    requires finite { IsFinite (value_at f.now) }
    requires nonneg { IsNonnegative (value_at f.now) }
    ensures answer { KeepsClosing f.now result }
    ensures spends { SpendsSteps (IsEqual (fold_work f.now)) OpFault.NoMemory (CloseWants f.now) steps.old steps.new result }
{
    close(alloc, f, steps)
}
