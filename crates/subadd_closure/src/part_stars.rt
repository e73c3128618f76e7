//! The star of a part of a curve, as the fold of the closure takes it.

ghost use Rattle.std.specs.Prelude.{◌≡◌};
ghost use Rattle.upp_curve.specs.Curve.{value_at};
ghost use Rattle.min_plus.specs.Functions.{IsFinite, IsNonnegative};
ghost use Rattle.outcomes.specs.Stages.{IsEqual};
ghost use Rattle.outcomes.specs.Spending.{SpendsSteps};
ghost use Rattle.subadd_closure.specs.CurveParts.{part_of};
ghost use Rattle.subadd_closure.specs.Folds.{PartAnswer};
ghost use Rattle.subadd_closure.specs.FoldMemory.{PartWants};
ghost use Rattle.subadd_closure.specs.FoldWork.{part_work};
ghost use Rattle.subadd_closure.specs.PartStars.{turn_of};
ghost use Rattle.subadd_closure.specs.SegmentLimits.{IsElementOf, IsOwnGauge};

use crate::overlaps::overlap;
use crate::part::part_of;
use crate::stars::{point_star, segment_star};
use fraction128::Frac;
use outcomes::Steps;
use std::alloc::Global;
use std::sync::ledger::Ledger;
use upp_curve::affine_segment::Element;
use upp_curve::{Curve, Tail};
use upp_limits::OpFault;

/// The period and the rise of the copies of an element of a curve with this tail.
pub(crate) fn turn_of(tail: &Tail, e: &Element) -> Option<(Frac, Frac)>
    ensures { result ≡ turn_of (part_of tail.now e.now).copies }
{
    match part_of(tail, e).copies {
        None => None,
        Some(copies) => Some((copies.period, copies.rise)),
    }
}

/// The star of an element of a curve f, with its copies where it has any: f is finite and nowhere below 0, and `gauge`
/// is its gauge by itself. A refusal is that of the first operator that is over a limit, a segment's own one before the
/// calls on curves; or want of memory. Each call on curves counts one step: two with copies, else one.
pub(crate) fn element_star<L: Ledger>(
    alloc: Global,
    f: &Curve,
    gauge: Option<u128>,
    e: &Element,
    steps: &mut Steps<L>,
) -> Result<Curve, OpFault>
    requires part { IsElementOf f.now e.now }
    requires finite { IsFinite (value_at f.now) }
    requires nonneg { IsNonnegative (value_at f.now) }
    requires gauge { IsOwnGauge f.now gauge }
    ensures answer { PartAnswer f.now (part_of f.now.tail e.now) result }
    ensures spends { SpendsSteps (IsEqual (part_work (part_of f.now.tail e.now))) OpFault.NoMemory
        (PartWants f.now (part_of f.now.tail e.now)) steps.old steps.new result }
{
    let turn = turn_of(f.tail(), e);
    match e {
        Element::Point { x, v } => point_star(alloc, *x, *v, turn, steps),
        Element::Open { from, to, line } => {
            let m = overlap(f, gauge, *from, *to, line)?;
            segment_star(alloc, *from, *to, line, m, turn, steps)
        }
    }
}
