//! The subadditive closure of a curve: the fold of the stars of its parts.

ghost use Rattle.std.specs.Prelude.{◌≡◌, ◌+◌, ◌<◌, map, length, take, IfOk, IsTrue, Err};
ghost use Rattle.rational.specs.Rational.{ℚ, ◌≤ℚ◌};
ghost use Rattle.upp_curve.specs.Curve.{value_at};
ghost use Rattle.min_plus.specs.Convolution.{IsSubadditive, IsSubadditiveClosure};
ghost use Rattle.upp_curve.specs.Curves.{IsCurve};
ghost use Rattle.min_plus.specs.Functions.{IsFinite, IsNonnegative, zero_q};
ghost use Rattle.upp_limits.specs.declared.op_kind.OpKind.TheVariants.{Convolve};
ghost use Rattle.element_envelope.specs.PieceElements.{elements_of};
ghost use Rattle.curve_call.specs.Calls.{Applies};
ghost use Rattle.outcomes.specs.Calls.{Then};
ghost use Rattle.outcomes.specs.Stages.{IsEqual};
ghost use Rattle.outcomes.specs.Spending.{SpendsSteps};
ghost use Rattle.min_plus.specs.closure_laws.ClosureLaws.{ClosureKeeps};
ghost use Rattle.subadd_closure.specs.CurveParts.{pieces_end, part_of};
ghost use Rattle.subadd_closure.specs.Folds.{PartAnswer, PartsAnswer, CloseAnswer};
ghost use Rattle.subadd_closure.specs.FoldMemory.{StopsAt, CloseWants};
ghost use Rattle.subadd_closure.specs.FoldWork.{part_work, parts_work, fold_work};
ghost use Rattle.subadd_closure.specs.SegmentLimits.{IsElementOf, IsOwnGauge};

use crate::from_start::started_from;
use crate::idle_parts::leaves_as_is;
use crate::overlaps::{is_within, own_gauge};
use crate::part::elements;
use crate::part_stars::element_star;
use crate::star_convolution::convolve_counted;
use curve_call::intact;
use fraction128::Frac;
use outcomes::Steps;
use rational::Extended;
use std::alloc::Global;
use std::sync::ledger::Ledger;
use upp_curve::Curve;
use upp_curve::affine_segment::Element;
use upp_limits::OpFault;

// What the parts so far make, convolved with the star of one more element, which is not made where it is known to leave
// them as they are. Where `next_within` is false, the segment of
// the next part may be over a limit: then the convolution is counted once it is answered, so that where all calls are
// counted no want of memory is told in place of that limit.
fn with_star<L: Ledger>(
    alloc: Global,
    f: &Curve,
    gauge: Option<u128>,
    sofar: Curve,
    e: &Element,
    next_within: bool,
    steps: &mut Steps<L>,
) -> Result<Curve, OpFault>
    requires part { IsElementOf f.now e.now }
    requires finite { IsFinite (value_at f.now) }
    requires nonneg { IsNonnegative (value_at f.now) }
    requires curve { IsCurve f.now }
    requires subadditive { IsSubadditive (value_at sofar) }
    requires gauge { IsOwnGauge f.now gauge }
    ensures answer { Then (PartAnswer f.now (part_of f.now.tail e.now)) (λ c. Applies Convolve sofar c) result }
    ensures spends { SpendsSteps (IsEqual (part_work (part_of f.now.tail e.now) + 1)) OpFault.NoMemory
        (StopsAt f.now sofar (part_of f.now.tail e.now)) steps.old steps.new result }
    ensures next { result ≡ Err OpFault.NoMemory
        → steps.new ≡ steps.old + (part_work (part_of f.now.tail e.now) + 1) → IsTrue next_within }
{
    if leaves_as_is(f, gauge, &sofar, e) {
        // The minimum of the star and the convolution with it count as if they were made: the work is that of the fold.
        steps.tick();
        steps.tick();
        return Ok(sofar);
    }
    let star = element_star(alloc, f, gauge, e, steps)?;
    intact(convolve_counted(alloc, &sofar, &star, true, next_within, steps))
}

// The stars of the elements before the one at `last`, convolved one after another.
fn folded<L: Ledger>(
    alloc: Global,
    f: &Curve,
    gauge: Option<u128>,
    es: &[Element],
    last: usize,
    steps: &mut Steps<L>,
) -> Result<Curve, OpFault>
    requires elements { es.now ≡ elements_of f.now.pieces (pieces_end f.now.tail) }
    requires some { 0 < last }
    requires inside { last < length es.now }
    requires finite { IsFinite (value_at f.now) }
    requires nonneg { IsNonnegative (value_at f.now) }
    requires curve { IsCurve f.now }
    requires gauge { IsOwnGauge f.now gauge }
    ensures answer { PartsAnswer f.now (map (part_of f.now.tail) (take last es.now)) result }
    ensures spends { SpendsSteps (IsEqual (parts_work (map (part_of f.now.tail) (take last es.now)))) OpFault.NoMemory
        (CloseWants f.now) steps.old steps.new result }
{
    let mut sofar = element_star(alloc, f, gauge, &es[0], steps)?;
    for i in 1..last {
        let next = i + 1;
        let next_within = is_within(f, gauge, &es[next]);
        sofar = with_star(alloc, f, gauge, sofar, &es[i], next_within, steps)?;
    }
    Ok(sofar)
}

// The value at 0 of a finite curve.
fn start_of(f: &Curve) -> Frac
    requires { IsFinite (value_at f.now) }
    ensures { value_at f.now zero_q ≡ Extended.Fin result }
{
    match f.pieces()[0].at {
        Extended::Fin(v) => v,
        Extended::Inf => unreachable!(),
    }
}

// The fold over all elements of f, with the value at 0 set back to that of f in the last convolution.
fn closed<L: Ledger>(
    alloc: Global,
    f: &Curve,
    es: &[Element],
    steps: &mut Steps<L>,
) -> Result<Curve, OpFault>
    requires elements { es.now ≡ elements_of f.now.pieces (pieces_end f.now.tail) }
    requires finite { IsFinite (value_at f.now) }
    requires nonneg { IsNonnegative (value_at f.now) }
    requires curve { IsCurve f.now }
    ensures answer { CloseAnswer f.now result }
    ensures spends { SpendsSteps (IsEqual (fold_work f.now)) OpFault.NoMemory (CloseWants f.now) steps.old steps.new result }
{
    let gauge = own_gauge(f);
    let last = es.len() - 1;
    let sofar = folded(alloc, f, gauge, es, last, steps)?;
    let star = element_star(alloc, f, gauge, &es[last], steps)?;
    started_from(alloc, &sofar, &star, start_of(f), steps)
}

/// The subadditive closure of a curve that is finite and nowhere below 0: at t the infimum of the sums of f over one or
/// more times from 0 on whose sum is t. It is finite and nowhere below 0 too, and rises where f does. It is made part
/// by part: of each point and each open segment of f, those of a period from the rank on with all their copies, the
/// closure, lowered by the point 0 at 0; and these are convolved in the order of their starts, with the value at 0 set
/// back to f at 0. Refused with TooWide or TooMany exactly where the first operator of that fold that is over a limit
/// is over that one: an open segment after 0 that has an end has an operator of its own, before the calls on curves.
/// Else only for want of memory, and then each call that is counted is within its limits, and so is the operator of a
/// segment that comes next. Each call on curves counts one step; one that is followed by a segment over a limit counts
/// it as soon as it is answered.
pub fn close<L: Ledger>(alloc: Global, f: &Curve, steps: &mut Steps<L>) -> Result<Curve, OpFault>
    requires finite { IsFinite (value_at f.now) }
    requires nonneg { IsNonnegative (value_at f.now) }
    ensures own { IsCurve f.now }
    ensures value { IfOk result (λ h. (t : ℚ) → zero_q ≤ℚ t
        → IsSubadditiveClosure (value_at f.now) t (value_at h t)) }
    ensures keeps { IfOk result (λ h. ClosureKeeps (value_at f.now) (value_at h)) }
    ensures answer { CloseAnswer f.now result }
    ensures spends { SpendsSteps (IsEqual (fold_work f.now)) OpFault.NoMemory (CloseWants f.now) steps.old steps.new result }
{
    // Its type keeps that f is a curve.
    f.keeps();
    let es = elements(alloc, f)?;
    closed(alloc, f, &es, steps)
}
