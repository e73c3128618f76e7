//! The stars of a curve's elements: the closure of an element, of a periodic tail with all its copies, lowered by the
//! point 0 at 0.

ghost use Rattle.std.specs.Prelude.{◌+◌, ◌≤◌, ◌^◌, Some, None};
ghost use Rattle.rational.specs.Rational.{◌<ℚ◌, ◌≤ℚ◌, ◌/ℚ◌};
ghost use Rattle.rational.specs.Ratio.{IsSmall};
ghost use Rattle.upp_curve.specs.declared.affine_segment.element.Element.TheVariants.{Point, Open};
ghost use Rattle.min_plus.specs.Functions.{zero_q};
ghost use Rattle.min_plus.specs.Convolution.{IsSubadditive};
ghost use Rattle.upp_curve.specs.Curve.{value_at};
ghost use Rattle.outcomes.specs.Stages.{IsEqual};
ghost use Rattle.outcomes.specs.Spending.{SpendsSteps};
ghost use Rattle.upp_curve.specs.affine_segment.Fits.{LineFitsAt};
ghost use Rattle.subadd_closure.specs.ElementAnswers.{IsOpenPart};
ghost use Rattle.subadd_closure.specs.Stars.{Copies, CopiesWant, ElementWants, IsPeriodAndRise, Lowers, MakesStar, StarOf, StarWants, turn_work};

use crate::star_convolution::convolve_stars;
use crate::{lattice, origin, point_closure, segment_closure};
use curve_call::intact;
use fraction128::{Ext, Frac};
use outcomes::Steps;
use plain_operators::pointwise::min;
use std::alloc::Global;
use std::sync::ledger::Ledger;
use upp_curve::Curve;
use upp_curve::affine_segment::Line;
use upp_limits::OpFault;

// A curve lowered by the point 0 at 0.
fn lowered<L: Ledger>(alloc: Global, c: &Curve, steps: &mut Steps<L>) -> Result<Curve, OpFault>
    ensures answer { Lowers c.now result }
    ensures spends { SpendsSteps (IsEqual 1) OpFault.NoMemory (StarWants None c.now) steps.old steps.new result }
{
    let zero = origin(alloc)?;
    intact(min(alloc, c, &zero, steps))
}

// A curve with all its copies.
fn copied<L: Ledger>(
    alloc: Global,
    c: &Curve,
    turn: (Frac, Frac),
    steps: &mut Steps<L>,
) -> Result<Curve, OpFault>
    requires turn { IsPeriodAndRise (Some turn) }
    requires subadditive { IsSubadditive (value_at c.now) }
    ensures answer { Copies turn c.now result }
    ensures spends { SpendsSteps (IsEqual 1) OpFault.NoMemory (CopiesWant turn c.now) steps.old steps.new result }
{
    let points = lattice(alloc, turn.0, turn.1)?;
    intact(convolve_stars(alloc, c, &points, true, steps))
}

// The star of an element, from its closure.
fn star_of<L: Ledger>(
    alloc: Global,
    c: &Curve,
    turn: Option<(Frac, Frac)>,
    steps: &mut Steps<L>,
) -> Result<Curve, OpFault>
    requires turn { IsPeriodAndRise turn }
    requires subadditive { IsSubadditive (value_at c.now) }
    ensures answer { StarOf turn c.now result }
    ensures spends { SpendsSteps (IsEqual (turn_work turn)) OpFault.NoMemory (StarWants turn c.now) steps.old steps.new result }
{
    match turn {
        None => lowered(alloc, c, steps),
        Some(p) => {
            let all = copied(alloc, c, p, steps)?;
            lowered(alloc, &all, steps)
        }
    }
}

/// The star of a point: its closure, in a periodic tail (with the period and the rise `turn`) with all its copies,
/// lowered by the point 0 at 0. One operator, with copies two, one step each; a refusal is that of the first that is
/// over its limit, with TooWide or TooMany, or want of memory.
pub(crate) fn point_star<L: Ledger>(
    alloc: Global,
    x: Frac,
    v: Frac,
    turn: Option<(Frac, Frac)>,
    steps: &mut Steps<L>,
) -> Result<Curve, OpFault>
    requires time { zero_q ≤ℚ x }
    requires value { zero_q ≤ℚ v }
    requires turn { IsPeriodAndRise turn }
    ensures answer { MakesStar turn (Point x v) result }
    ensures spends { SpendsSteps (IsEqual (turn_work turn)) OpFault.NoMemory (ElementWants turn (Point x v))
        steps.old steps.new result }
{
    let c = point_closure(alloc, x, v)?;
    star_of(alloc, &c, turn, steps)
}

/// The star of a line on an open stretch, as `point_star`; `m` as of `segment_closure`.
pub(crate) fn segment_star<L: Ledger>(
    alloc: Global,
    a: Frac,
    b: Ext,
    line: &Line,
    m: u64,
    turn: Option<(Frac, Frac)>,
    steps: &mut Steps<L>,
) -> Result<Curve, OpFault>
    requires part { IsOpenPart a b line.now m }
    requires reads { LineFitsAt a (Some line.now) }
    requires few { m + 3 ≤ 2 ^ 19 }
    requires turn { IsPeriodAndRise turn }
    ensures answer { MakesStar turn (Open a b line.now) result }
    ensures spends { SpendsSteps (IsEqual (turn_work turn)) OpFault.NoMemory (ElementWants turn (Open a b line.now))
        steps.old steps.new result }
{
    let c = segment_closure(alloc, a, b, line, m)?;
    star_of(alloc, &c, turn, steps)
}
