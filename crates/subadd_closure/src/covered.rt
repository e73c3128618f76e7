//! The elements of the first operand of a convolution without those that are nowhere below what the first operand makes with
//! few elements of the second.

ghost use Rattle.std.specs.Prelude.{IfOk, OnOk};
ghost use Rattle.rational.specs.Rational.{◌<ℚ◌};
ghost use Rattle.min_plus.specs.Functions.{zero_q};
ghost use Rattle.element_envelope.specs.EnvelopeWindows.{EnvelopeRoom};
ghost use Rattle.subadd_closure.specs.Thinned.{IsCovered, StartFrom};

use crate::thinned::thinned;
use element_envelope::envelope;
use fraction128::{Frac, is_less};
use std::alloc::{AllocError, Global};
use upp_curve::affine_segment::{Element, start_of};

// Puts the k-th of some elements to few of them, where it starts at `least` or later.
fn push_from(
    few: &mut Vec<Element>,
    elements: &[Element],
    k: usize,
    least: Frac,
) -> Result<(), AllocError>
    ensures { OnOk result (StartFrom least elements.now few.old.items → StartFrom least elements.now few.new.items) }
{
    if k >= elements.len() {
        return Ok(());
    }
    let e = elements[k];
    if is_less(start_of(&e), least) {
        return Ok(());
    }
    few.push(e)?;
    Ok(())
}

// The second of some elements and each that is four times as far on, as long as they start at `least` or later.
fn few_from(alloc: Global, elements: &[Element], least: Frac) -> Result<Vec<Element>, AllocError>
    ensures { IfOk result (λ v. StartFrom least elements.now v.items) }
{
    let mut few = Vec::new(alloc);
    let mut k: usize = 1;
    let turns: u32 = 12;
    for _turn in 0..turns {
        push_from(&mut few, elements, k, least)?;
        k = k.saturating_mul(4);
    }
    Ok(few)
}

// When the second of some elements starts, where that is after 0; else 1.
fn late_start(elements: &[Element]) -> Frac
    ensures { zero_q <ℚ result }
{
    if elements.len() < 2 {
        return Frac::one();
    }
    let start = start_of(&elements[1]);
    if is_less(Frac::zero(), start) {
        return start;
    }
    Frac::one()
}

/// Those of some elements that are not known to be nowhere below what all of them make with few others. Where the others
/// are those of the slower curve, that leaves out most that start late. Refused only for want of memory.
pub(crate) fn covered(
    alloc: Global,
    xs: &[Element],
    ys: &[Element],
    end: Frac,
) -> Result<Vec<Element>, AllocError>
    requires { EnvelopeRoom end xs.now ys.now }
    ensures { IfOk result (λ v. IsCovered end xs.now ys.now v.items) }
{
    let least = late_start(ys);
    let few = few_from(alloc, ys, least)?;
    let low = envelope(alloc, xs, &few, end)?;
    thinned(alloc, &low, xs, end)
}
