//! The numbers of a call's operands by the first copies of their pieces alone, and how far the others are from them.

ghost use Rattle.std.specs.Prelude.{ℕ, ◌≡◌, ◌+◌, ◌*◌, ◌≤◌, ◌<◌, pos, IfSome};
ghost use Rattle.rational.specs.Rational.{ℚ, int, ◌≤ℚ◌, ◌<ℚ◌};
ghost use Rattle.rational.specs.Gauge.{bound_of};
ghost use Rattle.upp_limits.specs.Limits.{Numbers, joined, time_alone, value_alone};
ghost use Rattle.upp_limits.specs.Gathered.{Gathers};
ghost use Rattle.upp_limits.specs.ClosedForm.{first_numbers};
ghost use Rattle.upp_limits.specs.Covered.{IsMostRise, AreMostRises, first_operands};

use crate::curve_numbers::{whole, with_first_copies};
use crate::gathered::Gathered;
use crate::op_kind::Operands;
use crate::operand_numbers::listing_of;
use crate::start_counts::count_before;
use fraction128::{Frac, is_less};
use upp_curve::{Curve, Tail};

/// The numbers of a curve's first copies more.
fn with_first(g: Gathered, c: &Curve, end: Frac) -> Option<Gathered>
    ensures { IfSome result (λ r. (n : Numbers) → Gathers g n → Gathers r (joined n (first_numbers end c.now))) }
{
    with_first_copies(g, &listing_of(c), end)
}

/// The numbers of the first copies of a call's operands more. None also for a scaled operand.
pub(crate) fn with_first_operands(
    g: Gathered,
    end: Frac,
    operands: Operands,
    f: &Curve,
    other: &Curve,
) -> Option<Gathered>
    ensures { IfSome result (λ r. (n : Numbers) → Gathers g n
        → Gathers r (joined n (first_operands operands end f.now other.now))) }
{
    match operands {
        Operands::First => with_first(g, f, end),
        Operands::Both => match with_first(g, f, end) {
            Some(first) => with_first(first, other, end),
            None => None,
        },
        Operands::FirstScaled(_) => None,
    }
}

/// A bound of the rises of a periodic tail over the periods after its rank that start before `end`, up or down.
fn rise_before(rank: Frac, period: Frac, rise: Frac, end: Frac) -> Option<u128>
    requires { int (pos 0) <ℚ period }
    ensures { IfSome result (IsMostRise (Tail.Periodic rank period rise) end) }
{
    if is_less(rank, Frac::zero()) {
        return None;
    }
    let copies = count_before(rank, period, end);
    if copies == u128::MAX {
        return None;
    }
    match copies.checked_mul(rise.size_up()) {
        Some(most) => Some(most),
        None => None,
    }
}

/// A bound of how far the copies of a curve's pieces that start before `end` are from the first ones.
fn most_rise(c: &Curve, end: Frac) -> Option<u128>
    ensures { IfSome result (IsMostRise c.now.tail end) }
{
    match c.tail() {
        Tail::Periodic { rank, period, rise } => rise_before(*rank, *period, *rise, end),
        Tail::Affine { .. } => Some(0),
        Tail::Infinite { .. } => Some(0),
    }
}

/// The greater of both operands' bounds. None also for a scaled operand.
pub(crate) fn most_rises(operands: Operands, f: &Curve, other: &Curve, end: Frac) -> Option<u128>
    ensures { IfSome result (AreMostRises operands end f.now other.now) }
{
    match operands {
        Operands::First => most_rise(f, end),
        Operands::Both => match most_rise(f, end) {
            Some(first) => match most_rise(other, end) {
                Some(second) => Some(first.max(second)),
                None => None,
            },
            None => None,
        },
        Operands::FirstScaled(_) => None,
    }
}

/// A whole value more that is at least the largest one and `rise` together.
pub(crate) fn with_rise(found: Gathered, rise: u128) -> Option<Gathered>
    ensures { IfSome result (λ r. (n : Numbers) (end : ℚ) → Gathers found (joined (time_alone end) n)
        → (m : ℕ) × (bound_of n.values + rise ≤ m)
        × Gathers r (joined (time_alone end) (joined n (value_alone (int (pos m)))))) }
{
    if found.largest == u128::MAX {
        return None;
    }
    match found.largest.checked_add(rise) {
        Some(most) => match whole(most) {
            Some(bound) => Some(found.with_value(bound)),
            None => None,
        },
        None => None,
    }
}
