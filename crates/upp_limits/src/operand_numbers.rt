//! The sizes of the numbers of a call's operands in a window, without unrolling them.

ghost use Rattle.std.specs.Prelude.{◌≡◌, IfSome, IsSome};
ghost use Rattle.upp_limits.specs.Periods.{HasPeriod};
ghost use Rattle.upp_limits.specs.Spans.{IsListed, end_of};
ghost use Rattle.upp_curve.specs.Curves.{IsCurve};
ghost use Rattle.upp_limits.specs.Limits.{Numbers, Sizes, joined, curve_numbers};
ghost use Rattle.upp_limits.specs.Sized.{HeldBy};
ghost use Rattle.upp_limits.specs.Gathered.{Gathers};
ghost use Rattle.upp_limits.specs.ClosedForm.{closed_numbers};
ghost use Rattle.upp_limits.specs.Gauges.{scaled_curve, operand_numbers};
ghost use Rattle.upp_limits.specs.ClosedOperands.{closed_operands};

use crate::curve_numbers::{Listing, with_curve};
use crate::gathered::Gathered;
use crate::op_kind::Operands;
use crate::scaled_numbers::with_scaled;
use fraction128::{Frac, sum};
use upp_curve::{Curve, Tail};

/// Where the next piece starts after the last one: a period after the rank, or at the rank of an infinite tail.
pub fn after_last(c: &Curve) -> Option<Frac>
    ensures { result ≡ end_of c.now.tail }
{
    match c.tail() {
        Tail::Periodic { rank, period, .. } => Some(sum(*rank, *period)),
        Tail::Affine { .. } => None,
        Tail::Infinite { rank } => Some(*rank),
    }
}

/// The pieces of a curve as they are read.
pub(crate) fn listing_of<'a>(c: &'a Curve) -> Listing<'a>
    ensures pieces { result.pieces.now ≡ c.now.pieces }
    ensures tail { result.tail.now ≡ c.now.tail }
    ensures listed { IsListed result.pieces.now result.tail.now result.after }
    ensures period { HasPeriod result.tail.now }
    ensures kept { IsCurve c.now }
{
    let after = after_last(c);
    Listing {
        pieces: c.pieces(),
        tail: c.tail(),
        after,
    }
}

/// The numbers of a curve more.
pub fn with_one(g: Gathered, c: &Curve, end: Frac) -> Option<Gathered>
    ensures value { IfSome result (λ r. (n : Numbers) → Gathers g n → Gathers r (joined n (closed_numbers end c.now))) }
    ensures fits { (z : Sizes) → HeldBy z end (curve_numbers end c.now) → IsSome result }
{
    with_curve(g, &listing_of(c), end)
}

/// The numbers of a curve times a factor more.
fn with_factor(g: Gathered, factor: Frac, c: &Curve, end: Frac) -> Option<Gathered>
    ensures value { IfSome result (λ r. (n : Numbers) → Gathers g n
        → Gathers r (joined n (closed_numbers end (scaled_curve factor c.now)))) }
    ensures fits { (z : Sizes) → HeldBy z end (curve_numbers end (scaled_curve factor c.now)) → IsSome result }
{
    with_scaled(g, factor, &listing_of(c), end)
}

/// The numbers of a call's operands more.
pub(crate) fn with_operands(
    g: Gathered,
    operands: Operands,
    f: &Curve,
    other: &Curve,
    end: Frac,
) -> Option<Gathered>
    ensures value { IfSome result (λ r. (n : Numbers) → Gathers g n
        → Gathers r (joined n (closed_operands operands end f.now other.now))) }
    ensures fits { (z : Sizes) → HeldBy z end (operand_numbers operands end f.now other.now) → IsSome result }
{
    match operands {
        Operands::First => with_one(g, f, end),
        Operands::Both => match with_one(g, f, end) {
            Some(first) => with_one(first, other, end),
            None => None,
        },
        Operands::FirstScaled(factor) => match with_one(g, f, end) {
            Some(first) => with_factor(first, factor, f, end),
            None => None,
        },
    }
}
