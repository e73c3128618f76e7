//! Whether a curve is nowhere above another over a window: a walk over both, which ends where it is not.

ghost use Rattle.std.specs.Prelude.{IsTrue};
ghost use Rattle.upp_curve.specs.Curve.{value_at};
ghost use Rattle.upp_limits.specs.Limits.{Sizes};
ghost use Rattle.upp_normal.specs.Ahead.{HasWindow, IsTimeIn};
ghost use Rattle.subadd_closure.specs.Ordered.{IsBelowIn, IsNoneAbove};

use crate::thinned::is_at_most;
use curve_call::{Gap, earlier, stretch_gap};
use fraction128::{Frac, is_less, lesser};
use upp_curve::Curve;
use upp_normal::stretch_at;

// Whether a gap is that of a function which is nowhere above another.
fn is_none_above(gap: Gap) -> bool
    ensures { IsTrue result → IsNoneAbove gap }
{
    match gap {
        Gap::NoTime => true,
        Gap::Never => false,
        Gap::Is(gap) => is_at_most(gap, Frac::zero()),
    }
}

/// Whether a curve is nowhere above another from `from` up to the end of a window, where that is known from `soon` on: only
/// what begins before that is looked at, up to where it is not. Nothing is unrolled and no memory is taken.
pub(crate) fn is_below(slow: &Curve, fast: &Curve, from: Frac, end: Frac, soon: Frac) -> bool
    requires window { (z : Sizes) × HasWindow z end slow.now × HasWindow z end fast.now × IsTimeIn z end from }
    requires late { IsBelowIn (value_at slow.now) (value_at fast.now) soon end }
    ensures { IsTrue result → IsBelowIn (value_at slow.now) (value_at fast.now) from end }
{
    let last = lesser(end, soon);
    let mut t = from;
    while is_less(t, last) {
        let low = stretch_at(slow, t);
        let high = stretch_at(fast, t);
        let next = earlier(earlier(end, &low.next), &high.next);
        if !is_none_above(stretch_gap(&low, &high, t, next)) {
            return false;
        }
        t = next;
    }
    true
}
