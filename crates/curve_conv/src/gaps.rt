//! By how much the part of a convolution in which the first curve repeats is above the part before.

ghost use Rattle.std.specs.Prelude.{pos, Some, None, IfSome};
ghost use Rattle.rational.specs.Rational.{ℚ, int};
ghost use Rattle.rational.specs.Extended.{Ext};
ghost use Rattle.upp_curve.specs.Curve.{value_at};
ghost use Rattle.curve_call.specs.Gaps.{InWindow, IsGap};
ghost use Rattle.element_envelope.specs.ElementRoom.{WindowTime};
ghost use Rattle.curve_conv.specs.PartGaps.{PartGapStands, ArePartValues, HavePartValues};
ghost use Rattle.curve_conv.specs.Scans.{sizes_in, IsScan};
ghost use Rattle.curve_conv.specs.SpanElements.{IsPartWindow};

use crate::made::part_at;
use crate::rows::Scan;
use curve_call::{Gap, earlier, larger, stretch_gap};
use fraction128::{Frac, is_less};
use upp_curve::affine_segment::Piece;

/// By how much, from `from` to the end of the window, the splits of which the first side is `first` or later make
/// more than those of which it is before, and the second is `second` or later. Each of both parts is read from its
/// pieces, where they are made, or else found by a scan at each time. No memory is taken.
pub(crate) fn part_gap(
    s: &Scan,
    made_late: &Option<Vec<Piece>>,
    made_soon: &Option<Vec<Piece>>,
    first: Frac,
    second: Frac,
    from: Frac,
) -> Gap
    requires scan { IsScan s.now.first.now s.now.second.now s.now.end }
    requires late { IfSome made_late.now (λ v. IsPartWindow (sizes_in s.now.first.now s.now.second.now s.now.end)
        s.now.end (value_at s.now.first.now)
        (value_at s.now.second.now) first None (int (pos 0)) v.items) }
    requires soon { IfSome made_soon.now (λ v. IsPartWindow (sizes_in s.now.first.now s.now.second.now s.now.end)
        s.now.end (value_at s.now.first.now)
        (value_at s.now.second.now) (int (pos 0)) (Some first) second v.items) }
    requires first { WindowTime (sizes_in s.now.first.now s.now.second.now s.now.end) s.now.end first }
    requires second { WindowTime (sizes_in s.now.first.now s.now.second.now s.now.end) s.now.end second }
    requires from { WindowTime (sizes_in s.now.first.now s.now.second.now s.now.end) s.now.end from }
    ensures gap { (a b : ℚ → Ext) → ArePartValues (value_at s.now.first.now)
        (value_at s.now.second.now) first second from s.now.end a b
        → IsGap (InWindow from s.now.end) a b result }
    ensures values { (t : ℚ) → InWindow from s.now.end t → HavePartValues (value_at s.now.first.now)
        (value_at s.now.second.now) first second t }
    ensures sizes { PartGapStands (sizes_in s.now.first.now s.now.second.now s.now.end) result }
{
    let zero = Frac::zero();
    let until = Some(first);
    let mut gap = Gap::NoTime;
    let mut t = from;
    'times: while is_less(t, s.end) {
        let late = part_at(s, made_late, first, &None, zero, t);
        let soon = part_at(s, made_soon, zero, &until, second, t);
        let next = earlier(earlier(s.end, &late.next), &soon.next);
        let more = stretch_gap(&late, &soon, t, next);
        gap = larger(gap, more);
        t = next;
    }
    gap
}
