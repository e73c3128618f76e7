//! Whether a convolution needs no period, where the slower curve is infinite for a while after 0, as the sums of a line on
//! an open stretch are: the splits of which the first side is later are moved by a common period, and the one of which it is
//! 0 to a late time. No memory is taken.

ghost use Rattle.std.specs.Prelude.{◌≡◌, pos, IfSome, IsTrue};
ghost use Rattle.rational.specs.Rational.{ℚ, int, ◌≤ℚ◌};
ghost use Rattle.rational.specs.Grid.{Whole};
ghost use Rattle.upp_curve.specs.Curve.{value_at};
ghost use Rattle.upp_curve.specs.Steady.{steady};
ghost use Rattle.upp_limits.specs.Limits.{Sizes};
ghost use Rattle.upp_normal.specs.Ahead.{HasWindow, IsTimeIn};
ghost use Rattle.curve_conv.specs.Late.{IsLateAfter, IsLateCall};
ghost use Rattle.curve_conv.specs.Begun.{IsBegun, IsStartMoved, HasLateStart};
ghost use Rattle.curve_conv.specs.Scans.{sizes_in};

use crate::extremes::value_there;
use crate::rises::rise_between;
use crate::rows::Scan;
use curve_call::{checked_difference, period_or, rise_over};
use fraction128::{Frac, is_less};
use upp_curve::Curve;
use upp_normal::stretch_at;

/// So many late times are tried, each a period of the faster curve's own before the other.
const STARTS: u32 = 16;

/// So many pieces are looked at for each; of a curve that has more, nothing is told.
const PIECES: u32 = 16384;

// Until when a curve is infinite after 0; none where it is not, or is so for ever.
fn begun_at(c: &Curve) -> Option<Frac>
    requires { (z : Sizes) × (end : ℚ) × HasWindow z end c.now × IsTimeIn z end (int (pos 0)) }
    ensures { IfSome result (IsBegun c.now) }
{
    let here = stretch_at(c, Frac::zero());
    match here.line {
        Some(_) => None,
        None => here.next,
    }
}

// Whether the split of each time of the window of which the first side is 0 makes no less than the one of which it is v.
fn start_moves(s: &Scan, v: Frac, from: Frac, period: Frac) -> bool
    requires call { IsLateCall s.now.first.now s.now.second.now from period s.now.end }
    requires whole { Whole (sizes_in s.now.first.now s.now.second.now s.now.end).dt v }
    requires some { int (pos 0) ≤ℚ v }
    requires soon { v ≤ℚ from }
    ensures { IsTrue result → IsStartMoved (value_at s.now.first.now) (value_at s.now.second.now) v from s.now.end }
{
    let Some(start) = value_there(s.first, Frac::zero()) else {
        return false;
    };
    let Some(late) = value_there(s.first, v) else {
        return false;
    };
    let Some(rise) = checked_difference(start, late) else {
        return false;
    };
    let Some(most) = rise_between(s.second, from, s.end, v.negated(), rise, PIECES) else {
        return false;
    };
    if is_less(rise, most) {
        return false;
    }
    true
}

// Whether that is so of one of a few late times.
fn start_suffices(s: &Scan, first: Frac, from: Frac, period: Frac) -> bool
    requires call { IsLateCall s.now.first.now s.now.second.now from period s.now.end }
    requires first { first ≡ steady s.now.first.now }
    ensures { IsTrue result → HasLateStart (value_at s.now.first.now) (value_at s.now.second.now) first from s.now.end }
{
    let own = period_or(s.second, period);
    let mut v = from;
    for _turn in 0..STARTS {
        if is_less(v, first) {
            return false;
        }
        if start_moves(s, v, from, period) {
            return true;
        }
        let Some(sooner) = checked_difference(v, own) else {
            return false;
        };
        v = sooner;
    }
    false
}

/// Whether no period is needed, as both moves tell it. The slower curve repeats from `first` on.
pub(crate) fn begun_suffices(s: &Scan, first: Frac, from: Frac, period: Frac) -> bool
    requires call { IsLateCall s.now.first.now s.now.second.now from period s.now.end }
    requires first { first ≡ steady s.now.first.now }
    ensures { IsTrue result → IsLateAfter s.now.first.now s.now.second.now from period 0 }
{
    let Some(begin) = begun_at(s.first) else {
        return false;
    };
    let rise = rise_over(s.second, period);
    let Some(most) = rise_between(s.first, begin, first, period, rise, PIECES) else {
        return false;
    };
    if is_less(rise, most) {
        return false;
    }
    start_suffices(s, first, from, period)
}
