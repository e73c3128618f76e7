//! The value of a curve at a time of a window.

ghost use Rattle.std.specs.Prelude.{◌≡◌, ◌↔◌, IsTrue};
ghost use Rattle.rational.specs.Rational.{◌-ℚ◌, ◌+ℚ◌, ◌≤ℚ◌};
ghost use Rattle.rational.specs.Extended.{◌+ₑ◌};
ghost use Rattle.upp_curve.specs.Curve.{value_at};
ghost use Rattle.upp_curve.specs.Curves.{IsCurve};
ghost use Rattle.upp_curve.specs.Readable.{SumFitsAt};
ghost use Rattle.upp_normal.specs.Unrolling.{IsOperandTo};
ghost use Rattle.flow_watch.specs.curve_values.Early.{IsEarly};

use fraction128::{Ext, Frac, difference, is_less, sum};
use rational::Extended;
use upp_curve::affine_segment::read;
use upp_curve::{Curve, Tail};
use upp_normal::stretch_at;

/// Whether a time is before the end of a curve's first period, where it has one.
pub fn is_early(c: &Curve, t: Frac) -> bool
    ensures { IsTrue result ↔ IsEarly c.now.tail t }
{
    match *c.tail() {
        Tail::Periodic {
            rank,
            period,
            rise: _,
        } => is_less(t, sum(rank, period)),
        _ => true,
    }
}

/// A value that is higher by a rise.
fn risen(value: Ext, rise: Frac) -> Ext
    requires { SumFitsAt value rise }
    ensures { result ≡ value +ₑ Extended.Fin rise }
{
    match value {
        Extended::Fin(v) => Extended::Fin(sum(v, rise)),
        Extended::Inf => Extended::Inf,
    }
}

/// The value of a curve by the pieces as they are kept.
fn value_kept(c: &Curve, t: Frac) -> Ext
    requires operand { IsOperandTo t c.now }
    requires early { IsEarly c.now.tail t }
    ensures { result ≡ value_at c.now t }
{
    read(c.pieces(), t)
}

/// The value of a curve when a first period has ended: that of a period earlier, risen once.
fn value_again(c: &Curve, rank: Frac, period: Frac, rise: Frac, t: Frac) -> Ext
    requires curve { IsCurve c.now }
    requires tail { c.now.tail ≡ Tail.Periodic rank period rise }
    requires operand { IsOperandTo t c.now }
    requires late { rank +ℚ period ≤ℚ t }
    ensures { result ≡ value_at c.now t }
{
    let before = stretch_at(c, difference(t, period));
    risen(before.at, rise)
}

/// The value of a curve at a time, by binary search in the pieces that are kept: no period is written out, and no memory is taken.
/// The time is the end of a window whose sizes are those of a gauge below 2^120.
pub fn value_within(c: &Curve, t: Frac) -> Ext
    requires { IsOperandTo t c.now }
    ensures { result ≡ value_at c.now t }
{
    if is_early(c, t) {
        return value_kept(c, t);
    }
    match *c.tail() {
        Tail::Periodic { rank, period, rise } => value_again(c, rank, period, rise, t),
        _ => value_kept(c, t),
    }
}
