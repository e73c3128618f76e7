//! How many periods pass before a service is ahead of what it serves some time later.

ghost use Rattle.std.specs.Prelude.{ℕ, ◌≡◌, pos};
ghost use Rattle.rational.specs.Rational.{int, ◌-ℚ◌, neg_ℚ};
ghost use Rattle.rational.specs.Ratio.{SumFits};
ghost use Rattle.rational.specs.declared.Extended.TheVariants.{Fin};
ghost use Rattle.upp_limits.specs.declared.op_kind.OpKind.TheVariants.{FifoLeft};
ghost use Rattle.upp_curve.specs.Curve.{value_at};
ghost use Rattle.upp_curve.specs.Steady.{rise_over};
ghost use Rattle.upp_limits.specs.Limits.{Sizes};
ghost use Rattle.upp_limits.specs.Windows.{IsLeast, Meets};
ghost use Rattle.curve_call.specs.Bounds.{AreBounds};
ghost use Rattle.curve_call.specs.Rises.{CurveRiseFits};
ghost use Rattle.curve_call.specs.GapSteps.{earlier_of};
ghost use Rattle.plain_operators.specs.running.Behind.{moved, IsBehindCall, IsMost};
ghost use Rattle.plain_operators.specs.running.LeftCall.{IsLeftGate};

use crate::running::numbers::number_of;
use curve_call::{Bounds, CallWindow, earlier, period_or, rise_over};
use fraction128::{Frac, difference, greater, is_less, quotient};
use upp_curve::Curve;
use upp_normal::stretch_at;

/// By how much cross, served theta later, is above beta at its worst over [from, end); 0 where it never is. Only the
/// starts of beta's pieces are looked at: elsewhere beta goes on from its value, and has caught up by then.
fn most_behind(beta: &Curve, cross: &Curve, theta: Frac, from: Frac, end: Frac) -> Frac
    requires { (z : Sizes) × IsBehindCall z beta.now cross.now theta from end }
    ensures { (z : Sizes) → IsBehindCall z beta.now cross.now theta from end
        → IsMost z (value_at beta.now) (moved (value_at cross.now) theta) from end result }
{
    let mut most = Frac::zero();
    let mut t = from;
    while is_less(t, end) {
        let ahead = stretch_at(beta, t);
        let served = stretch_at(cross, difference(t, theta));
        let behind = difference(number_of(served.at), number_of(ahead.at));
        most = greater(most, behind);
        t = earlier(end, &ahead.next);
    }
    most
}

/// By how much f rises more than g over a period.
pub(crate) fn rises_apart(f: &Curve, g: &Curve, period: Frac) -> Frac
    requires left { CurveRiseFits f.now period }
    requires right { CurveRiseFits g.now period }
    requires apart { SumFits (rise_over f.now period) (neg_ℚ (rise_over g.now period)) }
    ensures { result ≡ rise_over f.now period -ℚ rise_over g.now period }
{
    difference(rise_over(f, period), rise_over(g, period))
}

/// The least number of periods after which, for a period, cross, served theta later, is nowhere above beta; 0 where the
/// two have one rate. No memory is taken and nothing is unrolled.
pub(crate) fn enough_periods(beta: &Curve, cross: &Curve, theta: Frac, first: &CallWindow) -> u128
    requires { IsLeftGate beta.now cross.now theta first.now }
    ensures { IsLeast (Meets (FifoLeft (Fin theta)) beta.now cross.now) result }
{
    let most = most_behind(beta, cross, theta, first.start, first.end);
    if !is_less(Frac::zero(), most) {
        return 0;
    }
    let lead = rises_apart(beta, cross, first.period);
    if !is_less(Frac::zero(), lead) {
        return 0;
    }
    quotient(most, lead).size_up()
}

/// Bounds of what `enough_periods` finds, at once: cross, served theta later, is above beta nowhere more than beta rises
/// over one period of its own.
pub(crate) fn behind_bounds(beta: &Curve, cross: &Curve, theta: Frac, first: &CallWindow) -> Bounds
    requires { IsLeftGate beta.now cross.now theta first.now }
    ensures { AreBounds (Meets (FifoLeft (Fin theta)) beta.now cross.now) result }
{
    let lead = rises_apart(beta, cross, first.period);
    if !is_less(Frac::zero(), lead) {
        return Bounds { low: 0, high: 0 };
    }
    let most = rise_over(beta, period_or(beta, first.period));
    Bounds {
        low: 0,
        high: quotient(most, lead).size_up(),
    }
}
