//! The value of a curve at a time, with its limit.

ghost use Rattle.std.specs.Prelude.{◌≡◌, ◌<◌, ◌≤◌, ◌^◌, IsTrue, ◌↔◌};
ghost use Rattle.rational.specs.Rational.{◌≤ℚ◌};
ghost use Rattle.min_plus.specs.Functions.{zero_q};
ghost use Rattle.upp_curve.specs.Curve.{value_at};
ghost use Rattle.upp_curve.specs.Curves.{IsCurve};
ghost use Rattle.upp_limits.specs.Limits.{own_end};
ghost use Rattle.upp_limits.specs.Periods.{own_period};
ghost use Rattle.curve_lang.specs.Finding.{ValueFinds, value_end, value_gauge};
ghost use Rattle.curve_lang.specs.Times.{IsPastOwn};

use curve_call::{call_window, rise_over};
use fraction128::{Ext, Frac, difference, greater, is_less, sum};
use input_texts::curve_script::LangKind;
use rational::Extended;
use upp_curve::Curve;
use upp_limits::{OpKind, call_numbers};
use upp_normal::stretch_at;

// Whether the gauge of a value is below 2^120. The time counts as one of the curve's times, as that of a shift does.
fn is_narrow(f: &Curve, t: Frac, end: Frac) -> bool
    requires { end ≡ value_end f.now t }
    ensures { IsTrue result ↔ (value_gauge f.now t < 2 ^ 120) }
{
    match call_numbers(&OpKind::Shift(Extended::Fin(t)), f, f, end) {
        Some(numbers) => numbers.gauge < 1 << 120,
        None => false,
    }
}

// The value at a time past the curve's own window: that of a period before, risen.
fn late_value(f: &Curve, t: Frac, period: Frac) -> Ext
    requires period { period ≡ own_period f.now }
    requires late { IsPastOwn f.now t }
    ensures { result ≡ value_at f.now t }
{
    match stretch_at(f, difference(t, period)).at {
        Extended::Inf => Extended::Inf,
        Extended::Fin(before) => Extended::Fin(sum(before, rise_over(f, period))),
    }
}

/// The value of a curve at a time from 0 on.
pub(crate) fn value_found(f: &Curve, t: Frac) -> Result<Ext, LangKind>
    requires { zero_q ≤ℚ t }
    ensures { ValueFinds f.now t result }
{
    let Some(own) = call_window(&OpKind::Itself, f, f, 0, 0) else {
        return Err(LangKind::TooWide);
    };
    if !is_narrow(f, t, greater(t, own.end)) {
        return Err(LangKind::TooWide);
    }
    if is_less(t, own.end) {
        Ok(stretch_at(f, t).at)
    } else {
        Ok(late_value(f, t, own.period))
    }
}
