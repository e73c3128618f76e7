//! Horizontal deviations that are known to be infinite by what is infinite, by the rates, or by the levels at the end.

ghost use Rattle.std.specs.Prelude.{◌≡◌, ◌↔◌, pos, IsTrue};
ghost use Rattle.rational.specs.Rational.{int, ◌<ℚ◌};
ghost use Rattle.upp_curve.specs.Curve.{value_at};
ghost use Rattle.upp_curve.specs.Curves.{IsCurve};
ghost use Rattle.min_plus.specs.Functions.{IsFinite, IsRising};
ghost use Rattle.upp_curve.specs.Steady.{rate, last_line};
ghost use Rattle.upp_limits.specs.Levels.{icept_of, level_of, IsLevelAbove};
ghost use Rattle.upp_limits.specs.Gauges.{EndsAbove, IsKnownAtOnce};

use crate::verticals::{is_faster, is_number};
use upp_curve::Curve;
use upp_limits::{OpKind, is_level, is_level_above};

/// Whether both have rate 0 and f ends above g.
fn ends_above(f: &Curve, g: &Curve) -> bool
    requires { IsRising (value_at f.now) × IsRising (value_at g.now) }
    ensures { IsTrue result ↔ EndsAbove f.now g.now }
{
    if !is_level(f) {
        return false;
    }
    if !is_level(g) {
        return false;
    }
    is_level_above(f, g)
}

/// Whether the horizontal deviation is infinite whatever the sizes are: f is infinite somewhere, or the faster one,
/// or ends above g.
pub(crate) fn is_known(f: &Curve, g: &Curve) -> bool
    requires { IsRising (value_at f.now) × IsRising (value_at g.now) }
    ensures known { IsTrue result ↔ IsKnownAtOnce OpKind.Horizontal f.now g.now }
    ensures finite { ¬ (IsTrue result) → IsFinite (value_at f.now) }
    ensures kept { IsCurve f.now × IsCurve g.now }
{
    f.keeps();
    g.keeps();
    if !is_number(f) {
        return true;
    }
    if is_faster(f, g) {
        return true;
    }
    ends_above(f, g)
}
