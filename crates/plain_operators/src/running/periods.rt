//! How many periods pass before the running supremum of a curve repeats.

ghost use Rattle.std.specs.Prelude.{◌≡◌, ◌<◌, pos};
ghost use Rattle.rational.specs.Rational.{int, ◌<ℚ◌, ◌+ℚ◌};
ghost use Rattle.rational.specs.Ratio.{SumFits};
ghost use Rattle.upp_limits.specs.declared.op_kind.OpKind.TheVariants.{RunSup};
ghost use Rattle.upp_curve.specs.affine_segment.Reading.{read};
ghost use Rattle.upp_limits.specs.Windows.{IsLeast, Meets};
ghost use Rattle.plain_operators.specs.running.Periods.{IsCover, CoverFits, IsFirstPeriod, IsCovering, IsSupremumCall, IsCoveredAfter};

use crate::running::between::supremum_between;
use fraction128::{Frac, sum};
use std::cmp::Ordering;
use upp_curve::Curve;
use upp_curve::affine_segment::Piece;

// The least number of rises that take `once` up to `early`.
fn cover(early: Frac, once: Frac, rise: Frac) -> u128
    requires rises { int (pos 0) <ℚ rise }
    requires fits { CoverFits early once rise }
    ensures { IsCover early once rise result }
{
    match early.cmp(&once) {
        Ordering::Greater => match Frac::sub(early, once) {
            Ok(gap) => match Frac::div(gap, rise) {
                Ok(number) => number.size_up(),
                Err(_) => 0,
            },
            Err(_) => 0,
        },
        _ => 0,
    }
}

// The same for pieces up to the end of the first period.
fn covering(ps: &[Piece], start: Frac, period: Frac, rise: Frac) -> u128
    requires { IsFirstPeriod ps.now start period rise }
    ensures { IsCovering (read ps.now) start period rise result }
{
    let reach = sum(start, period);
    let early = supremum_between(ps, reach, Frac::zero(), start);
    let once = supremum_between(ps, reach, start, reach);
    cover(early, once, rise)
}

/// The least number k of periods such that the k-th period after `start` has as great a supremum as all that comes
/// before `start`, from when on the curve itself repeats; 0 where the curve does not rise over a period. The curve
/// is finite and nowhere below 0. No memory is taken and no period is written out.
pub fn supremum_periods(f: &Curve, start: Frac, period: Frac, rise: Frac) -> u128
    requires { IsSupremumCall f.now start period rise }
    ensures least { IsLeast (Meets RunSup f.now f.now) result }
    ensures covered { IsCoveredAfter f.now start period rise result }
{
    let zero = Frac::zero();
    match zero.cmp(&rise) {
        Ordering::Less => match zero.cmp(&start) {
            Ordering::Less => covering(f.pieces(), start, period, rise),
            _ => 0,
        },
        _ => 0,
    }
}
