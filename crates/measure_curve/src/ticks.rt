//! Times on a grid: whole numbers of steps of one length.

ghost use Rattle.std.specs.Prelude.{◌≡◌, ◌<◌, ◌^◌, ◌*◌, nat_abs, pos};
ghost use Rattle.rational.specs.Rational.{int, ◌≤ℚ◌, den};
ghost use Rattle.measure_curve.specs.Scans as scans;
ghost use Rattle.measure_curve.specs.Staircases as staircases;

use fraction128::Frac;

/// A time as a number of steps of 1 / grid.
pub(crate) fn ticks(time: Frac, grid: u128) -> u128
    requires { scans.ticks grid time < 2 ^ 127 }
    ensures { result ≡ scans.ticks grid time }
{
    let parts = grid / time.denominator();
    time.numerator().unsigned_abs() * parts
}

/// A number of steps of 1 / grid as a time.
pub(crate) fn time_of(ticks: u128, grid: u128) -> Frac
    requires some { 0 < grid }
    requires grid { grid < 2 ^ 127 }
    requires ticks { ticks < 2 ^ 127 }
    ensures { result ≡ staircases.time_of grid ticks }
{
    Frac::new(ticks as i128, grid as i128).unwrap()
}
