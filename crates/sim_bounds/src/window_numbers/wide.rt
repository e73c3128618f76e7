//! Whether the gauge of gathered numbers is too large.

ghost use Rattle.std.specs.Prelude.{ℕ, ◌↔◌, ◌≤◌, ◌^◌, IsTrue};
ghost use Rattle.rational.specs.Gauge.{Kept};
ghost use Rattle.upp_limits.specs.Limits.{Numbers, joined, time_alone, sizes_of};
ghost use Rattle.upp_limits.specs.Gathered.{Gathers};
ghost use Rattle.sim_bounds.specs.window_numbers.Rated.{gauge_with};

use fraction128::Frac;
use upp_limits::gathered::Gathered;
use upp_limits::gauges::{product, reach};

/// Whether the gauge of the numbers gathered, on a grid of times made finer by `rates`, is 2^120 or more.
pub fn is_over(g: Gathered, rates: u128, end: Frac) -> bool
    ensures { (n : Numbers) (r : ℕ) → Gathers g (joined (time_alone end) n) → Kept rates r
        → IsTrue result ↔ (2 ^ 120 ≤ gauge_with r (sizes_of end n)) }
{
    if g.steepness == u128::MAX {
        return true;
    }
    match reach(g.steepness, end) {
        None => true,
        Some(far) => {
            let grid = g.dt.saturating_mul(rates);
            match product(g.largest.max(far), g.steepness, g.dv, grid, g.ds) {
                None => true,
                Some(gauge) => gauge >= 1 << 120,
            }
        }
    }
}
