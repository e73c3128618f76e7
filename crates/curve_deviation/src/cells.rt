//! How long one line lies behind another over a stretch of each.

ghost use Rattle.std.specs.Prelude.{◌≡◌, ◌≢◌, ◌↔◌, IsTrue, pos};
ghost use Rattle.rational.specs.Rational.{ℚ, int, ◌-ℚ◌, ◌*ℚ◌, ◌/ℚ◌, ◌<ℚ◌, ◌≤ℚ◌, neg_ℚ};
ghost use Rattle.rational.specs.Ratio.{IsSmall, SumFits};
ghost use Rattle.upp_curve.specs.affine_segment.Values.{line_at};
ghost use Rattle.upp_curve.specs.affine_segment.Fits.{LineFits};
ghost use Rattle.upp_limits.specs.Limits.{Sizes};
ghost use Rattle.upp_limits.specs.Sized.{IsSlope};
ghost use Rattle.curve_deviation.specs.Cells.{RisingCell, CellSizes, AreLevels, IsTimeTo, IsCellLag};

use fraction128::{Frac, difference, is_less, quotient};
use upp_curve::affine_segment::{Line, line_at};

/// Two lines, each over its stretch.
#[derive(Debug, Clone, Copy)]
pub struct Cell {
    /// The line that is to be reached.
    pub first: Line,
    /// Where its stretch starts.
    pub start: Frac,
    /// Where its stretch ends.
    pub end: Frac,
    /// The line that lies behind.
    pub second: Line,
    /// Where its stretch starts.
    pub from: Frac,
    /// Where its stretch ends.
    pub until: Frac,
}

/// The values of a cell's lines where their stretches start and end.
#[derive(Debug, Clone, Copy)]
pub struct Levels {
    /// The first line's at `start`.
    pub start: Frac,
    /// The first line's at `end`.
    pub end: Frac,
    /// The second line's at `from`.
    pub from: Frac,
    /// The second line's at `until`.
    pub until: Frac,
}

/// How far the first line is above the second at a time, divided by a slope above 0.
fn gap_over(c: &Cell, at: Frac, slope: Frac) -> Frac
    requires sizes { (z : Sizes) × (last : ℚ) × CellSizes z last c.now × IsTimeTo z last at × IsSlope z slope }
    requires some { int (pos 0) <ℚ slope }
    ensures { result *ℚ slope ≡ line_at c.now.first at -ℚ line_at c.now.second at }
{
    let gap = difference(line_at(&c.first, at), line_at(&c.second, at));
    quotient(gap, slope)
}

/// The lag of a cell whose first line is the steeper one, and starts no higher than the second ends: where the one of
/// the two that ends first does so.
fn steep_lag(c: &Cell, levels: &Levels) -> Frac
    requires sizes { (z : Sizes) × (last : ℚ) × CellSizes z last c.now }
    requires levels { AreLevels c.now levels.now }
    requires rising { RisingCell c.now }
    requires low { line_at c.now.first c.now.start ≤ℚ line_at c.now.second c.now.until }
    requires steep { c.now.second.slope <ℚ c.now.first.slope }
    ensures { IsCellLag c.now result }
{
    if is_less(levels.until, levels.end) {
        return gap_over(c, c.until, c.first.slope);
    }
    if is_less(levels.from, levels.end) {
        return gap_over(c, c.end, c.second.slope);
    }
    Frac::zero()
}

/// The lag of a cell whose first line is not the steeper one, and starts no higher than the second ends: where the
/// first starts.
fn gentle_lag(c: &Cell, levels: &Levels) -> Frac
    requires sizes { (z : Sizes) × (last : ℚ) × CellSizes z last c.now }
    requires levels { AreLevels c.now levels.now }
    requires rising { RisingCell c.now }
    requires low { line_at c.now.first c.now.start ≤ℚ line_at c.now.second c.now.until }
    requires gentle { c.now.first.slope ≤ℚ c.now.second.slope }
    ensures { IsCellLag c.now result }
{
    if is_less(levels.from, levels.start) {
        return gap_over(c, c.start, c.second.slope);
    }
    Frac::zero()
}

/// The lag of a cell: how much later at most the second line reaches a level that the first has left, each within its
/// stretch; 0 where it never does so later. Made by one quotient of a difference of values by a slope.
pub(crate) fn cell_lag(c: &Cell, levels: &Levels) -> Frac
    requires sizes { (z : Sizes) × (last : ℚ) × CellSizes z last c.now }
    requires levels { AreLevels c.now levels.now }
    requires rising { RisingCell c.now }
    ensures { IsCellLag c.now result }
{
    if is_less(levels.until, levels.start) {
        return difference(c.until, c.start);
    }
    if is_less(c.second.slope, c.first.slope) {
        steep_lag(c, levels)
    } else {
        gentle_lag(c, levels)
    }
}
