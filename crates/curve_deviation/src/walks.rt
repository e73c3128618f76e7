//! The longest lag of one curve behind another, by one walk over the stretches of both.

ghost use Rattle.std.specs.Prelude.{◌≡◌, pos, Some};
ghost use Rattle.rational.specs.Rational.{ℚ, int, ◌≤ℚ◌, ◌<ℚ◌};
ghost use Rattle.rational.specs.MinMax.{max_q};
ghost use Rattle.rational.specs.Extended.{◌≤ₑ◌};
ghost use Rattle.upp_curve.specs.affine_segment.Values.{line_at};
ghost use Rattle.upp_curve.specs.Curve.{value_at};
ghost use Rattle.min_plus.specs.Functions.{IsRising};
ghost use Rattle.upp_limits.specs.Limits.{Sizes};
ghost use Rattle.upp_curve.specs.Shapes.{IsLine};
ghost use Rattle.upp_normal.specs.Ahead.{IsTimeIn};
ghost use Rattle.curve_deviation.specs.Cells.{RisingCell, CellSizes, AreLevels, IsTimeTo, IsCellLag};
ghost use Rattle.curve_deviation.specs.Parts.{IsFiniteInSizes};
ghost use Rattle.curve_deviation.specs.Rises.{IsRiseFrom, RiseSizes};
ghost use Rattle.curve_deviation.specs.Lags.{IsLongestLag};
ghost use Rattle.curve_deviation.specs.Sights.{cell_in, levels_in, HasPassed, Sees};

use crate::cells::{Cell, Levels, cell_lag};
use crate::parts::{Part, part_at};
use fraction128::{Frac, greater, is_less, lesser};
use upp_curve::Curve;
use upp_curve::affine_segment::{Line, line_at};

/// Where the walk stands: all times of the first curve before `time` have been looked at, and all of the second up to
/// `reached`.
#[derive(Clone, Copy)]
struct Walk {
    time: Frac,
    reached: Frac,
    lag: Frac,
}

/// A stretch of a curve that rises, on one line.
#[derive(Debug, Clone, Copy)]
pub struct Rise {
    /// The line.
    pub line: Line,
    /// Where the stretch ends.
    pub until: Frac,
    /// The line's value where the stretch starts.
    pub low: Frac,
    /// The line's value where it ends.
    pub high: Frac,
}

/// The stretches that are looked at: of the first curve from `time` on, and of the second from `reached` on.
#[derive(Clone, Copy)]
struct Sight {
    above: Rise,
    below: Rise,
}

/// The line of a part of a finite curve.
fn line_of(part: &Part) -> Line
    requires { IsLine part.now.line }
    ensures { part.now.line ≡ Some result }
{
    match part.line {
        Some(line) => line,
        None => Line {
            icept: Frac::zero(),
            slope: Frac::zero(),
        },
    }
}

/// How a curve that rises goes on from a time t of a window, up to `until`.
fn rise_at(c: &Curve, t: Frac, until: Frac, end: Frac) -> Rise
    requires seen { (z : Sizes) × IsFiniteInSizes z end c.now × IsTimeIn z end t × IsTimeTo z end until }
    requires rising { IsRising (value_at c.now) }
    requires before { t <ℚ until }
    ensures rise { IsRiseFrom (value_at c.now) t until result }
    ensures sizes { (z : Sizes) → IsFiniteInSizes z end c.now → IsTimeIn z end t → IsTimeTo z end until
        → RiseSizes z end result }
{
    let part = part_at(c, t, end);
    let line = line_of(&part);
    let last = lesser(until, part.until);
    Rise {
        line,
        until: last,
        low: line_at(&line, t),
        high: line_at(&line, last),
    }
}

/// The two lines that are looked at, each over its stretch.
fn cell_of(walk: &Walk, sight: &Sight) -> Cell
    ensures { result ≡ cell_in walk.now sight.now }
{
    Cell {
        first: sight.above.line,
        start: walk.time,
        end: sight.above.until,
        second: sight.below.line,
        from: walk.reached,
        until: sight.below.until,
    }
}

/// Their values where they start and end.
fn levels_of(sight: &Sight) -> Levels
    ensures { result ≡ levels_in sight.now }
{
    Levels {
        start: sight.above.low,
        end: sight.above.high,
        from: sight.below.low,
        until: sight.below.high,
    }
}

/// One step: past the second's stretch where it ends below the first's, else past the first's.
fn step(cell: &Cell, levels: &Levels, lag: Frac) -> Walk
    requires sizes { (z : Sizes) × (last : ℚ) × CellSizes z last cell.now }
    requires levels { AreLevels cell.now levels.now }
    requires rising { RisingCell cell.now }
    ensures lag { (q : ℚ) × IsCellLag cell.now q × (result.lag ≡ max_q lag q) }
    ensures second { line_at cell.now.second cell.now.until <ℚ line_at cell.now.first cell.now.end
        → (result.time ≡ cell.now.start) × (result.reached ≡ cell.now.until) }
    ensures first { line_at cell.now.first cell.now.end ≤ℚ line_at cell.now.second cell.now.until
        → (result.time ≡ cell.now.end) × (result.reached ≡ cell.now.from) }
{
    let lag = greater(lag, cell_lag(cell, levels));
    if is_less(levels.until, levels.end) {
        Walk {
            time: cell.start,
            reached: cell.until,
            lag,
        }
    } else {
        Walk {
            time: cell.end,
            reached: cell.from,
            lag,
        }
    }
}

/// What is seen after a step that led from `walk` to `next`: the stretch that it passed is looked up anew, unless it was
/// the first's last one.
fn sight_after(
    f: &Curve,
    g: &Curve,
    sight: &Sight,
    walk: &Walk,
    next: &Walk,
    until: Frac,
    end: Frac,
) -> Sight
    ghost sizes: { Sizes }
    requires curves { IsFiniteInSizes sizes end f.now × IsFiniteInSizes sizes end g.now }
    requires rising { IsRising (value_at f.now) × IsRising (value_at g.now) }
    requires until { IsTimeIn sizes end until }
    requires seen { Sees sizes (value_at f.now) (value_at g.now) walk.now until end sight.now }
    requires passed { HasPassed walk.now sight.now next.now }
    requires times { IsTimeTo sizes until next.now.time × IsTimeIn sizes end next.now.reached }
    ensures { Sees sizes (value_at f.now) (value_at g.now) next.now until end result }
{
    if is_less(walk.reached, next.reached) {
        return Sight {
            above: sight.above,
            below: rise_at(g, next.reached, end, end),
        };
    }
    if is_less(next.time, until) {
        return Sight {
            above: rise_at(f, next.time, until, end),
            below: sight.below,
        };
    }
    *sight
}

/// The longest lag of g behind what f is before `until`, where both are finite and rise, and g reaches f's value at
/// `until` before the window's end. Each step passes a stretch of one of the two below the window's end; nothing is
/// unrolled, and no memory is taken. The window's sizes are those of a gauge below 2^120 over both curves' numbers.
pub(crate) fn longest_lag(f: &Curve, g: &Curve, until: Frac, end: Frac) -> Frac
    ghost sizes: { Sizes }
    requires first { IsFiniteInSizes sizes end f.now }
    requires second { IsFiniteInSizes sizes end g.now }
    requires rising { IsRising (value_at f.now) × IsRising (value_at g.now) }
    requires until { IsTimeIn sizes end until }
    requires reached { (w : ℚ) × (int (pos 0) ≤ℚ w) × (w <ℚ end) × (value_at f.now until ≤ₑ value_at g.now w) }
    ensures { IsLongestLag (λ s. s <ℚ until) (value_at f.now) (value_at g.now) result }
{
    let start = Frac::zero();
    if !is_less(start, until) {
        return start;
    }
    let mut walk = Walk {
        time: start,
        reached: start,
        lag: start,
    };
    let above = rise_at(f, start, until, end);
    let below = rise_at(g, start, end, end);
    let mut sight = Sight { above, below };
    while is_less(walk.time, until) {
        let cell = cell_of(&walk, &sight);
        let levels = levels_of(&sight);
        let next = step(&cell, &levels, walk.lag);
        sight = sight_after(f, g, &sight, &walk, &next, until, end);
        walk = next;
    }
    walk.lag
}
