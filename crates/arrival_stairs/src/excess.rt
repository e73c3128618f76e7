//! How far bundles are above a rate at most: the walk up to a time, and lines from there on.

ghost use Rattle.std.specs.Prelude.{◌≡◌, ◌^◌, ◌<◌, ◌≤◌, List, length};
ghost use Rattle.arrival_lines.specs.Steps.{AreSlowing, AreSteps};
ghost use Rattle.arrival_stairs.specs.BelowLines.{BundlesBelowLines, line_parts};
ghost use Rattle.arrival_heights.specs.Heights.{AreMoments};
ghost use Rattle.arrival_stairs.specs.Horizon.{IsEnd, IsTailOfFirst, IsWalk};
ghost use Rattle.arrival_heights.specs.Slow.{IsSlowBurst};
ghost use Rattle.arrival_stairs.specs.Lows.{AreLows};
ghost use Rattle.arrival_stairs.specs.Stairs.{AreBundles};
ghost use Rattle.arrival_stairs.specs.StairExcess.{ExcessIsABound, ExcessIsOne, IsStairExcess};
ghost use Rattle.arrival_stairs.specs.declared.stairs.Bundle.{Bundle};

use crate::walks::Walk;
use arrival_heights::greater;
use arrival_lines::{Line, count_faster};

/// The picoseconds of a second.
const SECOND: u128 = 1_000_000_000_000;

/// By how many grains the least of the lines that grow no faster than the rate is above it from the walk's end on, rounded
/// up; at most so many.
fn tail(walk: &Walk, lines: &[Line], rate: u64, most: u64) -> u64
    requires slowing { AreSlowing lines.now }
    requires lows { AreLows lines.now walk.now.end (length lines.now) walk.now.lows.items }
    ensures { IsTailOfFirst lines.now rate most walk.now.end (length lines.now) result }
{
    let slow = lines.len() - count_faster(lines, rate);
    if slow == 0 {
        return most;
    }
    let served = rate as u128 * walk.end as u128;
    let ahead = walk.lows[slow - 1].saturating_sub(served);
    ahead.div_ceil(SECOND).min(most as u128) as u64
}

/// By how many grains the bundles of the walk are above the rate at most, rounded up, where these are the steps of their
/// lines, and so many grains the burst of one of them that is no faster: up to the walk's end by the walk, and from there on
/// by the lines.
pub(crate) fn stair_excess(walk: &Walk, steps: &[Line], rate: u64, most: u64) -> u64
    requires moments { AreMoments walk.now.peaks.heights.items }
    requires slowing { AreSlowing steps.now }
    requires lows { AreLows steps.now walk.now.end (length steps.now) walk.now.lows.items }
    requires rate { rate < 2 ^ 62 }
    ensures { (bundles : List Bundle) → AreBundles bundles → AreSteps (line_parts bundles) steps.now → IsSlowBurst steps.now rate most
        → IsWalk bundles walk.now → IsEnd bundles steps.now rate walk.now.end → IsStairExcess bundles rate result }
{
    let walked = walk.peaks.ahead(rate);
    let later = tail(walk, steps, rate, most);
    greater(walked, later as u128).min(most as u128) as u64
}

/// Bundles are nowhere above their lines: a law.
pub fn bundles_below_lines()
    ensures { BundlesBelowLines }
{}

/// Bundles are from 0 on no further above a rate than their excess over it: a law.
pub fn excess_is_a_bound()
    ensures { ExcessIsABound }
{}

/// Bundles of the same stairs and paces have one excess over a rate: a law.
pub fn excess_is_one()
    ensures { ExcessIsOne }
{}
