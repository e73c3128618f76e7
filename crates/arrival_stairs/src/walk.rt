//! The walk over the turns of bundles: from one to the next they are together on one line.

ghost use Rattle.std.specs.Prelude.{◌≡◌, ℕ, ◌+◌, ◌*◌, ◌^◌, ◌<◌, ◌≤◌, IfOk, OnOk};
ghost use Rattle.arrival_stairs.specs.Ahead.{IsAheadUpTo};
ghost use Rattle.arrival_heights.specs.Heights.{AreMoments, IsMoment, most_ahead};
ghost use Rattle.arrival_stairs.specs.Jumps.{jump_count};
ghost use Rattle.arrival_stairs.specs.Stairs.{AreBundles};
ghost use Rattle.arrival_stairs.specs.Turns.{IsSmallLine};
ghost use Rattle.arrival_stairs.specs.Walks.{AddsEnds, Come, IsLeft};

use crate::stairs::Bundle;
use crate::turns::turns_until;
use arrival_heights::{Height, Moment, at_picosecond, comes_before, height_of_line};
use arrival_lines::Line;
use std::alloc::{AllocError, Global};

/// What the lines of some turns come to together.
#[derive(Clone, Copy)]
pub(crate) struct Total {
    pub(crate) burst: u128,
    pub(crate) rate: u128,
}

/// With a line more, of at most so many lines.
fn with_line(total: Total, line: Line, most: usize) -> Total
    requires burst { total.burst ≤ most * 2 ^ 62 }
    requires rate { total.rate ≤ most * 2 ^ 62 }
    ensures burst { result.burst ≡ total.burst + line.burst }
    ensures rate { result.rate ≡ total.rate + line.rate }
{
    Total {
        burst: total.burst + line.burst as u128,
        rate: total.rate + line.rate as u128,
    }
}

/// The line that is left of those gone over to, without those that were gone off.
fn line_left(on: Total, off: Total) -> Line
    requires { IsLeft on off }
    ensures burst { result.burst + off.burst ≡ on.burst }
    ensures rate { result.rate + off.rate ≡ on.rate }
{
    Line {
        burst: (on.burst - off.burst) as u64,
        rate: (on.rate - off.rate) as u64,
    }
}

/// Adds what the line comes to at two times.
fn add_ends(
    line: Line,
    begin: Moment,
    to: Moment,
    heights: &mut Vec<Height>,
) -> Result<(), AllocError>
    requires line { IsSmallLine line }
    requires begin { IsMoment begin }
    requires to { IsMoment to }
    ensures { OnOk result (AddsEnds line begin to heights.old.items heights.new.items) }
{
    heights.push(Height {
        at: begin,
        grains: height_of_line(line, begin),
    })?;
    heights.push(Height {
        at: to,
        grains: height_of_line(line, to),
    })?;
    Ok(())
}

/// The same for the line that is left, where the one time comes before the other; else nothing.
fn add_ends_before(
    on: Total,
    off: Total,
    begin: Moment,
    to: Moment,
    heights: &mut Vec<Height>,
) -> Result<(), AllocError>
    requires left { Come begin to → IsLeft on off }
    requires begin { IsMoment begin }
    requires to { IsMoment to }
    ensures some { OnOk result ((line : Line) → Come begin to → line.burst + off.burst ≡ on.burst → line.rate + off.rate ≡ on.rate → AddsEnds line begin to heights.old.items heights.new.items) }
    ensures none { OnOk result ((Come begin to → ⊥) → heights.new.items ≡ heights.old.items) }
{
    if comes_before(begin, to) {
        add_ends(line_left(on, off), begin, to, heights)?;
    }
    Ok(())
}

/// What the bundles come to where they may be furthest above a rate from 0 to a time in picoseconds. The rate is not
/// asked for: so one walk serves all services of a queue.
pub(crate) fn heights_until(
    alloc: Global,
    bundles: &[Bundle],
    end: u64,
) -> Result<Vec<Height>, AllocError>
    requires bundles { AreBundles bundles.now }
    requires end { end < 2 ^ 62 }
    requires few { jump_count end bundles.now ≤ 2 ^ 20 }
    ensures moments { IfOk result (λ v. AreMoments v.items) }
    ensures greatest { IfOk result (λ v. (rate : ℕ) → IsAheadUpTo bundles.now rate end (most_ahead rate v.items)) }
{
    let turns = turns_until(alloc, bundles, end)?;
    let count = turns.len();
    let mut heights = Vec::new(alloc);
    let mut begin = at_picosecond(0);
    let mut on = Total { burst: 0, rate: 0 };
    let mut off = on;
    for turn in &turns {
        add_ends_before(on, off, begin, turn.at, &mut heights)?;
        on = with_line(on, turn.on, count);
        off = with_line(off, turn.off, count);
        begin = turn.at;
    }
    add_ends(line_left(on, off), begin, at_picosecond(end), &mut heights)?;
    Ok(heights)
}
