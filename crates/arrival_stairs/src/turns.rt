//! The lines on which bundles are, one after the other: a level, or the pace below it.

ghost use Rattle.std.specs.Prelude.{◌≡◌, ◌+◌, ◌*◌, ◌^◌, ◌<◌, ◌≤◌, All, IfOk, IfSome, OnOk, length};
ghost use Rattle.arrival_stairs.specs.Jumps.{jump_count};
ghost use Rattle.arrival_stairs.specs.Stairs.{AreBundles, IsStair, bundle_level};
ghost use Rattle.arrival_stairs.specs.Turns.{AddsBundle, AreInTurn, AreTurnsOf, IsSettled, IsSmallLine, line_of};

use crate::jumps::jumps_of;
use crate::stairs::{Bundle, level_of};
use arrival_heights::{Moment, at_picosecond, height_of_line, sooner, times};
use arrival_lines::Line;
use std::alloc::{AllocError, Global};

/// The picoseconds of a second.
const SECOND: u64 = 1_000_000_000_000;

/// When a bundle goes over from one line to another.
#[derive(Clone, Copy)]
pub(crate) struct Turn {
    pub(crate) at: Moment,
    pub(crate) off: Line,
    pub(crate) on: Line,
}

/// A level as a line.
fn flat(level: u64) -> Line
    ensures { result ≡ record { burst = level; rate = 0 } }
{
    Line {
        burst: level,
        rate: 0,
    }
}

/// The line of a bundle at a level and with a pace, at a time in picoseconds: the pace where that is lower.
fn line_at(level: u64, pace: Option<Line>, time: u64) -> Line
    requires level { level < 2 ^ 62 }
    requires pace { IfSome pace IsSmallLine }
    requires time { time < 2 ^ 62 }
    ensures { result ≡ line_of level pace time }
{
    match pace {
        None => flat(level),
        Some(pace) => {
            if height_of_line(pace, at_picosecond(time)) < times(level, SECOND) {
                pace
            } else {
                flat(level)
            }
        }
    }
}

/// The line of a bundle at a level up to a time in picoseconds, where it begins on the line: this one, or the level
/// where the line reaches it before, which is a turn.
fn settle(line: Line, level: u64, to: u64, turns: &mut Vec<Turn>) -> Result<Line, AllocError>
    requires { line.burst ≤ level }
    ensures { IfOk result (IsSettled line level to turns.old.items turns.new.items) }
{
    let rise = level - line.burst;
    if to as u128 * line.rate as u128 <= rise as u128 * SECOND as u128 {
        return Ok(line);
    }
    let on = flat(level);
    turns.push(Turn {
        at: Moment {
            over: rise,
            under: line.rate,
        },
        off: line,
        on,
    })?;
    Ok(on)
}

/// Adds the turns of a bundle up to a time in picoseconds, the first of them at 0 onto its first line.
fn bundle_turns(
    alloc: Global,
    bundle: &Bundle,
    end: u64,
    turns: &mut Vec<Turn>,
) -> Result<(), AllocError>
    requires stairs { All IsStair bundle.now.stairs.items }
    requires level { bundle_level end bundle.now < 2 ^ 62 }
    requires pace { IfSome bundle.now.pace IsSmallLine }
    requires end { end < 2 ^ 62 }
    ensures { OnOk result (AddsBundle bundle.now end turns.old.items turns.new.items) }
{
    let mut level = level_of(bundle);
    let mut line = line_at(level, bundle.pace, 0);
    turns.push(Turn {
        at: at_picosecond(0),
        off: flat(0),
        on: line,
    })?;
    let jumps = jumps_of(alloc, bundle, end)?;
    for jump in &jumps {
        let off = settle(line, level, jump.time, turns)?;
        level += jump.frame;
        line = line_at(level, bundle.pace, jump.time);
        turns.push(Turn {
            at: at_picosecond(jump.time),
            off,
            on: line,
        })?;
    }
    settle(line, level, end, turns)?;
    Ok(())
}

/// The turns of the bundles up to a time in picoseconds, in the order of their times.
pub(crate) fn turns_until(
    alloc: Global,
    bundles: &[Bundle],
    end: u64,
) -> Result<Vec<Turn>, AllocError>
    requires bundles { AreBundles bundles.now }
    requires end { end < 2 ^ 62 }
    requires few { jump_count end bundles.now ≤ 2 ^ 20 }
    ensures are { IfOk result (λ v. AreTurnsOf bundles.now end v.items) }
    ensures order { IfOk result (λ v. AreInTurn v.items) }
{
    let mut turns = Vec::new(alloc);
    for bundle in bundles {
        bundle_turns(alloc, bundle, end, &mut turns)?;
    }
    turns.sort_by(|one, other| sooner(one.at, other.at))?;
    Ok(turns)
}
