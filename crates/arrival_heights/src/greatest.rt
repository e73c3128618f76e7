//! What parts come to where they may be furthest above a rate between two times.

ghost use Rattle.std.specs.Prelude.{◌≡◌, ℕ, ◌^◌, ◌<◌, ◌≤◌, ◌++◌, ◌∷◌, [], IfSome, OnOk, length};
ghost use Rattle.arrival_heights.specs.Greatest.{AddsHeights, IsBoundAtBend, ahead_if, some_of};
ghost use Rattle.arrival_heights.specs.Heights.{AreSmall, IsMoment};
ghost use Rattle.arrival_heights.specs.Meetings.{AddsMeetings, AreSmallSteps, IsBoundAtMeeting};

use crate::bends::{bend_of, is_between};
use crate::heights::{Height, Moment, at_picosecond, height_at, height_of_line};
use arrival_lines::{Line, Part, steps};
use std::alloc::{AllocError, Global};

/// At no more bends than these the parts are summed up anew.
const FEW: usize = 8;

/// What the parts come to where the part goes over to its other line, if that is between two times in picoseconds.
fn height_at_bend(parts: &[Part], part: Part, begin: u64, end: u64) -> Option<Height>
    requires parts { AreSmall parts.now }
    requires part { AreSmall (part ∷ []) }
    requires order { begin ≤ end }
    ensures bound { (rate : ℕ) → IsBoundAtBend parts.now rate part begin end (ahead_if rate result) }
    ensures moment { IfSome result (λ h. IsMoment h.at) }
{
    match bend_of(part) {
        None => None,
        Some(at) => {
            if is_between(at, begin, end) {
                Some(height_at(parts, at))
            } else {
                None
            }
        }
    }
}

/// Adds the height, if there is one.
fn add(heights: &mut Vec<Height>, found: Option<Height>) -> Result<(), AllocError>
    ensures { OnOk result (heights.new.items ≡ heights.old.items ++ some_of found) }
{
    if let Some(height) = found {
        heights.push(height)?;
    }
    Ok(())
}

/// What the steps come to where the one meets the next, if that is between two times in picoseconds.
fn height_at_meeting(step: Line, next: Line, begin: u64, end: u64) -> Option<Height>
    requires rising { step.burst ≤ next.burst }
    requires falling { next.rate < step.rate }
    requires burst { next.burst < 2 ^ 62 }
    requires rate { step.rate < 2 ^ 62 }
    ensures bound { (rate : ℕ) → IsBoundAtMeeting step next rate begin end (ahead_if rate result) }
    ensures moment { IfSome result (λ h. IsMoment h.at) }
{
    let at = Moment {
        over: next.burst - step.burst,
        under: step.rate - next.rate,
    };
    if is_between(at, begin, end) {
        Some(Height {
            at,
            grains: height_of_line(step, at),
        })
    } else {
        None
    }
}

/// Adds what steps come to where neighbours meet between two times in picoseconds.
fn add_meetings(
    lines: &[Line],
    begin: u64,
    end: u64,
    heights: &mut Vec<Height>,
) -> Result<(), AllocError>
    requires { AreSmallSteps lines.now }
    ensures { OnOk result (AddsMeetings lines.now begin end (length lines.now) heights.old.items heights.new.items) }
{
    for i in 1..lines.len() {
        let found = height_at_meeting(lines[i - 1], lines[i], begin, end);
        add(heights, found)?;
    }
    Ok(())
}

/// Whether the part goes over to its other line between two times in picoseconds.
fn goes_over(part: Part, begin: u64, end: u64) -> bool
    requires { AreSmall (part ∷ []) }
{
    match bend_of(part) {
        None => false,
        Some(at) => is_between(at, begin, end),
    }
}

/// Whether more than a few of the parts do.
fn many_bend(parts: &[Part], begin: u64, end: u64) -> bool
    requires { AreSmall parts.now }
{
    let mut left = FEW;
    for part in parts {
        if goes_over(*part, begin, end) {
            if left == 0 {
                return true;
            }
            left -= 1;
        }
    }
    false
}

/// Adds what the parts come to at two times in picoseconds, and where one of them goes over to its other line between:
/// they are nowhere between further above a rate than at one of these. Where many do, by the parts' steps, whose
/// neighbours meet there, so that the parts are not summed up anew at each.
pub fn heights_between(
    alloc: Global,
    parts: &[Part],
    begin: u64,
    end: u64,
    heights: &mut Vec<Height>,
) -> Result<(), AllocError>
    requires parts { AreSmall parts.now }
    requires order { begin ≤ end }
    requires end { end < 2 ^ 62 }
    ensures { OnOk result (AddsHeights parts.now begin end heights.old.items heights.new.items) }
{
    add(heights, Some(height_at(parts, at_picosecond(begin))))?;
    add(heights, Some(height_at(parts, at_picosecond(end))))?;
    if many_bend(parts, begin, end) {
        let lines = steps(alloc, parts)?;
        add_meetings(&lines, begin, end, heights)?;
        return Ok(());
    }
    for part in parts {
        let found = height_at_bend(parts, *part, begin, end);
        add(heights, found)?;
    }
    Ok(())
}
