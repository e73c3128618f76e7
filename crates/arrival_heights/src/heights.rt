//! What parts come to at a time, and how far that is above a rate.

ghost use Rattle.std.specs.Prelude.{◌≡◌, ◌+◌, ◌-◌, ◌*◌, ◌^◌, ◌<◌, ◌≤◌, ◌↔◌, max, ◌∷◌, [], IsTrue};
ghost use Rattle.std.specs.Ordering.{nat_cmp};
ghost use Rattle.arrival_heights.specs.Heights.{AreSmall, IsMoment, AreMoments, line_height, part_height, heights, height_of, ahead_of, most_ahead};

use arrival_lines::{Line, Part};
use std::cmp::Ordering;

/// The picoseconds of a second.
const SECOND: u64 = 1_000_000_000_000;

/// A time: so many seconds over so many.
#[derive(Clone, Copy)]
pub struct Moment {
    /// In seconds.
    pub over: u64,
    /// Of a second, above 0.
    pub under: u64,
}

/// A time in picoseconds.
pub fn at_picosecond(time: u64) -> Moment
    ensures { result ≡ record { over = time; under = 10 ^ 12 } }
{
    Moment {
        over: time,
        under: SECOND,
    }
}

/// When a stair of this gap and jitter jumps for the so manieth time, in picoseconds.
pub fn jump_time(number: u64, gap: u64, jitter: u64) -> u64
    requires short { number * gap < 2 ^ 64 }
    requires late { jitter ≤ number * gap }
    ensures { result ≡ number * gap - jitter }
{
    number * gap - jitter
}

/// Whether the one time comes before the other.
pub fn comes_before(one: Moment, other: Moment) -> bool
    ensures { IsTrue result ↔ (one.over * other.under < other.over * one.under) }
{
    (one.over as u128 * other.under as u128) < other.over as u128 * one.under as u128
}

/// Which of the two times comes first. (The `under` of each is above 0; with the 1 this is an order on all.)
pub fn sooner(one: Moment, other: Moment) -> Ordering
    ensures { result ≡ nat_cmp (one.over * max other.under 1) (other.over * max one.under 1) }
{
    let here = one.over as u128 * other.under.max(1) as u128;
    let there = other.over as u128 * one.under.max(1) as u128;
    here.cmp(&there)
}

/// What parts come to at a time.
#[derive(Clone, Copy)]
pub struct Height {
    /// When.
    pub at: Moment,
    /// In grains over the time's `under`.
    pub grains: u128,
}

/// The product of two numbers below 2^62.
pub fn times(a: u64, b: u64) -> u128
    requires one { a < 2 ^ 62 }
    requires other { b < 2 ^ 62 }
    ensures is { result ≡ a * b }
    ensures small { result < 2 ^ 124 }
{
    a as u128 * b as u128
}

/// What the line comes to at the time, in grains over the time's `under`.
pub fn height_of_line(line: Line, at: Moment) -> u128
    requires burst { line.burst < 2 ^ 62 }
    requires rate { line.rate < 2 ^ 62 }
    requires at { IsMoment at }
    ensures is { result ≡ line_height line at.over at.under }
    ensures small { result < 2 ^ 125 }
{
    times(line.burst, at.under) + times(line.rate, at.over)
}

/// What the lesser of the part's lines comes to at the time.
fn height_of_part(part: Part, at: Moment) -> u128
    requires part { AreSmall (part ∷ []) }
    requires at { IsMoment at }
    ensures { result ≡ part_height at.over at.under part }
{
    let sum = height_of_line(part.sum, at);
    match part.pace {
        None => sum,
        Some(pace) => sum.min(height_of_line(pace, at)),
    }
}

/// What the parts come to at the time, together.
fn grains_at(parts: &[Part], at: Moment) -> u128
    requires parts { AreSmall parts.now }
    requires at { IsMoment at }
    ensures { result ≡ heights parts.now at.over at.under }
{
    let mut all: u128 = 0;
    for part in parts {
        all += height_of_part(*part, at);
    }
    all
}

/// What the parts come to at the time.
pub(crate) fn height_at(parts: &[Part], at: Moment) -> Height
    requires parts { AreSmall parts.now }
    requires at { IsMoment at }
    ensures { result ≡ height_of parts.now at }
{
    Height {
        at,
        grains: grains_at(parts, at),
    }
}

/// By how many grains the height is above the rate, rounded up; 0 where it is not.
pub(crate) fn ahead(height: Height, rate: u64) -> u128
    requires at { IsMoment height.at }
    requires rate { rate < 2 ^ 62 }
    ensures { result ≡ ahead_of rate height }
{
    let served = times(rate, height.at.over);
    if height.grains <= served {
        return 0;
    }
    (height.grains - served).div_ceil(height.at.under as u128)
}

/// The greater one.
pub fn greater(a: u128, b: u128) -> u128
    ensures { result ≡ max a b }
{
    if a < b { b } else { a }
}

/// By how many grains the heights are above the rate at most, rounded up; 0 where none is.
pub fn greatest_ahead(heights: &[Height], rate: u64) -> u128
    requires at { AreMoments heights.now }
    requires rate { rate < 2 ^ 62 }
    ensures { result ≡ most_ahead rate heights.now }
{
    let mut most: u128 = 0;
    for height in heights {
        most = greater(most, ahead(*height, rate));
    }
    most
}
