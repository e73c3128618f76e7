//! Until when the jumps of bundles count: from then on their lines are no further above the rate than they are before.

ghost use Rattle.std.specs.Prelude.{◌≡◌, ◌-◌, ◌^◌, ◌<◌, ◌≤◌, All, List, IfOk, IfSome, length};
ghost use Rattle.arrival_lines.specs.Steps.{AreSlowing};
ghost use Rattle.arrival_heights.specs.Heights.{AreMoments};
ghost use Rattle.arrival_stairs.specs.Horizon.{ArePast, IsDown, IsHorizon, IsOnset, IsPast, down_at};
ghost use Rattle.arrival_stairs.specs.Stairs.{AreBundles};
ghost use Rattle.arrival_heights.specs.Heights.{AreSmall};

use crate::stairs::{Bundle, levels_of};
use arrival_heights::{
    Height, Peaks, bend_of, greatest_ahead, heights_between, peaks_of, slow_burst,
};
use arrival_lines::{Line, Part, Service};
use std::alloc::{AllocError, Global};

/// The picoseconds of a second.
const SECOND: u128 = 1_000_000_000_000;

/// No time of so many picoseconds or more is told.
const LATE: u128 = 1 << 62;

/// When a line that grows slower than the rate is no more than so many grains above it, in picoseconds, rounded up.
fn meets(line: Line, rate: u64, known: u128) -> u128
    requires { line.rate < rate }
    ensures { result ≡ down_at line rate known }
{
    if line.burst as u128 <= known {
        return 0;
    }
    ((line.burst as u128 - known) * SECOND).div_ceil((rate - line.rate) as u128)
}

/// Whether the step is more than so many grains above the rate where it meets the next one; and where it is no slower.
fn is_above(step: Line, next: Line, rate: u64, known: u128) -> bool {
    if step.rate >= rate {
        return true;
    }
    let over = (step.burst as u128).saturating_sub(known);
    let fall = step.rate.saturating_sub(next.rate) as u128;
    let rise = next.burst.saturating_sub(step.burst) as u128;
    (rate - step.rate) as u128 * rise < over * fall
}

/// The step that is first no more than so many grains above the rate, by halving; the last one where none is.
fn first_down(steps: &[Line], rate: u64, known: u128) -> usize
    ensures { result ≤ length steps.now - 1 }
{
    let mut low: usize = 0;
    let mut high = steps.len().saturating_sub(1);
    while low < high {
        let middle = low + (high - low) / 2;
        if is_above(steps[middle], steps[middle + 1], rate, known) {
            low = middle + 1;
        } else {
            high = middle;
        }
    }
    low
}

/// When the first of the steps that grow slower than the rate is no more than so many grains above it; none where that
/// is late.
fn down_by(steps: &[Line], rate: u64, known: u128) -> Option<u64>
    ensures { IfSome result (IsDown steps.now rate known) }
{
    if steps.is_empty() {
        return None;
    }
    let step = steps[first_down(steps, rate, known)];
    if step.rate >= rate {
        return None;
    }
    let at = meets(step, rate, known);
    if at >= LATE {
        return None;
    }
    Some(at as u64)
}

/// When the last of the parts goes over to its other line, in picoseconds, rounded up.
fn last_bend(parts: &[Part]) -> u128
    requires { AreSmall parts.now }
{
    let mut last: u128 = 0;
    for part in parts {
        if let Some(at) = bend_of(*part) {
            last = last.max((at.over as u128 * SECOND).div_ceil(at.under as u128));
        }
    }
    last
}

/// What the bundles' levels at 0 come to: at 0, and up to the time at which the last of them is reached.
#[derive(Drop)]
pub(crate) struct Onset {
    /// In picoseconds.
    pub(crate) until: u64,
    pub(crate) first: Vec<Height>,
    pub(crate) peaks: Peaks,
}

pub(crate) fn onset_of(
    alloc: Global,
    bundles: &[Bundle],
    services: &[Service],
) -> Result<Onset, AllocError>
    requires bundles { AreBundles bundles.now }
    requires rates { All (λ s. s.rate < 2 ^ 62) services.now }
    ensures { IfOk result (IsOnset bundles.now) }
{
    let levels = levels_of(alloc, bundles)?;
    let until = last_bend(&levels).min(LATE - 1) as u64;
    let mut first = Vec::new(alloc);
    heights_between(alloc, &levels, 0, 0, &mut first)?;
    let mut heights = Vec::new(alloc);
    heights_between(alloc, &levels, 0, until, &mut heights)?;
    let peaks = peaks_of(alloc, heights, services)?;
    Ok(Onset {
        until,
        first,
        peaks,
    })
}

/// A time from which on the steps of the bundles' lines are no further above the rate than the bundles are before; none
/// where that is late.
fn horizon(onset: &Onset, steps: &[Line], rate: u64) -> Option<u64>
    requires first { AreMoments onset.now.first.items }
    requires heights { AreMoments onset.now.peaks.heights.items }
    requires rate { rate < 2 ^ 62 }
    ensures { (bundles : List Bundle) → IsOnset bundles onset.now → IfSome result (IsHorizon bundles steps.now rate) }
{
    let first = greatest_ahead(&onset.first, rate);
    match down_by(steps, rate, first) {
        None => None,
        Some(latest) => {
            if onset.until > latest {
                return Some(latest);
            }
            let known = onset.peaks.ahead(rate);
            match down_by(steps, rate, known) {
                None => Some(latest),
                Some(end) => Some(end.max(onset.until).min(latest)),
            }
        }
    }
}

/// The same at a service, and 0 where each step is faster.
fn horizon_at(onset: &Onset, steps: &[Line], rate: u64) -> Option<u64>
    requires first { AreMoments onset.now.first.items }
    requires heights { AreMoments onset.now.peaks.heights.items }
    requires steps { AreSlowing steps.now }
    requires rate { rate < 2 ^ 62 }
    ensures { (bundles : List Bundle) → IsOnset bundles onset.now → IfSome result (IsPast bundles steps.now rate) }
{
    match slow_burst(steps, rate) {
        None => Some(0),
        Some(_) => horizon(onset, steps, rate),
    }
}

/// The same for each of some services.
pub(crate) fn last_horizon(onset: &Onset, steps: &[Line], services: &[Service]) -> Option<u64>
    requires first { AreMoments onset.now.first.items }
    requires heights { AreMoments onset.now.peaks.heights.items }
    requires steps { AreSlowing steps.now }
    requires rates { All (λ s. s.rate < 2 ^ 62) services.now }
    ensures { (bundles : List Bundle) → IsOnset bundles onset.now → IfSome result (ArePast bundles steps.now services.now (length services.now)) }
{
    let mut last: u64 = 0;
    for service in services {
        match horizon_at(onset, steps, service.rate) {
            None => return None,
            Some(end) => last = last.max(end),
        }
    }
    Some(last)
}
