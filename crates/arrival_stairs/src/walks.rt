//! The walk of a queue, once for all its services.

ghost use Rattle.std.specs.Prelude.{◌≡◌, ℕ, ◌^◌, ◌<◌, ◌≤◌, All, IfOk, length, get_or};
ghost use Rattle.arrival_lines.specs.Steps.{AreSlowing};
ghost use Rattle.arrival_lines.specs.declared.grid.Service.{Service};
ghost use Rattle.arrival_stairs.specs.Horizon.{IsEnd, IsOnset, IsWalkOf};
ghost use Rattle.arrival_stairs.specs.Jumps.{jump_count};
ghost use Rattle.arrival_stairs.specs.Stairs.{AreBundles};

use crate::counts::{are_few, last_walked};
use crate::horizon::{Onset, last_horizon, onset_of};
use crate::lows::lows_of;
use crate::stairs::Bundle;
use crate::walk::heights_until;
use arrival_heights::{Peaks, peaks_of};
use arrival_lines::{Line, Service};
use std::alloc::{AllocError, Global};

/// What a queue's bundles come to where they may be furthest above a rate up to a time.
#[derive(Drop)]
pub(crate) struct Walk {
    /// In picoseconds.
    pub(crate) end: u64,
    pub(crate) peaks: Peaks,
    /// The least that the last steps come to at the end: the last one, the last two, and so on.
    pub(crate) lows: Vec<u128>,
}

/// Until when to walk: until the horizon of each service is past, but over no more jumps than the limit.
fn end_of(bundles: &[Bundle], onset: &Onset, steps: &[Line], services: &[Service]) -> u64
    requires bundles { AreBundles bundles.now }
    requires onset { IsOnset bundles.now onset.now }
    requires steps { AreSlowing steps.now }
    requires rates { All (λ s. s.rate < 2 ^ 62) services.now }
    ensures short { result < 2 ^ 62 }
    ensures few { jump_count result bundles.now ≤ 4096 }
    ensures ends { (k : ℕ) (d : Service) → k < length services.now → IsEnd bundles.now steps.now (get_or services.now k d).rate result }
{
    if let Some(end) = last_horizon(onset, steps, services) {
        if are_few(bundles, end) {
            return end;
        }
    }
    last_walked(bundles)
}

/// The walk over the bundles' jumps, for services at which the bundles have these steps.
pub(crate) fn walk_of(
    alloc: Global,
    bundles: &[Bundle],
    steps: &[Line],
    services: &[Service],
) -> Result<Walk, AllocError>
    requires bundles { AreBundles bundles.now }
    requires steps { AreSlowing steps.now }
    requires rates { All (λ s. s.rate < 2 ^ 62) services.now }
    ensures { IfOk result (IsWalkOf bundles.now steps.now services.now) }
{
    let onset = onset_of(alloc, bundles, services)?;
    let end = end_of(bundles, &onset, steps, services);
    let heights = heights_until(alloc, bundles, end)?;
    let peaks = peaks_of(alloc, heights, services)?;
    let lows = lows_of(alloc, steps, end)?;
    Ok(Walk { end, peaks, lows })
}
