//! The delay and the backlog of bundles at one service.

ghost use Rattle.std.specs.Prelude.{◌≡◌, ◌+◌, ◌*◌, ◌^◌, ◌<◌, List, length};
ghost use Rattle.std.specs.Int.{div_ceil};
ghost use Rattle.arrival_lines.specs.Steps.{AreSlowing, AreSteps};
ghost use Rattle.arrival_stairs.specs.BelowLines.{line_parts};
ghost use Rattle.arrival_heights.specs.Heights.{AreMoments};
ghost use Rattle.arrival_stairs.specs.Horizon.{IsEnd, IsWalk};
ghost use Rattle.arrival_stairs.specs.Lows.{AreLows};
ghost use Rattle.arrival_stairs.specs.Stairs.{AreBundles};
ghost use Rattle.arrival_stairs.specs.Stays.{IsStayAt, as_stay, as_queue};
ghost use Rattle.arrival_stairs.specs.declared.stairs.Bundle.{Bundle};

use crate::excess::stair_excess;
use crate::walks::Walk;
use arrival_heights::slow_burst;
use arrival_lines::{Line, Queue, Service, Stay};

/// The picoseconds of a second.
const SECOND: u128 = 1_000_000_000_000;

/// Delays of so many picoseconds are not told.
const ENDLESS: u128 = 1 << 50;

/// The time in which so many grains and the debt are served, and the bits that wait when these and a packet do; both
/// rounded up.
fn stay_of(excess: u64, service: Service, longest: u64) -> Stay
    requires some { 0 < service.rate }
    requires room { service.debt + longest < 2 ^ 64 }
    ensures delay { result.delay ≡ div_ceil ((excess + service.debt) * 10 ^ 12) service.rate }
    ensures backlog { result.backlog ≡ div_ceil (excess + (service.debt + longest)) 1024 }
{
    let waiting = service.debt + longest;
    let delay = (excess as u128 + service.debt as u128) * SECOND;
    let backlog = (excess as u128 + waiting as u128).div_ceil(1024);
    Stay {
        delay: delay.div_ceil(service.rate as u128),
        backlog: backlog as u64,
    }
}

/// The delay and the backlog at one service of the bundles of which this is the walk and these are the lines' steps; none
/// where each of these is faster.
pub(crate) fn stay_at(walk: &Walk, steps: &[Line], service: Service, longest: u64) -> Option<Stay>
    requires moments { AreMoments walk.now.peaks.heights.items }
    requires steps { AreSlowing steps.now }
    requires lows { AreLows steps.now walk.now.end (length steps.now) walk.now.lows.items }
    requires rate { service.rate < 2 ^ 62 }
    requires room { service.debt + longest < 2 ^ 64 }
    ensures { (bundles : List Bundle) → AreBundles bundles → AreSteps (line_parts bundles) steps.now → IsWalk bundles walk.now
        → IsEnd bundles steps.now service.rate walk.now.end → IsStayAt bundles service longest result }
{
    if service.rate == 0 {
        return None;
    }
    match slow_burst(steps, service.rate) {
        None => None,
        Some(most) => {
            let excess = stair_excess(walk, steps, service.rate, most);
            Some(stay_of(excess, service, longest))
        }
    }
}

/// The delay and the backlog of a queue.
pub(crate) fn stay_in(queue: Option<Queue>) -> Option<Stay>
    ensures { result ≡ as_stay queue }
{
    match queue {
        None => None,
        Some(queue) => Some(Stay {
            delay: queue.delay as u128,
            backlog: queue.backlog,
        }),
    }
}

/// The queue of a delay and a backlog, where the delay is below 2^50 picoseconds.
pub(crate) fn queue_in(stay: Option<Stay>) -> Option<Queue>
    ensures { result ≡ as_queue stay }
{
    match stay {
        None => None,
        Some(stay) => {
            if stay.delay >= ENDLESS {
                return None;
            }
            Some(Queue {
                delay: stay.delay as u64,
                backlog: stay.backlog,
            })
        }
    }
}
