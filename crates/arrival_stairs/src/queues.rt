//! The least delay and the least backlog of a queue over its services, by stairs and by lines.

ghost use Rattle.std.specs.Prelude.{◌+◌, ◌^◌, ◌<◌, All, List, IfOk, length};
ghost use Rattle.arrival_lines.specs.Steps.{AreSlowing, AreSteps};
ghost use Rattle.arrival_stairs.specs.BelowLines.{line_parts};
ghost use Rattle.arrival_heights.specs.Heights.{AreMoments};
ghost use Rattle.arrival_stairs.specs.Horizon.{IsWalkOf};
ghost use Rattle.arrival_stairs.specs.Lows.{AreLows};
ghost use Rattle.arrival_stairs.specs.Stairs.{AreBundles};
ghost use Rattle.arrival_stairs.specs.declared.stairs.Bundle.{Bundle};
ghost use Rattle.arrival_stairs.specs.Queues.{IsLeastOfBoth, IsLeastSoFar, LeastOfBothIsKept};

use crate::stairs::Bundle;
use crate::stays::{queue_in, stay_at, stay_in};
use crate::walks::{Walk, walk_of};
use arrival_lines::{Line, Queue, Service, Stay, lesser_stay, queue_of};
use std::alloc::{AllocError, Global};

/// The least delay and the least backlog over the services, by stairs and by lines.
fn least_stay(
    walk: &Walk,
    steps: &[Line],
    services: &[Service],
    longest: u64,
    by_lines: Option<Queue>,
) -> Option<Stay>
    requires moments { AreMoments walk.now.peaks.heights.items }
    requires steps { AreSlowing steps.now }
    requires lows { AreLows steps.now walk.now.end (length steps.now) walk.now.lows.items }
    requires rates { All (λ s. s.rate < 2 ^ 62) services.now }
    requires room { All (λ s. s.debt + longest < 2 ^ 64) services.now }
    ensures { (bundles : List Bundle) → AreBundles bundles → AreSteps (line_parts bundles) steps.now → IsWalkOf bundles steps.now services.now walk.now
        → IsLeastSoFar bundles services.now longest (length services.now) by_lines result }
{
    let mut least = stay_in(by_lines);
    for service in services {
        least = lesser_stay(least, stay_at(walk, steps, *service, longest));
    }
    least
}

/// What is promised of a queue at which these bundles arrive, of packets of at most so many grains, and that gets each
/// of the services: the least delay and the least backlog over them, by the stairs and by their lines, of which these
/// are the steps. None where each delay is of 2^50 picoseconds or more, or there is none.
pub fn stair_queue(
    alloc: Global,
    bundles: &[Bundle],
    steps: &[Line],
    services: &[Service],
    longest: u64,
) -> Result<Option<Queue>, AllocError>
    requires bundles { AreBundles bundles.now }
    requires steps { AreSteps (line_parts bundles.now) steps.now }
    requires rates { All (λ s. s.rate < 2 ^ 62) services.now }
    requires room { All (λ s. s.debt + longest < 2 ^ 64) services.now }
    ensures { IfOk result (IsLeastOfBoth bundles.now services.now longest) }
{
    let by_lines = queue_of(steps, services, longest);
    let walk = walk_of(alloc, bundles, steps, services)?;
    let least = least_stay(&walk, steps, services, longest, by_lines);
    Ok(queue_in(least))
}

/// What bundles bring is served within the delay of their queue, and holds no more than its backlog: a law.
pub fn least_of_both_is_kept()
    ensures { LeastOfBothIsKept }
{}
