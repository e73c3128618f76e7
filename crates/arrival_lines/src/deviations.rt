//! The excess of arrivals over a rate, and the delay and the backlog at a service that come of it.

ghost use Rattle.std.specs.Prelude.{◌≡◌, ℕ, ◌+◌, ◌-◌, ◌*◌, ◌^◌, ◌<◌, ◌≤◌, ◌↔◌, IsTrue, List, length, get_or, MatchOption};
ghost use Rattle.std.specs.Int.{div_ceil};
ghost use Rattle.arrival_lines.specs.declared.grid.Line.{Line};
ghost use Rattle.arrival_lines.specs.declared.grid.Part.{Part};
ghost use Rattle.arrival_lines.specs.Steps.{AreSteps, AreSlowing};
ghost use Rattle.arrival_lines.specs.Excess.{IsExcess, IsEndless};
ghost use Rattle.arrival_lines.specs.Backlogs.{Falls, IsLeastHeight, IsLowest, height_of};

use crate::grid::{Line, SECOND, Service, times};

/// The height at which a line of the rate goes through the point in which the two lines meet, rounded up.
fn cut(fast: Line, slow: Line, rate: u64) -> u64
    requires slow { slow.rate ≤ rate }
    requires fast { rate < fast.rate }
    ensures above { fast.burst * (rate - slow.rate) + slow.burst * (fast.rate - rate)
        ≤ result * ((rate - slow.rate) + (fast.rate - rate)) }
    ensures least { result * ((rate - slow.rate) + (fast.rate - rate))
        < fast.burst * (rate - slow.rate) + slow.burst * (fast.rate - rate) + ((rate - slow.rate) + (fast.rate - rate)) }
{
    let (above, below) = (fast.rate - rate, rate - slow.rate);
    let height = times(fast.burst, below) + times(slow.burst, above);
    height.div_ceil(below as u128 + above as u128) as u64
}

/// How many steps are faster than the rate: these come first.
pub fn count_faster(steps: &[Line], rate: u64) -> usize
    requires { AreSlowing steps.now }
    ensures inside { result ≤ length steps.now }
    ensures faster { (k : ℕ) (d : Line) → k < result → rate < (get_or steps.now k d).rate }
    ensures slower { (k : ℕ) (d : Line) → result ≤ k → k < length steps.now → (get_or steps.now k d).rate ≤ rate }
{
    steps.partition_point(|step| step.rate > rate)
}

/// The excess over the rate of the parts with these steps; none where they come above each number over it.
pub(crate) fn excess(steps: &[Line], rate: u64) -> Option<u64>
    requires { AreSlowing steps.now }
    ensures { (parts : List Part) → AreSteps parts steps.now
        → MatchOption result (IsEndless parts rate) (λ x. IsExcess parts rate x) }
{
    let faster = count_faster(steps, rate);
    if faster == steps.len() {
        return None;
    }
    let slow = steps[faster];
    if faster == 0 {
        return Some(slow.burst);
    }
    Some(cut(steps[faster - 1], slow, rate))
}

/// The time in picoseconds in which the excess and the debt are worked off, rounded up.
pub(crate) fn delay(excess: u64, service: Service) -> u128
    requires { 0 < service.rate }
    ensures { result ≡ div_ceil ((excess + service.debt) * 10 ^ 12) service.rate }
{
    ((excess as u128 + service.debt as u128) * SECOND).div_ceil(service.rate as u128)
}

/// What a step comes to in the time in which so many grains are served at the rate, in bits, rounded up.
fn height(step: Line, waiting: u64, rate: u64) -> u128
    requires some { 0 < rate }
    requires slow { step.rate ≤ rate }
    ensures { result ≡ height_of step waiting rate }
{
    (step.burst as u128 + times(step.rate, waiting).div_ceil(rate as u128)).div_ceil(1024)
}

/// Whether the later step is the lower one when so many grains are served at the rate.
fn falls(step: Line, later: Line, waiting: u64, rate: u64) -> bool
    ensures { IsTrue result ↔ Falls step later waiting rate }
{
    let rise = later.burst.saturating_sub(step.burst);
    let fall = step.rate.saturating_sub(later.rate);
    times(rise, rate) < times(fall, waiting)
}

/// The lowest of the steps from the first slow one on, when so many grains are served at the rate. Found by halving: where the steps no
/// longer fall they rise.
fn lowest(steps: &[Line], slow: usize, waiting: u64, rate: u64) -> usize
    requires some { 0 < rate }
    requires inside { slow < length steps.now }
    ensures inside { (slow ≤ result) × (result < length steps.now) }
    ensures least { (parts : List Part) → AreSteps parts steps.now → IsLowest steps.now slow waiting rate result }
{
    let mut low = slow;
    let mut high = steps.len() - 1;
    while low < high {
        let middle = low + (high - low) / 2;
        if falls(steps[middle], steps[middle + 1], waiting, rate) {
            low = middle + 1;
        } else {
            high = middle;
        }
    }
    low
}

/// The most bits in the queue, of packets of at most so many grains: the excess, the debt and one packet, or what a step that is no
/// faster than the service comes to by the time at which they are worked off, where that is less.
pub(crate) fn backlog(steps: &[Line], excess: u64, service: Service, longest: u64) -> u64
    requires slowing { AreSlowing steps.now }
    requires some { 0 < service.rate }
    requires room { service.debt + longest < 2 ^ 64 }
    ensures { (parts : List Part) → AreSteps parts steps.now
        → IsLeastHeight steps.now (length steps.now) excess service longest result }
{
    let waiting = service.debt + longest;
    let plain = (excess as u128 + waiting as u128).div_ceil(1024);
    let slow = count_faster(steps, service.rate);
    if slow == steps.len() {
        return plain as u64;
    }
    let at = lowest(steps, slow, waiting, service.rate);
    let step = steps[at];
    plain.min(height(step, waiting, service.rate)) as u64
}
