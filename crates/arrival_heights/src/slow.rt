//! Which steps are no faster than a rate.

ghost use Rattle.std.specs.Prelude.{MatchOption};
ghost use Rattle.arrival_lines.specs.Steps.{AreSlowing};
ghost use Rattle.arrival_heights.specs.Slow.{IsSlowBurst, AreFaster};

use arrival_lines::{Line, count_faster};

/// The burst of the first step that is no faster than the rate. None where each is faster.
pub fn slow_burst(steps: &[Line], rate: u64) -> Option<u64>
    requires { AreSlowing steps.now }
    ensures { MatchOption result (AreFaster steps.now rate) (IsSlowBurst steps.now rate) }
{
    let faster = count_faster(steps, rate);
    if faster == steps.len() {
        return None;
    }
    Some(steps[faster].burst)
}
