//! The least that the last steps of lines come to at a time.

ghost use Rattle.std.specs.Prelude.{◌≡◌, ◌^◌, ◌<◌, IfOk, length};
ghost use Rattle.arrival_stairs.specs.Lows.{AreLows, line_level};

use arrival_lines::Line;
use std::alloc::{AllocError, Global};

/// The picoseconds of a second.
const SECOND: u128 = 1_000_000_000_000;

/// What the line comes to at a time in picoseconds, in grains over 10^12.
fn level_at(line: Line, end: u64) -> u128
    requires { end < 2 ^ 62 }
    ensures is { result ≡ line_level line end }
    ensures small { result < 2 ^ 127 }
{
    line.burst as u128 * SECOND + line.rate as u128 * end as u128
}

/// The least that the last steps come to at a time in picoseconds, in grains over 10^12: that the last one does, the last
/// two, and so on up to all.
pub(crate) fn lows_of(alloc: Global, steps: &[Line], end: u64) -> Result<Vec<u128>, AllocError>
    requires { end < 2 ^ 62 }
    ensures { IfOk result (λ v. AreLows steps.now end (length steps.now) v.items) }
{
    let mut lows = Vec::with_capacity(alloc, steps.len())?;
    let mut least = u128::MAX;
    for i in 0..steps.len() {
        least = least.min(level_at(steps[steps.len() - 1 - i], end));
        lows.push(least)?;
    }
    Ok(lows)
}
